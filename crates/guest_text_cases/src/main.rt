//! Prints what the reader of programs answers for each text in the file `cases`, whose first lines say how
//! the texts are written there. Of a program that is read, the text that is written for it is printed too.
//! `expected.py`, beside this crate's sources, works out the same lines from the rules alone.
#![tactic(auto)]

use case_text::text_of;
use guest_program::Program;
use guest_text::{ProgramCause, ProgramRefused, read_program, write_program};
use std::alloc::Global;
use std::{fs, io, str};

// The greatest number of bytes of a text that is printed.
const SHOWN: usize = 3_000;

fn cause_word(cause: ProgramCause) -> &'static str {
    match cause {
        ProgramCause::Word => "word",
        ProgramCause::Number => "number",
        ProgramCause::UnknownName => "unknown name",
        ProgramCause::Twice => "twice",
        ProgramCause::Limit => "limit",
        ProgramCause::NoMain => "no main",
    }
}

fn instruction_count(program: &Program) -> usize {
    let mut count: usize = 0;
    for func in program.funcs() {
        count = count.saturating_add(func.body.len());
    }
    count
}

// What is written for the program that a written text is read as.
fn second_reading(alloc: Global, written: &[u8]) -> &'static str {
    match read_program(alloc, written) {
        Ok(program) => match write_program(alloc, &program) {
            Ok(again) if again.as_slice() == written => "the same",
            Ok(_) => "another text",
            Err(_) => "out of memory",
        },
        Err(_) => "no program",
    }
}

fn print_written(rt: &impl Print, written: &[u8]) -> Result<(), io::Error> {
    if written.len() > SHOWN {
        return Ok(());
    }
    match str::from_utf8(written) {
        Ok(text) => print!(rt; "{text}"),
        Err(_) => println!(rt; "no text"),
    }
}

fn print_program(rt: &impl Print, alloc: Global, program: &Program) -> Result<(), io::Error> {
    let Ok(text) = write_program(alloc, program) else {
        return println!(rt; "out of memory");
    };
    let written = text.as_slice();
    println!(rt;
        "functions {}, main {}, instructions {}, bytes {}, read again: {}",
        program.funcs().len(),
        program.main().0,
        instruction_count(program),
        written.len(),
        second_reading(alloc, written)
    )?;
    print_written(rt, written)
}

fn print_answer(rt: &impl Print, alloc: Global, text: &[u8]) -> Result<(), io::Error> {
    match read_program(alloc, text) {
        Ok(program) => print_program(rt, alloc, &program),
        Err(ProgramRefused::At { line, cause }) => {
            println!(rt; "line {} {}", line, cause_word(cause))
        }
        Err(ProgramRefused::Memory) => println!(rt; "out of memory"),
    }
}

fn main(rt: HostRuntime) -> Result<(), io::Error> {
    let alloc = rt.alloc();
    let all = fs::read_to_string(&rt, "cases")?;
    let cases = all.strip_suffix('\n').unwrap_or(&all);
    for case in cases.split("\n% ").skip(1) {
        let title = case.split('\n').next().unwrap_or("");
        println!(rt; "% {title}")?;
        let text = text_of(alloc, case)?;
        print_answer(&rt, alloc, text.as_bytes())?;
    }
    Ok(())
}
