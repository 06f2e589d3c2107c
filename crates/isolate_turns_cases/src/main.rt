//! Runs the isolates that the file `cases` describes, and prints what each one does: its schedule, the calls
//! at its ports, what it raises, what its program prints and how it ends. The first lines of the file say how
//! a case is written. The expected lines were worked out from the rules alone.
#![tactic(auto)]

mod log;
mod ports;
mod queue;
mod ring;
mod running;
mod setting;
mod shown;
mod taken;

use crate::running::{Outcome, run};
use case_text::text_of;
use guest_text::read_program;
use prof_base::Memory;
use std::alloc::{AllocError, Global};
use std::{fs, io};

pub(crate) fn out_of_memory(_memory: Memory) -> AllocError {
    AllocError
}

fn print_case(rt: &impl Print, alloc: Global, text: &str) -> Result<(), io::Error> {
    let (lines, program) = text.split_once("program\n").unwrap_or((text, ""));
    match read_program(alloc, program.as_bytes()) {
        Ok(program) => {
            let outcome: Outcome = run(alloc, lines, program)?;
            shown::print_outcome(rt, alloc, &outcome)
        }
        Err(_) => println!(rt; "no program"),
    }
}

fn main(rt: HostRuntime) -> Result<(), io::Error> {
    let alloc = rt.alloc();
    let all = fs::read_to_string(&rt, "cases")?;
    let cases = all.strip_suffix('\n').unwrap_or(&all);
    for case in cases.split("\n% ").skip(1) {
        let title = case.split('\n').next().unwrap_or("");
        println!(rt; "% {title}")?;
        let text = text_of(alloc, case)?;
        print_case(&rt, alloc, text.as_str())?;
    }
    Ok(())
}
