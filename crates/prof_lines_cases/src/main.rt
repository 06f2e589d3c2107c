//! Prints what is read of each text in the file `cases`, whose first lines say how the texts and the places
//! of their lines are written down.
#![tactic(auto)]

mod places;

use places::{Fault, read_places};
use prof_lines::{Cause, Lines, TextFault};
use std::alloc::Global;
use std::{fs, io};

fn cause_word(cause: Cause<()>) -> &'static str {
    match cause {
        Cause::Word => "word",
        Cause::Number => "number",
        Cause::Own(()) => "own",
    }
}

// Adds what each line of the text reads, and answers the first fault.
fn read_text(alloc: Global, places: &str, text: &[u8], out: &mut String) -> Result<u64, Fault> {
    let mut lines = Lines::new(text);
    while let Some((number, bytes)) = lines.next() {
        if let Err(fault) = read_places(alloc, places, bytes, out) {
            return Err(fault.at(number));
        }
    }
    Ok(lines.at())
}

fn answer(alloc: Global, places: &str, text: &[u8]) -> Result<String, io::Error> {
    let mut read = String::new(alloc);
    match read_text(alloc, places, text, &mut read) {
        Ok(number) => Ok(format!(in alloc; "{}| end {}", read, number)?),
        Err(TextFault::At { line, cause }) => Ok(format!(in alloc;
            "line {} {}",
            line,
            cause_word(cause)
        )?),
        Err(TextFault::Memory) => Ok(format!(in alloc; "out of memory")?),
    }
}

// Adds what a line of a case stands for.
fn put_line(text: &mut String, line: &str) -> Result<(), io::Error> {
    if let Some(open) = line.strip_prefix('>') {
        text.push_str(open)?;
    } else {
        text.push_str(line)?;
        text.push('\n')?;
    }
    Ok(())
}

fn main(rt: HostRuntime) -> Result<(), io::Error> {
    let alloc = rt.alloc();
    let all = fs::read_to_string(&rt, "cases")?;
    let cases = all.strip_suffix('\n').unwrap_or(&all);
    for case in cases.split("\n%").skip(1) {
        let mut text = String::new(alloc);
        for line in case.split('\n').skip(1) {
            put_line(&mut text, line)?;
        }
        let head = case.split('\n').next().unwrap_or("");
        let places = head.split('%').next().unwrap_or("");
        let answered = answer(alloc, places, text.as_bytes())?;
        println!(rt; "{answered}")?;
    }
    Ok(())
}
