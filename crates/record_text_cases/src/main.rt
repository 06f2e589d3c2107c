//! Prints what the readers of scripts and of schedules answer for each text in the files `scripts` and
//! `schedules`, in which texts have the short form of `case_text`. `expected.py`, beside this crate's
//! sources, writes these files, and works out the same lines from the rules alone.
#![tactic(auto)]

mod answers;
mod schedules;
mod scripts;

use case_text::text_of;
use std::alloc::Global;
use std::{fs, io};

#[derive(Clone, Copy)]
enum Record {
    Script,
    Schedule,
}

fn answer(alloc: Global, record: Record, text: &[u8]) -> Result<String, io::Error> {
    match record {
        Record::Script => scripts::answer(alloc, text),
        Record::Schedule => schedules::answer(alloc, text),
    }
}

fn print_answers(rt: &HostRuntime, name: &str, record: Record) -> Result<(), io::Error> {
    let alloc = rt.alloc();
    let all = fs::read_to_string(rt, name)?;
    let cases = all.strip_suffix('\n').unwrap_or(&all);
    for case in cases.split("\n% ").skip(1) {
        let title = case.split('\n').next().unwrap_or("");
        let text = text_of(alloc, case)?;
        let answered = answer(alloc, record, text.as_bytes())?;
        println!(rt; "% {title}\n{answered}")?;
    }
    Ok(())
}

fn main(rt: HostRuntime) -> Result<(), io::Error> {
    print_answers(&rt, "scripts", Record::Script)?;
    print_answers(&rt, "schedules", Record::Schedule)
}
