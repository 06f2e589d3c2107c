//! Prints what a processor does with the item lists of the file `cases`, whose first lines say how a case
//! is written. `expected.py`, beside this crate's sources, works out the same lines from the rules alone.
#![tactic(auto)]

mod arrival;
mod every;
mod heading;
mod putting;
mod reference;
mod running;
mod shown;
mod taking;

use crate::heading::Heading;
use crate::reference::{Reference, folded};
use case_text::text_of;
use item_text::{ItemList, read_items};
use prof_base::Memory;
use record_text::ReadRefused;
use std::alloc::{AllocError, Global};
use std::{fs, io};

pub(crate) fn out_of_memory(_memory: Memory) -> AllocError {
    AllocError
}

// Prints what comes of the list in the orders of arrival that a line names.
fn print_line(
    rt: &impl Print,
    alloc: Global,
    heading: &Heading,
    list: &ItemList,
    reference: &Reference,
    line: &str,
) -> Result<(), io::Error> {
    if let Some(number) = line.strip_prefix("take every ") {
        return every::print_takes(rt, alloc, heading, list, number.parse().unwrap_or(0));
    }
    if let Some(number) = line.strip_prefix("turn every ") {
        let first = number.parse().unwrap_or(0);
        return every::print_count(rt, alloc, heading, list, reference, first);
    }
    if let Some(words) = line.strip_prefix("take ") {
        let steps = arrival::steps_of(alloc, words, list.items.len())?;
        return taking::print_taken(rt, alloc, heading, list, &steps);
    }
    match line.strip_prefix("turn ") {
        Some(words) => {
            let steps = arrival::steps_of(alloc, words, list.items.len())?;
            shown::print_run(rt, alloc, heading, list, &steps, reference)
        }
        None => Ok(()),
    }
}

fn print_answers(
    rt: &impl Print,
    alloc: Global,
    lines: &str,
    text: &[u8],
) -> Result<(), io::Error> {
    match read_items(alloc, text) {
        Ok(list) => {
            let heading = Heading::new(alloc, lines)?;
            let reference = folded(alloc, &list);
            for line in lines.lines() {
                if line.starts_with("take ") || line.starts_with("turn ") {
                    println!(rt; "{line}")?;
                }
                print_line(rt, alloc, &heading, &list, &reference, line)?;
            }
            Ok(())
        }
        Err(ReadRefused::At { line, .. }) => println!(rt; "no list: line {line}"),
        Err(ReadRefused::Memory) => Err(AllocError.into()),
    }
}

fn main(rt: HostRuntime) -> Result<(), io::Error> {
    let alloc = rt.alloc();
    let all = fs::read_to_string(&rt, "cases")?;
    for case in all.split("\n% ").skip(1) {
        let (title, rest) = case.split_once('\n').unwrap_or((case, ""));
        println!(rt; "% {title}")?;
        let rest = rest.strip_suffix('\n').unwrap_or(rest);
        let (lines, copied) = rest.split_once("\nlist").unwrap_or((rest, ""));
        let text = text_of(alloc, copied)?;
        print_answers(&rt, alloc, lines, text.as_bytes())?;
    }
    Ok(())
}
