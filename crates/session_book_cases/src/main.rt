//! Prints, for each item list in the file `cases`, the files that its sessions get: the code map, the
//! symbolizer and the book of sessions take the items one by one. After each file it says whether the
//! plain functions of `reference_profile` make the same. `expected.py`, beside this crate's sources,
//! works out the same lines from the rules alone.
#![tactic(auto)]

mod case;
mod course;
mod shown;

use crate::case::list_text;
use crate::course::Course;
use item_text::{ItemList, read_items};
use record_text::ReadRefused;
use std::alloc::{AllocError, Global};
use std::{fs, io};

fn print_files(rt: &impl Print, alloc: Global, list: &ItemList) -> Result<(), io::Error> {
    let mut course = Course::new(alloc, list)?;
    for item in list.items.as_slice() {
        course.take(rt, item)?;
    }
    Ok(())
}

fn print_answers(rt: &impl Print, alloc: Global, text: &[u8]) -> Result<(), io::Error> {
    match read_items(alloc, text) {
        Ok(list) => print_files(rt, alloc, &list),
        Err(ReadRefused::At { line, .. }) => println!(rt; "no list: line {line}"),
        Err(ReadRefused::Memory) => Err(AllocError.into()),
    }
}

fn main(rt: HostRuntime) -> Result<(), io::Error> {
    let alloc = rt.alloc();
    let all = fs::read_to_string(&rt, "cases")?;
    let cases = all.strip_suffix('\n').unwrap_or(&all);
    for case in cases.split("\n% ").skip(1) {
        let (title, lines) = case.split_once('\n').unwrap_or((case, ""));
        println!(rt; "% {title}")?;
        let text = list_text(alloc, lines)?;
        print_answers(&rt, alloc, text.as_bytes())?;
    }
    Ok(())
}
