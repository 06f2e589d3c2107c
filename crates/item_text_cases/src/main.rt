//! Prints what `read_items` answers for each text in the files `refused` and `read`, whose first lines
//! say how the texts are written there. `expected.py`, beside this crate's sources, works out the same
//! lines from the rules alone.
#![tactic(auto)]

use item_text::{read_items, write_items};
use record_text::{LineCause, ReadRefused};
use std::alloc::Global;
use std::{fs, io, str};

fn cause_word(cause: LineCause) -> &'static str {
    match cause {
        LineCause::Word => "word",
        LineCause::Number => "number",
        LineCause::Order => "order",
        LineCause::Session => "session",
        LineCause::Limit => "limit",
        LineCause::Fit => "fit",
    }
}

// How many items there are, and their canonical text where it is another than this one.
fn written(
    alloc: Global,
    count: usize,
    canonical: &[u8],
    text: &[u8],
) -> Result<String, io::Error> {
    if canonical == text {
        return Ok(format!(in alloc; "items {}, written again", count)?);
    }
    match str::from_utf8(canonical) {
        Ok(other) => Ok(format!(in alloc; "items {}, written as\n{}", count, other)?),
        Err(_) => Ok(format!(in alloc; "no text")?),
    }
}

fn answer(alloc: Global, text: &[u8]) -> Result<String, io::Error> {
    match read_items(alloc, text) {
        Ok(list) => match write_items(alloc, &list) {
            Ok(canonical) => written(alloc, list.items.len(), canonical.as_slice(), text),
            Err(_) => Ok(format!(in alloc; "out of memory")?),
        },
        Err(ReadRefused::At { line, cause }) => Ok(format!(in alloc;
            "line {} {}",
            line,
            cause_word(cause)
        )?),
        Err(ReadRefused::Memory) => Ok(format!(in alloc; "out of memory")?),
    }
}

// Adds the lines that `count` and a line, with a space between, mean.
fn put_copies(text: &mut String, copies: &str) -> Result<(), io::Error> {
    if let Some((count, line)) = copies.split_once(' ') {
        for _ in 0..count.parse::<u32>().unwrap_or(0) {
            text.push_str(line)?;
            text.push('\n')?;
        }
    }
    Ok(())
}

// Adds the text that a line of a case means.
fn put_line(text: &mut String, line: &str) -> Result<(), io::Error> {
    if let Some(copies) = line.strip_prefix('*') {
        put_copies(text, copies)
    } else if let Some(open) = line.strip_prefix('>') {
        text.push_str(open)?;
        Ok(())
    } else {
        text.push_str(line)?;
        text.push('\n')?;
        Ok(())
    }
}

fn print_answers(rt: &HostRuntime, name: &str) -> Result<(), io::Error> {
    let alloc = rt.alloc();
    let all = fs::read_to_string(rt, name)?;
    let cases = all.strip_suffix('\n').unwrap_or(&all);
    for case in cases.split("\n%").skip(1) {
        let mut text = String::new(alloc);
        for line in case.split('\n').skip(1) {
            put_line(&mut text, line)?;
        }
        let answered = answer(alloc, text.as_bytes())?;
        println!(rt; "{answered}")?;
    }
    Ok(())
}

fn main(rt: HostRuntime) -> Result<(), io::Error> {
    print_answers(&rt, "refused")?;
    print_answers(&rt, "read")
}
