// The lines of a case.
use prof_base::Text;
use prof_outer::{FailingPut, Left, Stored};
use std::alloc::Global;
use std::io;
use std::io::ErrorKind;

pub(crate) fn text_of(alloc: Global, word: &str) -> Result<Text, io::Error> {
    match Text::new(alloc, word.as_bytes()) {
        Ok(text) => Ok(text),
        Err(_) => Err(io::Error::from(ErrorKind::InvalidInput)),
    }
}

// Reads the files of the lines `file NAME BYTES`.
pub(crate) fn files(alloc: Global, lines: &str) -> Result<Vec<Stored>, io::Error> {
    let mut files = Vec::new(alloc);
    for line in lines.lines() {
        if let Some(rest) = line.strip_prefix("file ") {
            if let Some((name, bytes)) = rest.split_once(' ') {
                files.push(Stored {
                    name: text_of(alloc, name)?,
                    bytes: bytes.as_bytes().to_vec(alloc)?,
                })?;
            }
        }
    }
    Ok(files)
}

// Reads the numbers of the lines `fail CALL`.
pub(crate) fn failing(alloc: Global, lines: &str) -> Result<Vec<u64>, io::Error> {
    let mut calls = Vec::new(alloc);
    for line in lines.lines() {
        if let Some(word) = line.strip_prefix("fail ") {
            if let Ok(call) = word.parse::<u64>() {
                calls.push(call)?;
            }
        }
    }
    Ok(calls)
}

fn left_of(word: &str) -> Option<Left> {
    match word {
        "old" => Some(Left::OldBytes),
        "new" => Some(Left::NewBytes),
        "nothing" => Some(Left::Nothing),
        _ => None,
    }
}

fn failing_put_of(words: &str) -> Option<FailingPut> {
    let (call, word) = words.split_once(' ')?;
    let left = left_of(word)?;
    match call.parse::<u64>() {
        Ok(call) => Some(FailingPut { call, left }),
        Err(_) => None,
    }
}

// Reads the calls of the lines `fail_put CALL LEFT`, where LEFT is `old`, `new` or `nothing`.
pub(crate) fn failing_puts(alloc: Global, lines: &str) -> Result<Vec<FailingPut>, io::Error> {
    let mut puts = Vec::new(alloc);
    for line in lines.lines() {
        if let Some(words) = line.strip_prefix("fail_put ") {
            if let Some(put) = failing_put_of(words) {
                puts.push(put)?;
            }
        }
    }
    Ok(puts)
}
