// What depots answer to the lines `get NAME`, `put NAME BYTES` and `fill NAME LENGTH`.
use crate::bounds::{get_twice_surely, put_and_get_surely};
use crate::input::{failing, failing_puts, files, text_of};
use prof_outer::{Depot, GetFault, MemoryDepot, PutFault, SureDepot};
use std::alloc::Global;
use std::{io, str};

/// A file with more bytes is printed as their number.
const LONG: usize = 300;

fn get_word(fault: GetFault) -> &'static str {
    match fault {
        GetFault::Missing => "missing",
        GetFault::Failed => "failed",
        GetFault::Memory => "out of memory",
    }
}

fn put_word(answer: Result<(), PutFault>) -> &'static str {
    match answer {
        Ok(()) => "ok\n",
        Err(PutFault::Failed) => "failed\n",
        Err(PutFault::Memory) => "out of memory\n",
    }
}

fn add_bytes(alloc: Global, text: &mut String, bytes: &[u8]) -> Result<(), io::Error> {
    if bytes.len() <= LONG {
        text.push_str(str::from_utf8(bytes).unwrap_or("no text"))?;
    } else if bytes.iter().all(|byte| *byte == b'x') {
        let count = bytes.len();
        let said = format!(in alloc; "{count} bytes x")?;
        text.push_str(said.as_str())?;
    } else {
        text.push_str("other bytes")?;
    }
    Ok(())
}

fn get<D: Depot>(
    alloc: Global,
    depot: &mut D,
    word: &str,
    text: &mut String,
) -> Result<(), io::Error> {
    let name = text_of(alloc, word)?;
    match depot.get(alloc, &name) {
        Ok(bytes) => add_bytes(alloc, text, &bytes)?,
        Err(fault) => text.push_str(get_word(fault))?,
    }
    text.push_str("\n")?;
    Ok(())
}

fn put<D: Depot>(
    alloc: Global,
    depot: &mut D,
    words: &str,
    text: &mut String,
) -> Result<(), io::Error> {
    if let Some((word, bytes)) = words.split_once(' ') {
        let name = text_of(alloc, word)?;
        text.push_str(put_word(depot.put(alloc, &name, bytes.as_bytes())))?;
    }
    Ok(())
}

fn fill<D: Depot>(
    alloc: Global,
    depot: &mut D,
    words: &str,
    text: &mut String,
) -> Result<(), io::Error> {
    if let Some((word, length)) = words.split_once(' ') {
        let name = text_of(alloc, word)?;
        let length = length.parse::<usize>().unwrap_or(0);
        let bytes = vec![in alloc; b'x'; length]?;
        text.push_str(put_word(depot.put(alloc, &name, &bytes)))?;
    }
    Ok(())
}

/// Does what the line says, and appends what the depot answers to it.
pub(crate) fn answer<D: Depot>(
    alloc: Global,
    depot: &mut D,
    line: &str,
    text: &mut String,
) -> Result<(), io::Error> {
    if let Some(word) = line.strip_prefix("get ") {
        get(alloc, depot, word, text)?;
    } else if let Some(words) = line.strip_prefix("put ") {
        put(alloc, depot, words, text)?;
    } else if let Some(words) = line.strip_prefix("fill ") {
        fill(alloc, depot, words, text)?;
    }
    Ok(())
}

pub(crate) fn from_memory_depot(alloc: Global, lines: &str) -> Result<String, io::Error> {
    let mut depot = MemoryDepot::with_failing_puts(
        files(alloc, lines)?,
        failing(alloc, lines)?,
        failing_puts(alloc, lines)?,
    );
    let mut text = String::new(alloc);
    for line in lines.lines() {
        answer(alloc, &mut depot, line, &mut text)?;
    }
    Ok(text)
}

// Gets a file twice.
fn get_both(
    alloc: Global,
    depot: &mut SureDepot,
    word: &str,
    text: &mut String,
) -> Result<(), io::Error> {
    let name = text_of(alloc, word)?;
    match get_twice_surely(alloc, depot, &name) {
        Ok((first, second)) => {
            add_bytes(alloc, text, &first)?;
            text.push_str(" ")?;
            add_bytes(alloc, text, &second)?;
        }
        Err(fault) => text.push_str(get_word(fault))?,
    }
    text.push_str("\n")?;
    Ok(())
}

// Puts a file and gets it.
fn put_and_get(
    alloc: Global,
    depot: &mut SureDepot,
    words: &str,
    text: &mut String,
) -> Result<(), io::Error> {
    if let Some((word, bytes)) = words.split_once(' ') {
        let name = text_of(alloc, word)?;
        match put_and_get_surely(alloc, depot, &name, bytes.as_bytes()) {
            Ok(read) => add_bytes(alloc, text, &read)?,
            Err(_) => text.push_str("out of memory")?,
        }
        text.push_str("\n")?;
    }
    Ok(())
}

pub(crate) fn from_sure_depot(alloc: Global, lines: &str) -> Result<String, io::Error> {
    let mut depot = SureDepot::new(files(alloc, lines)?);
    let mut text = String::new(alloc);
    for line in lines.lines() {
        if let Some(word) = line.strip_prefix("get ") {
            get_both(alloc, &mut depot, word, &mut text)?;
        } else if let Some(words) = line.strip_prefix("put ") {
            put_and_get(alloc, &mut depot, words, &mut text)?;
        }
    }
    Ok(text)
}
