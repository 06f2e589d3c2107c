// What streams in memory answer, and what they have and were offered at the end.
ghost use Rattle.std.specs.Prelude.{◌≤◌};

use crate::bounds::deliver_twice_surely;
use crate::input::{calls, delivered};
use out_stream::{Chunk, MemoryStream, Offer, OutputStream, SureStream, Undelivered};
use std::alloc::Global;
use std::{io, str};

pub(crate) fn answer_word(answer: Result<(), Undelivered>) -> &'static str {
    match answer {
        Ok(()) => "ok\n",
        Err(Undelivered::Aborted) => "aborted\n",
        Err(Undelivered::Failed) => "failed\n",
        Err(Undelivered::Memory) => "out of memory\n",
    }
}

fn chunk_word(answer: Chunk) -> &'static str {
    match answer {
        Chunk::Continue => "",
        Chunk::Abort => " abort",
        Chunk::Failed => " failed",
        Chunk::Memory => " out of memory",
    }
}

fn offers_line(alloc: Global, offers: &[Offer]) -> Result<String, io::Error> {
    let mut text = String::from_str(alloc, "offered")?;
    for offer in offers {
        match offer {
            Offer::Bytes { count, answer } => {
                let word = chunk_word(*answer);
                text.push_str(&format!(in alloc; " {count}{word}")?)?;
            }
            Offer::End => text.push_str(" end")?,
        }
    }
    text.push_str("\n")?;
    Ok(text)
}

// Prints the bytes, or how many there are if there are more than 40.
pub(crate) fn part_line(alloc: Global, word: &str, bytes: &[u8]) -> Result<String, io::Error> {
    let length = bytes.len();
    if length > 40 {
        return Ok(format!(in alloc; "{word} of {length}\n")?);
    }
    let text = str::from_utf8(bytes).unwrap_or("no text");
    Ok(format!(in alloc; "{word} [{text}]\n")?)
}

fn held_lines(
    alloc: Global,
    closed: &[Vec<u8>],
    unfinished: &[u8],
    offers: &[Offer],
) -> Result<String, io::Error> {
    let mut text = String::new(alloc);
    for part in closed {
        text.push_str(&part_line(alloc, "part", part)?)?;
    }
    text.push_str(&part_line(alloc, "unfinished", unfinished)?)?;
    text.push_str(&offers_line(alloc, offers)?)?;
    Ok(text)
}

fn delivered_to<S: OutputStream>(
    alloc: Global,
    stream: &mut S,
    lines: &str,
) -> Result<String, io::Error> {
    let mut text = String::new(alloc);
    for line in lines.lines() {
        let bytes = delivered(alloc, line)?;
        if !bytes.is_empty() {
            text.push_str(answer_word(stream.deliver_part(alloc, &bytes)))?;
        }
    }
    Ok(text)
}

pub(crate) fn answers(alloc: Global, size: u32, lines: &str) -> Result<String, io::Error>
    requires low { 1 ≤ size }
    requires high { size ≤ 65536 }
{
    let failing = calls(alloc, lines, "fail ")?;
    let aborting = calls(alloc, lines, "abort ")?;
    let mut stream = MemoryStream::new(alloc, size, failing, aborting);
    let mut text = delivered_to(alloc, &mut stream, lines)?;
    let held = held_lines(
        alloc,
        stream.closed_parts(),
        stream.unfinished_part(),
        stream.offers(),
    )?;
    text.push_str(&held)?;
    Ok(text)
}

// Delivers the bytes of each line twice.
pub(crate) fn sure_answers(alloc: Global, size: u32, lines: &str) -> Result<String, io::Error>
    requires low { 1 ≤ size }
    requires high { size ≤ 65536 }
{
    let mut stream = SureStream::new(alloc, size);
    let mut text = String::new(alloc);
    for line in lines.lines() {
        let bytes = delivered(alloc, line)?;
        if !bytes.is_empty() {
            text.push_str(answer_word(deliver_twice_surely(alloc, &mut stream, &bytes)))?;
        }
    }
    let held = held_lines(
        alloc,
        stream.closed_parts(),
        stream.unfinished_part(),
        stream.offers(),
    )?;
    text.push_str(&held)?;
    Ok(text)
}
