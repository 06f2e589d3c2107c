// The lines of a case.
use std::alloc::Global;
use std::io;

// Reads the numbers of the lines that begin with this word.
pub(crate) fn calls(alloc: Global, lines: &str, word: &str) -> Result<Vec<u64>, io::Error> {
    let mut calls = Vec::new(alloc);
    for line in lines.lines() {
        if let Some(number) = line.strip_prefix(word) {
            if let Ok(call) = number.parse::<u64>() {
                calls.push(call)?;
            }
        }
    }
    Ok(calls)
}

// Reads the bytes of a line that delivers some.
pub(crate) fn delivered(alloc: Global, line: &str) -> Result<Vec<u8>, io::Error> {
    if let Some(bytes) = line.strip_prefix("deliver ") {
        return Ok(bytes.as_bytes().to_vec(alloc)?);
    }
    let mut bytes = Vec::new(alloc);
    if let Some(word) = line.strip_prefix("deliver_many ") {
        bytes.resize(word.parse::<usize>().unwrap_or(0), b'x')?;
    }
    Ok(bytes)
}
