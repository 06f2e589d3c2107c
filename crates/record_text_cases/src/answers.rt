// What is printed of a text.
use record_text::{LineCause, ReadRefused};
use std::alloc::Global;
use std::{io, str};

fn cause_word(cause: LineCause) -> &'static str {
    match cause {
        LineCause::Word => "word",
        LineCause::Number => "number",
        LineCause::Order => "order",
        LineCause::Session => "session",
        LineCause::Limit => "limit",
        LineCause::Fit => "fit",
    }
}

pub(crate) fn out_of_memory(alloc: Global) -> Result<String, io::Error> {
    Ok(format!(in alloc; "out of memory")?)
}

/// The answer for a text that is refused.
pub(crate) fn refused(alloc: Global, refusal: ReadRefused) -> Result<String, io::Error> {
    match refusal {
        ReadRefused::At { line, cause } => {
            Ok(format!(in alloc; "line {} {}", line, cause_word(cause))?)
        }
        ReadRefused::Memory => out_of_memory(alloc),
    }
}

/// The answer for a text of which `count` lines were read, and what was written for them.
pub(crate) fn written(
    alloc: Global,
    count: usize,
    canonical: &[u8],
    text: &[u8],
) -> Result<String, io::Error> {
    if canonical == text {
        return Ok(format!(in alloc; "read {}, written again", count)?);
    }
    match str::from_utf8(canonical) {
        Ok(other) => Ok(format!(in alloc; "read {}, written as\n{}", count, other)?),
        Err(_) => Ok(format!(in alloc; "no text")?),
    }
}
