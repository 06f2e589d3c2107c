// The text of a list, as it is written in the file of cases: a line `*N LINE` means N copies of LINE, in
// which `@` is the number of the copy, from 1, and `*N WORD` at the end of a line N copies of WORD.
use std::alloc::{AllocError, Global};

// Splits what is copied from the number of copies.
fn copies(copied: &str) -> (u32, &str) {
    let (count, rest) = copied.split_once(' ').unwrap_or(("0", ""));
    (count.parse().unwrap_or(0), rest)
}

fn push_line(text: &mut String, line: &str) -> Result<(), AllocError> {
    let (words, copied) = line.split_once(" *").unwrap_or((line, ""));
    let (count, word) = copies(copied);
    text.push_str(words)?;
    for _ in 0..count {
        text.push(' ')?;
        text.push_str(word)?;
    }
    text.push('\n')
}

// Adds a line in which each `@` is a number.
fn push_numbered(
    alloc: Global,
    text: &mut String,
    line: &str,
    number: u64,
) -> Result<(), AllocError> {
    let number = format!(in alloc; "{number}")?;
    for (at, part) in line.split('@').enumerate() {
        if at > 0 {
            text.push_str(number.as_str())?;
        }
        text.push_str(part)?;
    }
    text.push('\n')
}

fn push_lines(alloc: Global, text: &mut String, line: &str) -> Result<(), AllocError> {
    let Some(copied) = line.strip_prefix('*') else {
        return push_line(text, line);
    };
    let (count, line) = copies(copied);
    for before in 0..count {
        push_numbered(alloc, text, line, u64::from(before) + 1)?;
    }
    Ok(())
}

/// Makes the text that the lines of a case mean.
pub(crate) fn list_text(alloc: Global, lines: &str) -> Result<String, AllocError> {
    let mut text = String::new(alloc);
    for line in lines.lines() {
        push_lines(alloc, &mut text, line)?;
    }
    Ok(text)
}
