//! The texts of cases, in the short form in which files of cases have them: a line `>LINE` stands for LINE
//! with no line end, and a line `*N LINE` for N copies of LINE, in which `@` is the number of the copy, from
//! 1, and `|` stands for a line end.
#![tactic(auto)]

use std::alloc::{AllocError, Global};

// Adds a line in which each `@` is the number of the copy.
fn push_numbered(text: &mut String, line: &str, number: &str) -> Result<(), AllocError> {
    for (at, part) in line.split('@').enumerate() {
        if at > 0 {
            text.push_str(number)?;
        }
        text.push_str(part)?;
    }
    text.push('\n')
}

// Adds the copies that a number and the lines of one copy, with a space between, mean.
fn push_copies(alloc: Global, text: &mut String, copies: &str) -> Result<(), AllocError> {
    let (count, lines) = copies.split_once(' ').unwrap_or(("0", ""));
    let count: u32 = count.parse().unwrap_or(0);
    for before in 0..count {
        let number = format!(in alloc; "{}", u64::from(before) + 1)?;
        for line in lines.split('|') {
            push_numbered(text, line, number.as_str())?;
        }
    }
    Ok(())
}

fn push_line(alloc: Global, text: &mut String, line: &str) -> Result<(), AllocError> {
    if let Some(copies) = line.strip_prefix('*') {
        push_copies(alloc, text, copies)
    } else if let Some(open) = line.strip_prefix('>') {
        text.push_str(open)
    } else {
        text.push_str(line)?;
        text.push('\n')
    }
}

/// Makes the text that the lines of a case mean. Its first line is its title, and means nothing.
pub fn text_of(alloc: Global, case: &str) -> Result<String, AllocError> {
    let mut text = String::new(alloc);
    for line in case.split('\n').skip(1) {
        push_line(alloc, &mut text, line)?;
    }
    Ok(text)
}
