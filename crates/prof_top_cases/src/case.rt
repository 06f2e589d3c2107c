// A case, as it is written in the file of cases: a title, settings of one line each, and after a line
// `program` the text of the file that is named, a program or an item list. In that text a line
// `*N LINE` means N copies of LINE, in which `@` is the number of the copy, from 1. The depot has that
// file, and one under the schedule's name where a setting `old` gives its bytes.
use anyhow::{Result, bail};
use prof_outer::Left;
use std::alloc::Global;

/// A call to make. A number of a failing call is 0 where no call fails.
#[derive(Drop)]
pub(crate) struct Case<'a> {
    pub(crate) title: &'a str,
    pub(crate) words: Vec<String>,
    /// The name of the file.
    pub(crate) name: &'a str,
    /// Its text.
    pub(crate) program: String,
    /// The size of the stream's chunks.
    pub(crate) chunk: u32,
    pub(crate) chunk_fails: u64,
    pub(crate) chunk_aborts: u64,
    pub(crate) read_fails: u64,
    pub(crate) put_fails: u64,
    /// What the put that fails leaves under its name.
    pub(crate) put_leaves: Left,
    /// The bytes that the depot has under the schedule's name before the call, if any.
    pub(crate) old: Option<&'a str>,
    pub(crate) out_fails: u64,
    pub(crate) err_fails: u64,
}

fn left_of(word: &str) -> Result<Left> {
    match word {
        "old" => Ok(Left::OldBytes),
        "new" => Ok(Left::NewBytes),
        "nothing" => Ok(Left::Nothing),
        _ => bail!("no word for what is left: {word}"),
    }
}

fn set<'a>(alloc: Global, case: &mut Case<'a>, line: &'a str) -> Result<()> {
    let (key, value) = line.split_once(' ').unwrap_or((line, ""));
    match key {
        "word" => case.words.push(String::from_str(alloc, value)?)?,
        "name" => case.name = value,
        "chunk" => case.chunk = value.parse()?,
        "chunk-fails" => case.chunk_fails = value.parse()?,
        "chunk-aborts" => case.chunk_aborts = value.parse()?,
        "read-fails" => case.read_fails = value.parse()?,
        "put-fails" => case.put_fails = value.parse()?,
        "put-leaves" => case.put_leaves = left_of(value)?,
        "old" => case.old = Some(value),
        "out-fails" => case.out_fails = value.parse()?,
        "err-fails" => case.err_fails = value.parse()?,
        _ => bail!("no setting of a case: {key}"),
    }
    Ok(())
}

// Adds a line as often as it says.
fn push_line(alloc: Global, program: &mut String, line: &str) -> Result<()> {
    let Some(copies) = line.strip_prefix('*') else {
        program.push_str(line)?;
        program.push_str("\n")?;
        return Ok(());
    };
    let (count, line) = copies.split_once(' ').unwrap_or(("0", ""));
    let count: u32 = count.parse()?;
    for number in 0..count {
        let number = format!(in alloc; "{}", u64::from(number) + 1)?;
        for (at, part) in line.split('@').enumerate() {
            if at > 0 {
                program.push_str(number.as_str())?;
            }
            program.push_str(part)?;
        }
        program.push_str("\n")?;
    }
    Ok(())
}

/// Reads the case that a block of the file describes.
pub(crate) fn case_of(alloc: Global, block: &str) -> Result<Case<'_>> {
    let mut case = Case {
        title: "",
        words: Vec::new(alloc),
        name: "p",
        program: String::new(alloc),
        chunk: 65_536,
        chunk_fails: 0,
        chunk_aborts: 0,
        read_fails: 0,
        put_fails: 0,
        put_leaves: Left::OldBytes,
        old: None,
        out_fails: 0,
        err_fails: 0,
    };
    let (title, rest) = block.split_once('\n').unwrap_or((block, ""));
    case.title = title;
    let (settings, program) = rest.split_once("program\n").unwrap_or((rest, ""));
    for line in settings.lines() {
        set(alloc, &mut case, line)?;
    }
    for line in program.lines() {
        push_line(alloc, &mut case.program, line)?;
    }
    Ok(case)
}
