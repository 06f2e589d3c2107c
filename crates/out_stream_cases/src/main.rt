//! Prints what streams do in each case of the file `cases`. A case begins with a line `% KIND NUMBER`,
//! with the size of chunks or the number of the stream; lines `fail CALL`, `abort CALL`,
//! `deliver BYTES` and `deliver_many COUNT` follow.
#![tactic(auto)]

mod bounds;
mod files;
mod input;
mod streams;

use out_stream::{FileStream, OutputStream};
use std::alloc::Global;
use std::{fs, io};

fn answers(alloc: Global, kind: &str, size: u32, lines: &str) -> Result<String, io::Error> {
    if size < 1 || size > 65_536 {
        return Ok(String::from_str(alloc, "no such size\n")?);
    }
    if kind == "sure" {
        streams::sure_answers(alloc, size, lines)
    } else {
        streams::answers(alloc, size, lines)
    }
}

fn main(rt: HostRuntime) -> Result<(), io::Error> {
    let alloc = rt.alloc();
    let all = fs::read_to_string(&rt, "cases")?;
    for case in all.split("% ").skip(1) {
        let Some((head, lines)) = case.split_once('\n') else {
            continue;
        };
        print!(rt; "{head}\n")?;
        if let Some(word) = head.strip_prefix("files ") {
            let number = word.parse::<u8>().unwrap_or(0);
            let stream: Box<dyn OutputStream + Send> = Box::new(
                alloc,
                FileStream::new(rt.clone()?, number),
            )?;
            let answered = files::answers(&rt, alloc, stream, number, lines)?;
            print!(rt; "{answered}")?;
        } else if let Some((kind, word)) = head.split_once(' ') {
            let size = word.parse::<u32>().unwrap_or(0);
            let answered = answers(alloc, kind, size, lines)?;
            print!(rt; "{answered}")?;
        }
    }
    Ok(())
}
