// The files of a stream that writes them: two parts, with none before or after them.
use crate::bounds::{Delivered, deliver_box, deliver_boxed};
use crate::input::delivered;
use crate::streams::{answer_word, part_line};
use out_stream::OutputStream;
use std::alloc::Global;
use std::io::Read;
use std::rt::Files;
use std::{fs, io};

// Prints the file of a part, and removes it.
fn file_line<R: Files>(rt: &R, alloc: Global, name: &str) -> Result<String, io::Error> {
    let Ok(mut file) = fs::open(rt, name) else {
        return Ok(format!(in alloc; "{name} is not there\n")?);
    };
    let mut bytes = Vec::new(alloc);
    file.read_to_end(&mut bytes)?;
    fs::remove_file(rt, name)?;
    part_line(alloc, name, &bytes)
}

fn file_lines<R: Files>(rt: &R, alloc: Global, number: u8) -> Result<String, io::Error> {
    let mut text = String::new(alloc);
    for part in [0, 1, 2, 3] {
        let name = format!(in alloc; "cpuprof-{number}-{part}.cpuprofile")?;
        text.push_str(&file_line(rt, alloc, name.as_str())?)?;
    }
    Ok(text)
}

pub(crate) fn answers<R: Files>(
    rt: &R,
    alloc: Global,
    mut stream: Box<dyn OutputStream + Send>,
    number: u8,
    lines: &str,
) -> Result<String, io::Error> {
    let mut text = String::new(alloc);
    for (at, line) in lines.lines().enumerate() {
        let bytes = delivered(alloc, line)?;
        if !bytes.is_empty() {
            let done = if at % 2 == 0 {
                deliver_boxed(alloc, stream, &bytes)
            } else {
                deliver_box(alloc, stream, &bytes)
            };
            text.push_str(answer_word(done.result))?;
            stream = done.stream;
        }
    }
    text.push_str(&file_lines(rt, alloc, number)?)?;
    Ok(text)
}
