// What sinks answer to the lines `write BYTES`, and the bytes that they have at the end.
use crate::bounds::write_twice_surely;
use crate::input::failing;
use prof_outer::{MemorySink, Sink, SinkFault, SureSink, WriterSink};
use std::alloc::Global;
use std::io::ErrorKind;
use std::{io, str};

fn answer_word(answer: Result<(), SinkFault>) -> &'static str {
    match answer {
        Ok(()) => "ok\n",
        Err(SinkFault::Failed) => "failed\n",
        Err(SinkFault::Memory) => "out of memory\n",
    }
}

fn written_to<O: Sink>(alloc: Global, sink: &mut O, lines: &str) -> Result<String, io::Error> {
    let mut text = String::new(alloc);
    for line in lines.lines() {
        if let Some(bytes) = line.strip_prefix("write ") {
            text.push_str(answer_word(sink.write_all(alloc, bytes.as_bytes())))?;
        }
    }
    Ok(text)
}

fn add_line(text: &mut String, word: &str, bytes: &[u8]) -> Result<(), io::Error> {
    text.push_str(word)?;
    text.push_str(" [")?;
    text.push_str(str::from_utf8(bytes).unwrap_or("no text"))?;
    text.push_str("]\n")?;
    Ok(())
}

pub(crate) fn to_memory_sink(alloc: Global, lines: &str) -> Result<String, io::Error> {
    let mut sink = MemorySink::new(alloc, failing(alloc, lines)?);
    let mut text = written_to(alloc, &mut sink, lines)?;
    add_line(&mut text, "bytes", sink.bytes())?;
    Ok(text)
}

// Writes the bytes of each line twice.
pub(crate) fn to_sure_sink(alloc: Global, lines: &str) -> Result<String, io::Error> {
    let mut sink = SureSink::new(alloc);
    let mut text = String::new(alloc);
    for line in lines.lines() {
        if let Some(bytes) = line.strip_prefix("write ") {
            let answer = write_twice_surely(alloc, &mut sink, bytes.as_bytes(), bytes.as_bytes());
            text.push_str(answer_word(answer))?;
        }
    }
    add_line(&mut text, "bytes", sink.bytes())?;
    Ok(text)
}

// A writer that has room for six bytes and hands on what it has when it is flushed.
#[derive(Drop)]
struct SixBytes {
    taken: Vec<u8>,
    flushed: usize,
}

impl io::Write for SixBytes {
    fn write(&mut self, buf: &[u8]) -> io::Result<usize> {
        let room = 6usize.saturating_sub(self.taken.len());
        let count = room.min(buf.len());
        if self.taken.extend_from_slice(&buf[..count]).is_err() {
            return Err(io::Error::from(ErrorKind::OutOfMemory));
        }
        Ok(count)
    }

    fn flush(&mut self) -> io::Result<()> {
        self.flushed = self.taken.len();
        Ok(())
    }
}

pub(crate) fn to_writer(alloc: Global, lines: &str) -> Result<String, io::Error> {
    let mut writer = SixBytes {
        taken: Vec::new(alloc),
        flushed: 0,
    };
    let mut sink = WriterSink::new(&mut writer);
    let mut text = written_to(alloc, &mut sink, lines)?;
    add_line(
        &mut text,
        "flushed",
        writer.taken.get(..writer.flushed).unwrap_or(b""),
    )?;
    Ok(text)
}
