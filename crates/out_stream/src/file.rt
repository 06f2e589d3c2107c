// The stream that the program itself uses.
ghost use Rattle.std.specs.Prelude.{◌≡◌, None, IfOk, string_bytes};
ghost use Rattle.out_stream.specs.PartName.{part_name};

use crate::stream::{Chunk, OutputStream};
use std::alloc::{AllocError, Global};
use std::io::Write;
use std::rt::Files;
use std::{fs, io};

/// The size of a chunk, in bytes.
const CHUNK: u32 = 65_536;

/// Writes each part to a file of its own in the folder in which the program runs: part K of stream
/// I to `cpuprof-I-K.cpuprofile`, K from 1. It overwrites a file of that name. It creates a file
/// with the first bytes of its part, so a stream that got nothing creates none. Each chunk is
/// flushed.
#[derive(Drop)]
pub struct FileStream<R: Files + Drop> {
    rt: R,
    number: u8,
    part: u64,
    file: Option<R::File>,
    failed: u64,
}

impl<R: Files + Drop> FileStream<R> {
    /// Makes the stream with this number. It opens nothing and allocates nothing.
    pub fn new(rt: R, number: u8) -> FileStream<R>
        ensures parts { ⟦<FileStream<R> as OutputStream>⟧.parts result ≡ None }
        ensures offers { ⟦<FileStream<R> as OutputStream>⟧.offers result ≡ None }
        ensures aborts { ⟦<FileStream<R> as OutputStream>⟧.aborts result ≡ 0 }
        ensures faults { ⟦<FileStream<R> as OutputStream>⟧.stream_faults result ≡ 0 }
        ensures size { ⟦<FileStream<R> as OutputStream>⟧.chunk_bytes result ≡ 65536 }
    {
        FileStream {
            rt,
            number,
            part: 1,
            file: None,
            failed: 0,
        }
    }
}

// Returns the name of the file of this part.
fn part_name(alloc: Global, number: u8, part: u64) -> Result<String, AllocError>
    ensures { IfOk result (λ name. string_bytes name ≡ part_name number part) }
{
    format!(in alloc; "cpuprof-{number}-{part}.cpuprofile")
}

fn create_part<R: Files>(rt: &R, alloc: Global, number: u8, part: u64) -> Result<R::File, Chunk> {
    let Ok(name) = part_name(alloc, number, part) else {
        return Err(Chunk::Memory);
    };
    match fs::create(rt, name.as_str()) {
        Ok(file) => Ok(file),
        Err(_) => Err(Chunk::Failed),
    }
}

fn write_and_flush<W: Write>(writer: &mut W, bytes: &[u8]) -> io::Result<()> {
    writer.write_all(bytes)?;
    writer.flush()
}

impl<R: Files + Drop> OutputStream for FileStream<R> {
    ghost parts = { λ _. None };

    ghost offers = { λ _. None };

    ghost aborts = { λ _. 0 };

    ghost stream_faults = { λ s. s.failed };

    ghost chunk_bytes = { λ _. 65536 };

    fn chunk_size(&self) -> u32 {
        CHUNK
    }

    fn write_chunk(&mut self, alloc: Global, chunk: &[u8]) -> Chunk {
        let file = match self.file.take() {
            Some(file) => Ok(file),
            None => create_part(&self.rt, alloc, self.number, self.part),
        };
        let answer = match file {
            Ok(mut file) => {
                let written = write_and_flush(&mut file, chunk);
                self.file = Some(file);
                if written.is_ok() {
                    Chunk::Continue
                } else {
                    Chunk::Failed
                }
            }
            Err(Chunk::Memory) => Chunk::Memory,
            Err(_) => Chunk::Failed,
        };
        if answer == Chunk::Failed {
            self.failed = self.failed.saturating_add(1);
        }
        answer
    }

    fn end_of_stream(&mut self) {
        self.file = None;
        self.part = self.part.saturating_add(1);
    }
}
