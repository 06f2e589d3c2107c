// The depot and the sink that the program itself uses.
ghost use Rattle.std.specs.Prelude.{◌≡◌, ◌<◌, ◌≤◌, ◌↔◌, IsTrue, None, IfOk, IsErrOf, IfSome, length, vec_len};
ghost use Rattle.std.specs.IoError.{error_kind};
ghost use Rattle.prof_outer.specs.FileName.{IsFileName};

use crate::depot::{Depot, GetFault, PutFault};
use crate::draft::put_by_draft;
use crate::sink::{Sink, SinkFault};
use prof_base::Text;
use std::alloc::Global;
use std::io::{ErrorKind, Read, Write};
use std::rt::Files;
use std::{fs, io};

/// The greatest file that a [`Folder`] reads or writes, in bytes.
pub const MAX_FILE: usize = 268_435_456;

/// The files of the folder in which the program runs. A file of more than [`MAX_FILE`] bytes is a
/// read fault and a write fault. A file is missing where the system finds none with the name.
///
/// A file is put in two steps: its bytes are written to a new file, the draft, which then takes the
/// name. So a name never has a part of the bytes, and a file that was there stays whole where a
/// step fails. A draft is named `cpuprof-draft-N` and a byte 0x7F, with the first N below 100 that
/// is free; where none is free, as after programs that were cut off, that is a write fault. So is a
/// name that is empty, `.` or `..`, or has a slash: only files of the folder itself are put.
#[derive(Drop)]
pub struct Folder<R: Files + Drop> {
    rt: R,
    missed: u64,
    failed: u64,
    failed_puts: u64,
}

impl<R: Files + Drop> Folder<R> {
    /// Makes a depot of the current folder. It opens nothing and allocates nothing.
    pub fn new(rt: R) -> Folder<R>
        ensures held { ⟦<Folder<R> as Depot>⟧.held result ≡ None }
        ensures misses { ⟦<Folder<R> as Depot>⟧.misses result ≡ 0 }
        ensures read_faults { ⟦<Folder<R> as Depot>⟧.read_faults result ≡ 0 }
        ensures write_faults { ⟦<Folder<R> as Depot>⟧.write_faults result ≡ 0 }
    {
        Folder {
            rt,
            missed: 0,
            failed: 0,
            failed_puts: 0,
        }
    }
}

// Returns the fault that an error of the system means for a file.
fn fault_of(error: &io::Error) -> GetFault
    ensures missing { (result ≡ GetFault.Missing) ↔ (error_kind error.now ≡ ErrorKind.NotFound) }
    ensures memory { (result ≡ GetFault.Memory) ↔ (error_kind error.now ≡ ErrorKind.OutOfMemory) }
{
    match error.kind() {
        ErrorKind::NotFound => GetFault::Missing,
        ErrorKind::OutOfMemory => GetFault::Memory,
        _ => GetFault::Failed,
    }
}

// Returns whether a file may have these bytes.
fn is_within_limit(bytes: &[u8]) -> bool
    ensures { IsTrue result ↔ (length bytes.now ≤ MAX_FILE) }
{
    bytes.len() <= MAX_FILE
}

// Reads all that the reader gives. It asks for one byte past the limit, since a device may claim to
// be empty and give bytes without end.
fn read_whole<S: Read + Drop>(alloc: Global, source: S) -> Result<Vec<u8>, GetFault>
    ensures whole { IfOk result (λ bytes. IfSome (S.remaining source) (λ all. bytes.items ≡ all)) }
    ensures within { IfOk result (λ bytes. vec_len bytes ≤ MAX_FILE) }
{
    let mut bytes = Vec::new(alloc);
    match source.take(MAX_FILE as u64 + 1).read_to_end(&mut bytes) {
        Ok(_) if is_within_limit(&bytes) => Ok(bytes),
        Ok(_) => Err(GetFault::Failed),
        Err(error) => Err(fault_of(&error)),
    }
}

fn read_file<R: Files>(rt: &R, alloc: Global, path: &str) -> Result<Vec<u8>, GetFault>
    ensures { IfOk result (λ bytes. vec_len bytes ≤ MAX_FILE) }
{
    match fs::open(rt, path) {
        Ok(file) => read_whole(alloc, file),
        Err(error) => Err(fault_of(&error)),
    }
}

// Returns whether the name is one of a file in the folder itself.
fn is_file_name(name: &Text) -> bool
    ensures { IsTrue result ↔ IsFileName name.now }
{
    match name.bytes() {
        b"" | b"." | b".." => false,
        bytes => !bytes.contains(&b'/'),
    }
}

fn put_file<R: Files>(rt: &R, alloc: Global, name: &Text, bytes: &[u8]) -> Result<(), PutFault>
    ensures no_name { ¬ IsFileName name.now → IsErrOf result PutFault.Failed }
    ensures too_long { MAX_FILE < length bytes.now → IsErrOf result PutFault.Failed }
{
    if !is_file_name(name) || !is_within_limit(bytes) {
        return Err(PutFault::Failed);
    }
    put_by_draft(rt, alloc, name.as_str(), bytes)
}

impl<R: Files + Drop> Depot for Folder<R> {
    ghost held = { λ _. None };

    ghost misses = { λ d. d.missed };

    ghost read_faults = { λ d. d.failed };

    ghost write_faults = { λ d. d.failed_puts };

    fn get(&mut self, alloc: Global, name: &Text) -> Result<Vec<u8>, GetFault> {
        let read = read_file(&self.rt, alloc, name.as_str());
        match read {
            Err(GetFault::Missing) => self.missed = self.missed.saturating_add(1),
            Err(GetFault::Failed) => self.failed = self.failed.saturating_add(1),
            _ => {}
        }
        read
    }

    fn put(&mut self, alloc: Global, name: &Text, bytes: &[u8]) -> Result<(), PutFault> {
        let put = put_file(&self.rt, alloc, name, bytes);
        if let Err(PutFault::Failed) = put {
            self.failed_puts = self.failed_puts.saturating_add(1);
        }
        put
    }
}

/// A sink over a writer, such as standard output. Each write is flushed.
#[derive(Drop)]
pub struct WriterSink<W: Write + Drop> {
    writer: W,
    failed: u64,
}

impl<W: Write + Drop> WriterSink<W> {
    /// Makes a sink over this writer. It writes nothing and allocates nothing.
    pub fn new(writer: W) -> WriterSink<W>
        ensures written { ⟦<WriterSink<W> as Sink>⟧.written result ≡ None }
        ensures faults { ⟦<WriterSink<W> as Sink>⟧.faults result ≡ 0 }
    {
        WriterSink { writer, failed: 0 }
    }
}

pub(crate) fn write_and_flush<W: Write>(writer: &mut W, bytes: &[u8]) -> io::Result<()> {
    writer.write_all(bytes)?;
    writer.flush()
}

impl<W: Write + Drop> Sink for WriterSink<W> {
    ghost written = { λ _. None };

    ghost faults = { λ s. s.failed };

    fn write_all(&mut self, _alloc: Global, bytes: &[u8]) -> Result<(), SinkFault> {
        match write_and_flush(&mut self.writer, bytes) {
            Ok(()) => Ok(()),
            Err(_) => {
                self.failed = self.failed.saturating_add(1);
                Err(SinkFault::Failed)
            }
        }
    }
}
