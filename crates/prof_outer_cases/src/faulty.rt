// A file system on which one step of each put fails.
use std::alloc::Allocator;
use std::fs::{Metadata, OpenFile, OpenOptions};
use std::io;
use std::io::{ErrorKind, Read, Seek, SeekFrom, Write};
use std::rt::Files;

/// A step of a put.
#[derive(Clone, Copy, Debug, PartialEq, Eq)]
pub(crate) enum Step {
    /// A new file is made.
    Create,
    /// Bytes are written to it.
    Write,
    /// The same, and what it lacks is memory.
    Memory,
    /// It is brought to the disk.
    Sync,
    /// It is given its name.
    Rename,
}

/// A file system on which this step fails, and no other.
#[derive(Drop)]
pub(crate) struct Faulty<R: Files + Drop> {
    rt: R,
    step: Step,
}

impl<R: Files + Drop> Faulty<R> {
    pub(crate) fn new(rt: R, step: Step) -> Faulty<R> {
        Faulty { rt, step }
    }

    fn refuse(&self, step: Step) -> io::Result<()> {
        if self.step == step {
            return Err(io::Error::from(ErrorKind::PermissionDenied));
        }
        Ok(())
    }
}

/// A file of which one byte can be written where writes fail.
#[derive(Drop)]
pub(crate) struct FaultyFile<F: Drop> {
    file: F,
    step: Step,
    begun: bool,
}

impl<F: Read + Drop> Read for FaultyFile<F> {
    fn read(&mut self, buf: &mut [u8]) -> io::Result<usize> {
        self.file.read(buf)
    }
}

impl<F: Write + Drop> Write for FaultyFile<F> {
    fn write(&mut self, buf: &[u8]) -> io::Result<usize> {
        let kind = match self.step {
            Step::Write => ErrorKind::StorageFull,
            Step::Memory => ErrorKind::OutOfMemory,
            _ => return self.file.write(buf),
        };
        if self.begun || buf.is_empty() {
            return Err(io::Error::from(kind));
        }
        self.begun = true;
        self.file.write(&buf[..1])
    }

    fn flush(&mut self) -> io::Result<()> {
        self.file.flush()
    }
}

impl<F: Seek + Drop> Seek for FaultyFile<F> {
    fn seek(&mut self, to: SeekFrom) -> io::Result<u64> {
        self.file.seek(to)
    }
}

impl<F: OpenFile + Drop> OpenFile for FaultyFile<F> {
    fn metadata(&self) -> io::Result<Metadata> {
        self.file.metadata()
    }

    fn set_len(&self, size: u64) -> io::Result<()> {
        self.file.set_len(size)
    }

    fn sync_all(&self) -> io::Result<()> {
        if self.step == Step::Sync {
            return Err(io::Error::from(ErrorKind::StorageFull));
        }
        self.file.sync_all()
    }

    fn sync_data(&self) -> io::Result<()> {
        self.file.sync_data()
    }
}

impl<R: Files + Drop> Files for Faulty<R> {
    type File = FaultyFile<R::File>;

    type Dir = R::Dir;

    fn open_file(&self, how: &OpenOptions, path: &str) -> io::Result<FaultyFile<R::File>> {
        if how.asks_create() || how.asks_create_new() {
            self.refuse(Step::Create)?;
        }
        Ok(FaultyFile {
            file: self.rt.open_file(how, path)?,
            step: self.step,
            begun: false,
        })
    }

    fn open_dir(&self, path: &str) -> io::Result<R::Dir> {
        self.rt.open_dir(path)
    }

    fn metadata(&self, path: &str) -> io::Result<Metadata> {
        self.rt.metadata(path)
    }

    fn symlink_metadata(&self, path: &str) -> io::Result<Metadata> {
        self.rt.symlink_metadata(path)
    }

    fn copy(&self, from: &str, to: &str) -> io::Result<u64> {
        self.rt.copy(from, to)
    }

    fn rename(&self, from: &str, to: &str) -> io::Result<()> {
        self.refuse(Step::Rename)?;
        self.rt.rename(from, to)
    }

    fn remove_file(&self, path: &str) -> io::Result<()> {
        self.rt.remove_file(path)
    }

    fn create_dir(&self, path: &str) -> io::Result<()> {
        self.rt.create_dir(path)
    }

    fn remove_dir(&self, path: &str) -> io::Result<()> {
        self.rt.remove_dir(path)
    }

    fn remove_dir_all<B: Allocator>(&self, alloc: B, path: &str) -> io::Result<()> {
        self.rt.remove_dir_all(alloc, path)
    }
}
