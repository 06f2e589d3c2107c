// A stream that prints what it gets.
ghost use Rattle.std.specs.Prelude.{◌≡◌, ◌≤◌, None};

use crate::case::Case;
use out_stream::{Chunk, OutputStream};
use std::alloc::Global;
use std::str;

/// A part longer than this is printed as its length and its hash.
pub(crate) const SHOWN: u64 = 1_000;

/// The length of a part so far, and its FNV-1a hash of 64 bits.
#[derive(Clone, Copy)]
pub(crate) struct Digest {
    pub(crate) length: u64,
    pub(crate) hash: u64,
}

/// The digest of no bytes.
pub(crate) const NO_BYTES: Digest = Digest {
    length: 0,
    hash: 0xcbf2_9ce4_8422_2325,
};

impl Digest {
    /// Adds these bytes.
    pub(crate) fn add(&mut self, chunk: &[u8]) {
        for byte in chunk {
            self.length = self.length.wrapping_add(1);
            self.hash = (self.hash ^ u64::from(*byte)).wrapping_mul(0x0100_0000_01b3);
        }
    }
}

/// Prints each part on a line of its own as it comes. Of a long part it prints the first bytes, and
/// then its length and its hash. It fails or aborts at one chunk, by its number from 1.
#[derive(Drop)]
pub(crate) struct Tape<R: Print + Drop> {
    rt: R,
    chunk: u32,
    fails: u64,
    aborts: u64,
    calls: u64,
    failed: u64,
    aborted: u64,
    digest: Digest,
    ghost low: { 1 ≤ chunk },
    ghost high: { chunk ≤ 65536 },
}

impl<R: Print + Drop> Tape<R> {
    /// Makes the stream of a case.
    pub(crate) fn new(rt: R, case: &Case<'_>) -> Tape<R> {
        Tape {
            rt,
            chunk: case.chunk.clamp(1, 65_536),
            fails: case.chunk_fails,
            aborts: case.chunk_aborts,
            calls: 0,
            failed: 0,
            aborted: 0,
            digest: NO_BYTES,
        }
    }

    fn print_chunk(&self, chunk: &[u8]) {
        if self.digest.length <= SHOWN {
            let _ = print!(self.rt; "{}", str::from_utf8(chunk).unwrap_or("?"));
        }
    }

    fn print_end(&self) {
        let Digest { length, hash } = self.digest;
        if length > SHOWN {
            let _ = print!(self.rt; ".. {length} bytes, {hash:016x}");
        }
        let _ = println!(self.rt; "");
    }
}

impl<R: Print + Drop> OutputStream for Tape<R> {
    ghost parts = { λ _. None };

    ghost offers = { λ _. None };

    ghost aborts = { λ t. t.aborted };

    ghost stream_faults = { λ t. t.failed };

    ghost chunk_bytes = { λ t. t.chunk };

    fn chunk_size(&self) -> u32 {
        self.chunk
    }

    fn write_chunk(&mut self, _alloc: Global, chunk: &[u8]) -> Chunk {
        self.calls = self.calls.saturating_add(1);
        if self.calls == self.fails {
            self.failed = self.failed.saturating_add(1);
            return Chunk::Failed;
        }
        self.digest.add(chunk);
        self.print_chunk(chunk);
        if self.calls == self.aborts {
            self.aborted = self.aborted.saturating_add(1);
            return Chunk::Abort;
        }
        Chunk::Continue
    }

    fn end_of_stream(&mut self) {
        self.print_end();
        self.digest = NO_BYTES;
    }
}
