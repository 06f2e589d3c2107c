// Streams in memory.
ghost use Rattle.std.specs.Prelude.{◌≡◌, ◌≤◌, [], Some, map, option_map};

use crate::held::Held;
use crate::stream::{Chunk, Offer, OutputStream};
use std::alloc::Global;

/// A stream in memory that neither fails nor aborts.
#[derive(Drop)]
pub struct SureStream {
    held: Held,
    chunk: u32,
    ghost low: { 1 ≤ chunk },
    ghost high: { chunk ≤ 65536 },
}

impl SureStream {
    /// Makes a stream with no part and with this size of chunks, in bytes. It allocates nothing.
    pub fn new(alloc: Global, chunk: u32) -> SureStream
        requires low { 1 ≤ chunk }
        requires high { chunk ≤ 65536 }
        ensures parts { ⟦<SureStream as OutputStream>⟧.parts result ≡ Some ([], []) }
        ensures offers { ⟦<SureStream as OutputStream>⟧.offers result ≡ Some [] }
        ensures aborts { ⟦<SureStream as OutputStream>⟧.aborts result ≡ 0 }
        ensures faults { ⟦<SureStream as OutputStream>⟧.stream_faults result ≡ 0 }
        ensures size { ⟦<SureStream as OutputStream>⟧.chunk_bytes result ≡ chunk }
    {
        SureStream {
            held: Held::new(alloc),
            chunk,
        }
    }

    /// Returns the closed parts in order.
    pub fn closed_parts(&self) -> &[Vec<u8>]
        ensures { option_map (λ p. p.0) (⟦<SureStream as OutputStream>⟧.parts self.now) ≡ Some (map (λ part. part.items) result.now) }
    {
        self.held.closed_parts()
    }

    /// Returns the bytes of the unfinished part.
    pub fn unfinished_part(&self) -> &[u8]
        ensures { option_map (λ p. p.1) (⟦<SureStream as OutputStream>⟧.parts self.now) ≡ Some result.now }
    {
        self.held.unfinished_part()
    }

    /// Returns what the stream was offered, in order.
    pub fn offers(&self) -> &[Offer]
        ensures { ⟦<SureStream as OutputStream>⟧.offers self.now ≡ Some result.now }
    {
        self.held.offers()
    }
}

impl OutputStream for SureStream {
    ghost parts = { λ s. Some (map (λ part. part.items) s.held.closed.items, s.held.unfinished.items) };

    ghost offers = { λ s. Some s.held.offers.items };

    ghost aborts = { λ _. 0 };

    ghost stream_faults = { λ _. 0 };

    ghost chunk_bytes = { λ s. s.chunk };

    fn chunk_size(&self) -> u32 {
        self.chunk
    }

    fn write_chunk(&mut self, _alloc: Global, chunk: &[u8]) -> Chunk {
        match self.held.take(chunk, Chunk::Continue) {
            Ok(()) => Chunk::Continue,
            Err(_) => Chunk::Memory,
        }
    }

    fn end_of_stream(&mut self) {
        self.held.close();
    }
}

/// A stream in memory that fails or aborts at chosen calls.
#[derive(Drop)]
pub struct MemoryStream {
    held: Held,
    chunk: u32,
    failing: Vec<u64>,
    aborting: Vec<u64>,
    calls: u64,
    failed: u64,
    aborted: u64,
    ghost low: { 1 ≤ chunk },
    ghost high: { chunk ≤ 65536 },
}

impl MemoryStream {
    /// Makes a stream with no part and with this size of chunks, in bytes. The calls of
    /// `write_chunk` whose numbers are in `failing` fail, and of the others those in `aborting`
    /// abort; the first call has number 1, and a call that runs out of memory has none. It
    /// allocates nothing.
    pub fn new(alloc: Global, chunk: u32, failing: Vec<u64>, aborting: Vec<u64>) -> MemoryStream
        requires low { 1 ≤ chunk }
        requires high { chunk ≤ 65536 }
        ensures parts { ⟦<MemoryStream as OutputStream>⟧.parts result ≡ Some ([], []) }
        ensures offers { ⟦<MemoryStream as OutputStream>⟧.offers result ≡ Some [] }
        ensures aborts { ⟦<MemoryStream as OutputStream>⟧.aborts result ≡ 0 }
        ensures faults { ⟦<MemoryStream as OutputStream>⟧.stream_faults result ≡ 0 }
        ensures size { ⟦<MemoryStream as OutputStream>⟧.chunk_bytes result ≡ chunk }
    {
        MemoryStream {
            held: Held::new(alloc),
            chunk,
            failing,
            aborting,
            calls: 0,
            failed: 0,
            aborted: 0,
        }
    }

    /// Returns the closed parts in order.
    pub fn closed_parts(&self) -> &[Vec<u8>]
        ensures { option_map (λ p. p.0) (⟦<MemoryStream as OutputStream>⟧.parts self.now) ≡ Some (map (λ part. part.items) result.now) }
    {
        self.held.closed_parts()
    }

    /// Returns the bytes of the unfinished part.
    pub fn unfinished_part(&self) -> &[u8]
        ensures { option_map (λ p. p.1) (⟦<MemoryStream as OutputStream>⟧.parts self.now) ≡ Some result.now }
    {
        self.held.unfinished_part()
    }

    /// Returns what the stream was offered, in order.
    pub fn offers(&self) -> &[Offer]
        ensures { ⟦<MemoryStream as OutputStream>⟧.offers self.now ≡ Some result.now }
    {
        self.held.offers()
    }
}

impl OutputStream for MemoryStream {
    ghost parts = { λ s. Some (map (λ part. part.items) s.held.closed.items, s.held.unfinished.items) };

    ghost offers = { λ s. Some s.held.offers.items };

    ghost aborts = { λ s. s.aborted };

    ghost stream_faults = { λ s. s.failed };

    ghost chunk_bytes = { λ s. s.chunk };

    fn chunk_size(&self) -> u32 {
        self.chunk
    }

    fn write_chunk(&mut self, _alloc: Global, chunk: &[u8]) -> Chunk {
        let call = self.calls.saturating_add(1);
        if self.failing.contains(&call) {
            if self.held.refuse(chunk.len(), Chunk::Failed).is_err() {
                return Chunk::Memory;
            }
            self.calls = call;
            self.failed = self.failed.saturating_add(1);
            return Chunk::Failed;
        }
        if self.aborting.contains(&call) {
            if self.held.take(chunk, Chunk::Abort).is_err() {
                return Chunk::Memory;
            }
            self.calls = call;
            self.aborted = self.aborted.saturating_add(1);
            return Chunk::Abort;
        }
        if self.held.take(chunk, Chunk::Continue).is_err() {
            return Chunk::Memory;
        }
        self.calls = call;
        Chunk::Continue
    }

    fn end_of_stream(&mut self) {
        self.held.close();
    }
}
