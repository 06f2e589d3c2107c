// The trait of the streams.
ghost use Rattle.std.specs.Prelude.{◌≡◌, ◌<◌, ◌≤◌, ℕ, List, Option, length, OnOk, OnErr, IfErr, IsErrOf, IfSome};
ghost use Rattle.prof_base.specs.Causes.{Rose};
ghost use Rattle.out_stream.specs.Cut.{cut};
ghost use Rattle.out_stream.specs.Offers.{offered, went_on, ended};
ghost use Rattle.out_stream.specs.Parts.{Parts, grown, closed, GrowsByPrefix};
ghost use Rattle.out_stream.specs.Stopped.{Stopped};

use std::alloc::Global;

/// What a stream answers to a chunk.
#[derive(Clone, Copy, Debug, PartialEq, Eq)]
pub enum Chunk {
    /// The chunk was taken, and the next may come.
    Continue,
    /// The chunk was taken, and no more is wanted.
    Abort,
    /// The chunk was not taken: the stream failed.
    Failed,
    /// The chunk was not taken: out of memory.
    Memory,
}

/// What a stream was offered.
#[derive(Clone, Copy, Debug, PartialEq, Eq)]
pub enum Offer {
    /// A chunk of `count` bytes, and its answer.
    Bytes { count: usize, answer: Chunk },
    /// The end of the part.
    End,
}

/// Why bytes were not delivered as one part.
#[derive(Clone, Copy, Debug, PartialEq, Eq)]
pub enum Undelivered {
    /// The stream aborted.
    Aborted,
    /// The stream failed.
    Failed,
    /// Out of memory.
    Memory,
}

/// Takes parts one after another, each in chunks. A part begins with its first chunk: a stream that
/// got nothing has no unfinished part.
pub trait OutputStream: Drop {
    ghost use Rattle.out_stream.specs.declared.stream.Offer.{Offer};

    /// The closed parts and the unfinished one, where they can be observed.
    ghost parts: { Self → Option Parts };

    /// What the stream was offered, where it can be observed. A chunk that it answered with Memory
    /// leaves no trace.
    ghost offers: { Self → Option (List Offer) };

    /// How often the stream has aborted.
    ghost aborts: { Self → ℕ };

    /// How often the stream has failed.
    ghost stream_faults: { Self → ℕ };

    /// The size in bytes of a chunk that is not the last of its part.
    ghost chunk_bytes: { Self → ℕ };

    /// Returns the size in bytes of a chunk that is not the last of its part. It never changes.
    fn chunk_size(&self) -> u32
        ensures size { result ≡ chunk_bytes self.now }
        ensures low { 1 ≤ result }
        ensures high { result ≤ 65536 };

    /// Takes the next chunk of the unfinished part, 1 to [`OutputStream::chunk_size`] bytes.
    fn write_chunk(&mut self, alloc: Global, chunk: &[u8]) -> Chunk
        requires some { 1 ≤ length chunk.now }
        requires fits { length chunk.now ≤ chunk_bytes self.old }
        ensures went_on { result ≡ Chunk.Continue → parts self.new ≡ grown (parts self.old) chunk.now }
        ensures aborted { result ≡ Chunk.Abort → parts self.new ≡ grown (parts self.old) chunk.now }
        ensures failed { result ≡ Chunk.Failed → parts self.new ≡ parts self.old }
        ensures memory { result ≡ Chunk.Memory → parts self.new ≡ parts self.old }
        ensures offers { offers self.new ≡ offered (offers self.old) (length chunk.now) result }

        // Each abort and each fault is counted.
        ensures abort_cause { result ≡ Chunk.Abort → Rose (aborts self.old) (aborts self.new) }
        ensures fault_cause { result ≡ Chunk.Failed → Rose (stream_faults self.old) (stream_faults self.new) }

        // A count changes only at its own answer.
        ensures no_abort { result ≡ Chunk.Continue → aborts self.new ≡ aborts self.old }
        ensures no_fault { result ≡ Chunk.Continue → stream_faults self.new ≡ stream_faults self.old }
        ensures abort_only { result ≡ Chunk.Abort → stream_faults self.new ≡ stream_faults self.old }
        ensures fault_only { result ≡ Chunk.Failed → aborts self.new ≡ aborts self.old }
        ensures memory_aborts { result ≡ Chunk.Memory → aborts self.new ≡ aborts self.old }
        ensures memory_faults { result ≡ Chunk.Memory → stream_faults self.new ≡ stream_faults self.old }

        // The size stays the same, and no count falls.
        ensures size { chunk_bytes self.new ≡ chunk_bytes self.old }
        ensures aborts { aborts self.old ≤ aborts self.new }
        ensures faults { stream_faults self.old ≤ stream_faults self.new };

    /// Closes the unfinished part. It allocates nothing.
    fn end_of_stream(&mut self)
        requires { IfSome (parts self.old) (λ p. 0 < length p.1) }
        ensures parts { parts self.new ≡ closed (parts self.old) }
        ensures offers { offers self.new ≡ ended (offers self.old) }
        ensures size { chunk_bytes self.new ≡ chunk_bytes self.old }
        ensures aborts { aborts self.new ≡ aborts self.old }
        ensures faults { stream_faults self.new ≡ stream_faults self.old };

    /// Delivers the bytes as one part, which is closed after the last of them. They are cut into
    /// chunks of the stream's size, of which the last may be shorter. Nothing more is called after
    /// the first answer that is not Continue. Implementations do not override this.
    fn deliver_part(&mut self, alloc: Global, bytes: &[u8]) -> Result<(), Undelivered>
        requires { 0 < length bytes.now }
        ensures ok { OnOk result (parts self.new ≡ closed (grown (parts self.old) bytes.now)) }
        ensures err { OnErr result (GrowsByPrefix (parts self.old) (parts self.new) bytes.now) }

        // It offers the chunks of the cut, each once and in order, and then the end, or stops.
        ensures offers { OnOk result (offers self.new ≡
            ended (went_on (offers self.old) (cut (chunk_bytes self.old) (length bytes.now)))) }
        ensures stopped { IfErr result (λ why.
            Stopped why (cut (chunk_bytes self.old) (length bytes.now)) bytes.now
            (parts self.old) (parts self.new) (offers self.old) (offers self.new)) }

        // Each abort and each fault is counted.
        ensures aborted { IsErrOf result Undelivered.Aborted → Rose (aborts self.old) (aborts self.new) }
        ensures failed { IsErrOf result Undelivered.Failed → Rose (stream_faults self.old) (stream_faults self.new) }

        // A count changes only at its own answer.
        ensures no_abort { OnOk result (aborts self.new ≡ aborts self.old) }
        ensures no_fault { OnOk result (stream_faults self.new ≡ stream_faults self.old) }
        ensures aborted_only { IsErrOf result Undelivered.Aborted → stream_faults self.new ≡ stream_faults self.old }
        ensures failed_only { IsErrOf result Undelivered.Failed → aborts self.new ≡ aborts self.old }
        ensures memory_aborts { IsErrOf result Undelivered.Memory → aborts self.new ≡ aborts self.old }
        ensures memory_faults { IsErrOf result Undelivered.Memory → stream_faults self.new ≡ stream_faults self.old }

        // The size stays the same, and no count falls.
        ensures size { chunk_bytes self.new ≡ chunk_bytes self.old }
        ensures aborts { aborts self.old ≤ aborts self.new }
        ensures faults { stream_faults self.old ≤ stream_faults self.new }
    {
        let size = self.chunk_size() as usize;
        let mut rest = bytes;
        while !rest.is_empty() {
            let (chunk, after) = rest.split_at(size.min(rest.len()));
            match self.write_chunk(alloc, chunk) {
                Chunk::Continue => {}
                Chunk::Abort => return Err(Undelivered::Aborted),
                Chunk::Failed => return Err(Undelivered::Failed),
                Chunk::Memory => return Err(Undelivered::Memory),
            }
            rest = after;
        }
        self.end_of_stream();
        Ok(())
    }
}
