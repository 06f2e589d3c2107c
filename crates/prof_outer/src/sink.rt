// A sink of bytes.
ghost use Rattle.std.specs.Prelude.{◌≡◌, ◌≤◌, List, [], ℕ, Option, Some, OnOk, IsErrOf};
ghost use Rattle.prof_base.specs.Causes.{Rose};
ghost use Rattle.prof_outer.specs.Appends.{AppendsWhole, AppendsPart};

use std::alloc::Global;

/// Why bytes were not written.
#[derive(Clone, Copy, Debug, PartialEq, Eq)]
pub enum SinkFault {
    /// The write failed, perhaps after some of the bytes.
    Failed,
    /// Out of memory; nothing was written.
    Memory,
}

/// Takes bytes in order.
pub trait Sink: Drop {
    /// The bytes so far, where they can be observed.
    ghost written: { Self → Option (List ℕ) };

    /// How often a write failed.
    ghost faults: { Self → ℕ };

    /// Appends the bytes.
    fn write_all(&mut self, alloc: Global, bytes: &[u8]) -> Result<(), SinkFault>
        ensures ok { OnOk result (AppendsWhole (written self.old) (written self.new) bytes.now) }
        ensures part { IsErrOf result SinkFault.Failed → AppendsPart (written self.old) (written self.new) bytes.now }
        ensures memory { IsErrOf result SinkFault.Memory → written self.new ≡ written self.old }

        // Each fault is counted. The count changes at nothing else and never falls.
        ensures failed { IsErrOf result SinkFault.Failed → Rose (faults self.old) (faults self.new) }
        ensures no_fault { OnOk result (faults self.new ≡ faults self.old) }
        ensures memory_faults { IsErrOf result SinkFault.Memory → faults self.new ≡ faults self.old }
        ensures faults { faults self.old ≤ faults self.new };
}

/// Bytes in memory, whose writes never fail.
#[derive(Debug, Drop)]
pub struct SureSink {
    bytes: Vec<u8>,
}

impl SureSink {
    /// Makes a sink with no bytes. It allocates nothing.
    pub fn new(alloc: Global) -> SureSink
        ensures written { ⟦<SureSink as Sink>⟧.written result ≡ Some [] }
        ensures faults { ⟦<SureSink as Sink>⟧.faults result ≡ 0 }
    {
        SureSink {
            bytes: Vec::new(alloc),
        }
    }

    /// Returns the bytes so far.
    pub fn bytes(&self) -> &[u8]
        ensures { ⟦<SureSink as Sink>⟧.written self.now ≡ Some result.now }
    {
        &self.bytes
    }
}

impl Sink for SureSink {
    ghost written = { λ s. Some s.bytes.items };

    ghost faults = { λ _. 0 };

    fn write_all(&mut self, _alloc: Global, bytes: &[u8]) -> Result<(), SinkFault> {
        match self.bytes.extend_from_slice(bytes) {
            Ok(()) => Ok(()),
            Err(_) => Err(SinkFault::Memory),
        }
    }
}

/// Bytes in memory, whose writes fail at chosen calls.
#[derive(Debug, Drop)]
pub struct MemorySink {
    sink: SureSink,
    failing: Vec<u64>,
    calls: u64,
    failed: u64,
}

impl MemorySink {
    /// Makes a sink with no bytes. The calls of `write_all` whose numbers are in `failing` fail,
    /// after the first half of their bytes if memory allows it and else after none; the first call
    /// has number 1. It allocates nothing.
    pub fn new(alloc: Global, failing: Vec<u64>) -> MemorySink
        ensures written { ⟦<MemorySink as Sink>⟧.written result ≡ Some [] }
        ensures faults { ⟦<MemorySink as Sink>⟧.faults result ≡ 0 }
    {
        MemorySink {
            sink: SureSink::new(alloc),
            failing,
            calls: 0,
            failed: 0,
        }
    }

    /// Returns the bytes so far.
    pub fn bytes(&self) -> &[u8]
        ensures { ⟦<MemorySink as Sink>⟧.written self.now ≡ Some result.now }
    {
        self.sink.bytes()
    }
}

// Appends the first half if memory allows it, and else nothing.
fn append_half(written: &mut Vec<u8>, bytes: &[u8])
    ensures { AppendsPart (Some written.old.items) (Some written.new.items) bytes.now }
{
    let half = &bytes[..bytes.len() / 2];
    let _ = written.extend_from_slice(half);
}

impl Sink for MemorySink {
    ghost written = { λ s. ⟦<SureSink as Sink>⟧.written s.sink };

    ghost faults = { λ s. s.failed };

    fn write_all(&mut self, alloc: Global, bytes: &[u8]) -> Result<(), SinkFault> {
        self.calls = self.calls.saturating_add(1);
        if self.failing.contains(&self.calls) {
            self.failed = self.failed.saturating_add(1);
            append_half(&mut self.sink.bytes, bytes);
            return Err(SinkFault::Failed);
        }
        self.sink.write_all(alloc, bytes)
    }
}
