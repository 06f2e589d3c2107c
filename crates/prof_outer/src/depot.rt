// Files by name.
ghost use Rattle.std.specs.Prelude.{◌≡◌, ◌+◌, ◌-◌, ◌^◌, ◌≤◌, ℕ, [], Option, None, Some, IfOk, OnOk, OnErr, IsErrOf, IfSome, IsSomeAnd, IfNone, min};
ghost use Rattle.prof_base.specs.Causes.{Rose};
ghost use Rattle.prof_outer.specs.FailingPuts.{left_by, failing_puts, put_calls};
ghost use Rattle.prof_outer.specs.Files.{FileMap, file_at};
ghost use Rattle.prof_outer.specs.Puts.{IsPut, IsRemoved, IsLeft, AfterFailedPut};
ghost use Rattle.prof_outer.specs.Stored.{files_of};
ghost use Rattle.prof_outer.specs.declared.depot.PutFault.TheVariants as put_fault;

use crate::failing::{FailingPut, Left, left_by};
use prof_base::{Memory, Text};
use std::alloc::Global;

/// Why a file could not be returned.
#[derive(Clone, Copy, Debug, PartialEq, Eq)]
pub enum GetFault {
    /// There is no file with the name.
    Missing,
    /// The file could not be read.
    Failed,
    /// Out of memory.
    Memory,
}

/// Why a file was not put.
#[derive(Clone, Copy, Debug, PartialEq, Eq)]
pub enum PutFault {
    /// The file could not be written. Its name has its old bytes, the new ones, or no file.
    Failed,
    /// Out of memory. The same holds of the name.
    Memory,
}

impl From<Memory> for PutFault {
    ghost from_gives = { λ _ fault. fault ≡ put_fault.Memory };

    fn from(_: Memory) -> PutFault {
        PutFault::Memory
    }
}

/// Files that are read and written by their names.
pub trait Depot: Drop {
    /// The files, where they can be observed.
    ghost held: { Self → Option FileMap };

    /// How often a file was missing.
    ghost misses: { Self → ℕ };

    /// How often a read failed.
    ghost read_faults: { Self → ℕ };

    /// How often a write failed.
    ghost write_faults: { Self → ℕ };

    /// Returns the bytes of the file with this name.
    fn get(&mut self, alloc: Global, name: &Text) -> Result<Vec<u8>, GetFault>
        ensures bytes { IfOk result (λ bytes. IfSome (held self.old) (λ files. file_at files name.now ≡ Some bytes.items)) }
        ensures absent { IsErrOf result GetFault.Missing → IfSome (held self.old) (λ files. file_at files name.now ≡ None) }

        // Each fault is counted.
        ensures missing { IsErrOf result GetFault.Missing → Rose (misses self.old) (misses self.new) }
        ensures failed { IsErrOf result GetFault.Failed → Rose (read_faults self.old) (read_faults self.new) }

        // A count changes only at its own fault: it does not at Ok or out of memory.
        ensures no_miss { OnOk result (misses self.new ≡ misses self.old) }
        ensures no_read_fault { OnOk result (read_faults self.new ≡ read_faults self.old) }
        ensures missing_only { IsErrOf result GetFault.Missing → read_faults self.new ≡ read_faults self.old }
        ensures failed_only { IsErrOf result GetFault.Failed → misses self.new ≡ misses self.old }
        ensures memory_misses { IsErrOf result GetFault.Memory → misses self.new ≡ misses self.old }
        ensures memory_read_faults { IsErrOf result GetFault.Memory → read_faults self.new ≡ read_faults self.old }

        // The files stay, and no count falls.
        ensures held { held self.new ≡ held self.old }
        ensures misses { misses self.old ≤ misses self.new }
        ensures read_faults { read_faults self.old ≤ read_faults self.new }
        ensures write_faults { write_faults self.new ≡ write_faults self.old };

    /// Makes the file with this name have these bytes and no others. Where there is none, it makes
    /// one.
    fn put(&mut self, alloc: Global, name: &Text, bytes: &[u8]) -> Result<(), PutFault>
        ensures put { OnOk result (IsPut (held self.old) name.now bytes.now (held self.new)) }
        ensures not_put { OnErr result (AfterFailedPut (held self.old) name.now bytes.now (held self.new)) }

        // Each fault is counted. The count changes at nothing else and never falls.
        ensures failed { IsErrOf result PutFault.Failed → Rose (write_faults self.old) (write_faults self.new) }
        ensures no_write_fault { OnOk result (write_faults self.new ≡ write_faults self.old) }
        ensures memory_write_faults { IsErrOf result PutFault.Memory → write_faults self.new ≡ write_faults self.old }
        ensures write_faults { write_faults self.old ≤ write_faults self.new }

        // The counts of reads stay.
        ensures misses { misses self.new ≡ misses self.old }
        ensures read_faults { read_faults self.new ≡ read_faults self.old };
}

/// A file in memory.
#[derive(Debug, Drop)]
pub struct Stored {
    pub name: Text,
    pub bytes: Vec<u8>,
}

// Finds the first file with this name.
fn find<'a>(files: &'a [Stored], name: &Text) -> Option<&'a Stored>
    ensures found { IfSome result (λ file. file_at (files_of files.now) name.now ≡ Some file.now.bytes.items) }
    ensures none { IfNone result (file_at (files_of files.now) name.now ≡ None) }
{
    for file in files {
        if file.name.same(name) {
            return Some(file);
        }
    }
    None
}

/// Files in memory, whose reads and writes never fail. Of two files with one name the first counts.
#[derive(Debug, Drop)]
pub struct SureDepot {
    files: Vec<Stored>,
    missed: u64,
}

impl SureDepot {
    /// Makes a depot of these files. It allocates nothing.
    pub fn new(files: Vec<Stored>) -> SureDepot
        ensures held { ⟦<SureDepot as Depot>⟧.held result ≡ Some (files_of files.items) }
        ensures misses { ⟦<SureDepot as Depot>⟧.misses result ≡ 0 }
        ensures read_faults { ⟦<SureDepot as Depot>⟧.read_faults result ≡ 0 }
        ensures write_faults { ⟦<SureDepot as Depot>⟧.write_faults result ≡ 0 }
    {
        SureDepot { files, missed: 0 }
    }

    // Stores a file before all others, so that it is the one that counts.
    fn store(&mut self, alloc: Global, name: &Text, bytes: &[u8]) -> Result<(), Memory>
        ensures ok { OnOk result (IsPut (Some (files_of self.old.files.items)) name.now bytes.now (Some (files_of self.new.files.items))) }
        ensures err { OnErr result (self.new.files.items ≡ self.old.files.items) }
        ensures missed { self.new.missed ≡ self.old.missed }
    {
        let name = name.copy()?;
        let bytes = bytes.to_vec(alloc)?;
        self.files.insert(0, Stored { name, bytes })?;
        Ok(())
    }

    // Removes all files with this name.
    fn remove(&mut self, name: &Text)
        ensures removed { IsRemoved (Some (files_of self.old.files.items)) name.now (Some (files_of self.new.files.items)) }
        ensures missed { self.new.missed ≡ self.old.missed }
    {
        self.files.retain(|file| !file.name.same(name));
    }

    // Does what a failed put that leaves this does.
    fn leave(&mut self, alloc: Global, left: Left, name: &Text, bytes: &[u8]) -> Result<(), Memory>
        ensures ok { OnOk result (IsLeft left (Some (files_of self.old.files.items)) name.now bytes.now (Some (files_of self.new.files.items))) }
        ensures err { OnErr result (self.new.files.items ≡ self.old.files.items) }
        ensures missed { self.new.missed ≡ self.old.missed }
    {
        match left {
            Left::OldBytes => Ok(()),
            Left::NewBytes => self.store(alloc, name, bytes),
            Left::Nothing => {
                self.remove(name);
                Ok(())
            }
        }
    }
}

impl Depot for SureDepot {
    ghost held = { λ d. Some (files_of d.files.items) };

    ghost misses = { λ d. d.missed };

    ghost read_faults = { λ _. 0 };

    ghost write_faults = { λ _. 0 };

    fn get(&mut self, alloc: Global, name: &Text) -> Result<Vec<u8>, GetFault> {
        match find(&self.files, name) {
            Some(file) => match file.bytes.to_vec(alloc) {
                Ok(bytes) => Ok(bytes),
                Err(_) => Err(GetFault::Memory),
            },
            None => {
                self.missed = self.missed.saturating_add(1);
                Err(GetFault::Missing)
            }
        }
    }

    fn put(&mut self, alloc: Global, name: &Text, bytes: &[u8]) -> Result<(), PutFault> {
        self.store(alloc, name, bytes)?;
        Ok(())
    }
}

/// Files in memory, whose reads and writes fail at chosen calls.
#[derive(Debug, Drop)]
pub struct MemoryDepot {
    depot: SureDepot,
    failing: Vec<u64>,
    calls: u64,
    failed: u64,
    failing_puts: Vec<FailingPut>,
    put_calls: u64,
    failed_puts: u64,
}

impl MemoryDepot {
    /// Makes a depot of these files, of which the first counts where two have one name. The calls
    /// of `get` whose numbers are in `failing` fail; the first call has number 1. No call of `put`
    /// fails. It allocates nothing.
    pub fn new(files: Vec<Stored>, failing: Vec<u64>) -> MemoryDepot
        ensures held { ⟦<MemoryDepot as Depot>⟧.held result ≡ Some (files_of files.items) }
        ensures misses { ⟦<MemoryDepot as Depot>⟧.misses result ≡ 0 }
        ensures read_faults { ⟦<MemoryDepot as Depot>⟧.read_faults result ≡ 0 }
        ensures write_faults { ⟦<MemoryDepot as Depot>⟧.write_faults result ≡ 0 }
        ensures failing_puts { failing_puts result ≡ [] }
        ensures put_calls { put_calls result ≡ 0 }
    {
        let no_puts = Vec::new(*files.allocator());
        MemoryDepot::with_failing_puts(files, failing, no_puts)
    }

    /// Makes a depot as [`MemoryDepot::new`] does, but that the listed calls of `put` fail, and
    /// leave what the list says under their names. A listed call that lacks the memory to leave it
    /// is out of memory instead. Of two entries for one call the first counts.
    pub fn with_failing_puts(
        files: Vec<Stored>,
        failing: Vec<u64>,
        puts: Vec<FailingPut>,
    ) -> MemoryDepot
        ensures held { ⟦<MemoryDepot as Depot>⟧.held result ≡ Some (files_of files.items) }
        ensures misses { ⟦<MemoryDepot as Depot>⟧.misses result ≡ 0 }
        ensures read_faults { ⟦<MemoryDepot as Depot>⟧.read_faults result ≡ 0 }
        ensures write_faults { ⟦<MemoryDepot as Depot>⟧.write_faults result ≡ 0 }
        ensures failing_puts { failing_puts result ≡ puts.items }
        ensures put_calls { put_calls result ≡ 0 }
    {
        MemoryDepot {
            depot: SureDepot::new(files),
            failing,
            calls: 0,
            failed: 0,
            failing_puts: puts,
            put_calls: 0,
            failed_puts: 0,
        }
    }
}

impl Depot for MemoryDepot {
    ghost held = { λ d. ⟦<SureDepot as Depot>⟧.held d.depot };

    ghost misses = { λ d. ⟦<SureDepot as Depot>⟧.misses d.depot };

    ghost read_faults = { λ d. d.failed };

    ghost write_faults = { λ d. d.failed_puts };

    fn get(&mut self, alloc: Global, name: &Text) -> Result<Vec<u8>, GetFault> {
        self.calls = self.calls.saturating_add(1);
        if self.failing.contains(&self.calls) {
            self.failed = self.failed.saturating_add(1);
            return Err(GetFault::Failed);
        }
        self.depot.get(alloc, name)
    }

    fn put(&mut self, alloc: Global, name: &Text, bytes: &[u8]) -> Result<(), PutFault>
        ensures put { OnOk result (IsPut (⟦<MemoryDepot as Depot>⟧.held self.old) name.now bytes.now (⟦<MemoryDepot as Depot>⟧.held self.new)) }
        ensures not_put { OnErr result (AfterFailedPut (⟦<MemoryDepot as Depot>⟧.held self.old) name.now bytes.now (⟦<MemoryDepot as Depot>⟧.held self.new)) }

        // Each fault is counted. The count changes at nothing else and never falls.
        ensures failed { IsErrOf result PutFault.Failed → Rose (⟦<MemoryDepot as Depot>⟧.write_faults self.old) (⟦<MemoryDepot as Depot>⟧.write_faults self.new) }
        ensures no_write_fault { OnOk result (⟦<MemoryDepot as Depot>⟧.write_faults self.new ≡ ⟦<MemoryDepot as Depot>⟧.write_faults self.old) }
        ensures memory_write_faults { IsErrOf result PutFault.Memory → ⟦<MemoryDepot as Depot>⟧.write_faults self.new ≡ ⟦<MemoryDepot as Depot>⟧.write_faults self.old }
        ensures write_faults { ⟦<MemoryDepot as Depot>⟧.write_faults self.old ≤ ⟦<MemoryDepot as Depot>⟧.write_faults self.new }

        // The counts of reads stay.
        ensures misses { ⟦<MemoryDepot as Depot>⟧.misses self.new ≡ ⟦<MemoryDepot as Depot>⟧.misses self.old }
        ensures read_faults { ⟦<MemoryDepot as Depot>⟧.read_faults self.new ≡ ⟦<MemoryDepot as Depot>⟧.read_faults self.old }

        // A listed call fails and leaves what the list says, and no other fails. Where memory runs
        // out, the files stay.
        ensures listed { OnOk result (left_by (failing_puts self.old) (put_calls self.new) ≡ None) }
        ensures left { IsErrOf result PutFault.Failed → IsSomeAnd (left_by (failing_puts self.old) (put_calls self.new)) (λ left. IsLeft left (⟦<MemoryDepot as Depot>⟧.held self.old) name.now bytes.now (⟦<MemoryDepot as Depot>⟧.held self.new)) }
        ensures memory { IsErrOf result PutFault.Memory → ⟦<MemoryDepot as Depot>⟧.held self.new ≡ ⟦<MemoryDepot as Depot>⟧.held self.old }

        // The call is counted, and the list stays.
        ensures put_calls { put_calls self.new ≡ min (put_calls self.old + 1) (2 ^ 64 - 1) }
        ensures failing_puts { failing_puts self.new ≡ failing_puts self.old }
    {
        self.put_calls = self.put_calls.saturating_add(1);
        let Some(left) = left_by(&self.failing_puts, self.put_calls) else {
            self.depot.store(alloc, name, bytes)?;
            return Ok(());
        };
        self.depot.leave(alloc, left, name, bytes)?;
        self.failed_puts = self.failed_puts.saturating_add(1);
        Err(PutFault::Failed)
    }
}
