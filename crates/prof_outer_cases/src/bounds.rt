// What follows for a depot and a sink of any type, by the clauses of the traits alone.
ghost use Rattle.std.specs.Prelude.{◌≡◌, ◌≢◌, ◌≤◌, ◌++◌, ◌⊎◌, IfOk, OnOk, IfErr, IsErrOf, IfSome, Some, None};
ghost use Rattle.prof_base.specs.Causes.{Rose};
ghost use Rattle.prof_outer.specs.Files.{file_at};
ghost use Rattle.prof_outer.specs.Appends.{AppendsWhole};
ghost use Rattle.prof_outer.specs.Puts.{IsPut};

use prof_base::Text;
use prof_outer::{Depot, GetFault, PutFault, Sink, SinkFault, SureDepot, SureSink};
use std::alloc::Global;

pub(crate) fn get_twice<D: Depot>(
    alloc: Global,
    depot: &mut D,
    name: &Text,
) -> Result<(Vec<u8>, Vec<u8>), GetFault>
    ensures first { IfOk result (λ read. IfSome (D.held depot.old) (λ files. file_at files name.now ≡ Some read.0.items)) }
    ensures second { IfOk result (λ read. IfSome (D.held depot.old) (λ files. file_at files name.now ≡ Some read.1.items)) }
    ensures held { D.held depot.new ≡ D.held depot.old }
    ensures absent { IsErrOf result GetFault.Missing → IfSome (D.held depot.old) (λ files. file_at files name.now ≡ None) }
    ensures missing { IsErrOf result GetFault.Missing → Rose (D.misses depot.old) (D.misses depot.new) }
    ensures failed { IsErrOf result GetFault.Failed → Rose (D.read_faults depot.old) (D.read_faults depot.new) }
    ensures no_miss { OnOk result (D.misses depot.new ≡ D.misses depot.old) }
    ensures memory { IsErrOf result GetFault.Memory → D.read_faults depot.new ≡ D.read_faults depot.old }
{
    let first = depot.get(alloc, name)?;
    let second = depot.get(alloc, name)?;
    Ok((first, second))
}

// Gets a file twice from a depot that never fails, which therefore answers no read fault.
pub(crate) fn get_twice_surely(
    alloc: Global,
    depot: &mut SureDepot,
    name: &Text,
) -> Result<(Vec<u8>, Vec<u8>), GetFault>
    ensures { IsErrOf result GetFault.Failed → ⊥ }
{
    get_twice(alloc, depot, name)
}

/// Why a file that was put was not read.
#[derive(Clone, Copy, Debug, PartialEq, Eq)]
pub(crate) enum Unread {
    /// It was not put.
    Put(PutFault),
    /// It was put, and could not be read.
    Get(GetFault),
}

// Puts a file, and gets one.
pub(crate) fn put_and_get<D: Depot>(
    alloc: Global,
    depot: &mut D,
    name: &Text,
    bytes: &[u8],
    wanted: &Text,
) -> Result<Vec<u8>, Unread>
    ensures same { wanted.now ≡ name.now → IfOk result (λ read. IfSome (D.held depot.old) (λ _. read.items ≡ bytes.now)) }
    ensures other { wanted.now ≢ name.now → IfOk result (λ read. IfSome (D.held depot.old) (λ files. file_at files wanted.now ≡ Some read.items)) }
    ensures there { wanted.now ≡ name.now → IsErrOf result (Unread.Get GetFault.Missing) → D.held depot.old ≡ None }
    ensures put { OnOk result (IsPut (D.held depot.old) name.now bytes.now (D.held depot.new)) }
    ensures failed { IsErrOf result (Unread.Put PutFault.Failed) → Rose (D.write_faults depot.old) (D.write_faults depot.new) }
    ensures no_write_fault { OnOk result (D.write_faults depot.new ≡ D.write_faults depot.old) }
    ensures unread { IsErrOf result (Unread.Get GetFault.Failed) → Rose (D.read_faults depot.old) (D.read_faults depot.new) }
{
    if let Err(fault) = depot.put(alloc, name, bytes) {
        return Err(Unread::Put(fault));
    }
    match depot.get(alloc, wanted) {
        Ok(read) => Ok(read),
        Err(fault) => Err(Unread::Get(fault)),
    }
}

// Puts a file into a depot that never fails and gets it: it has the bytes that were put, if memory
// allows both.
pub(crate) fn put_and_get_surely(
    alloc: Global,
    depot: &mut SureDepot,
    name: &Text,
    bytes: &[u8],
) -> Result<Vec<u8>, Unread>
    ensures same { IfOk result (λ read. read.items ≡ bytes.now) }
    ensures memory { IfErr result (λ why. (why ≡ Unread.Put PutFault.Memory) ⊎ (why ≡ Unread.Get GetFault.Memory)) }
{
    put_and_get(alloc, depot, name, bytes, name)
}

pub(crate) fn write_twice<O: Sink>(
    alloc: Global,
    out: &mut O,
    first: &[u8],
    second: &[u8],
) -> Result<(), SinkFault>
    ensures ok { OnOk result (AppendsWhole (O.written out.old) (O.written out.new) (first.now ++ second.now)) }
    ensures failed { IsErrOf result SinkFault.Failed → Rose (O.faults out.old) (O.faults out.new) }
    ensures no_fault { OnOk result (O.faults out.new ≡ O.faults out.old) }
    ensures memory { IsErrOf result SinkFault.Memory → O.faults out.new ≡ O.faults out.old }
{
    out.write_all(alloc, first)?;
    out.write_all(alloc, second)
}

// Writes twice to a sink that never fails, which therefore answers no fault.
pub(crate) fn write_twice_surely(
    alloc: Global,
    out: &mut SureSink,
    first: &[u8],
    second: &[u8],
) -> Result<(), SinkFault>
    ensures { IsErrOf result SinkFault.Failed → ⊥ }
{
    write_twice(alloc, out, first, second)
}
