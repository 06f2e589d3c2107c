// What follows for a stream of any type and for a boxed one, by the clauses of the trait alone.
ghost use Rattle.std.specs.Prelude.{◌≡◌, ◌<◌, length, OnOk, IsErrOf};
ghost use Rattle.prof_base.specs.Causes.{Rose};
ghost use Rattle.out_stream.specs.Cut.{cut};
ghost use Rattle.out_stream.specs.Offers.{went_on, ended};
ghost use Rattle.out_stream.specs.Parts.{grown, closed};

use out_stream::{OutputStream, SureStream, Undelivered, deliver};
use std::alloc::Global;

pub(crate) fn deliver_twice<S: OutputStream>(
    alloc: Global,
    stream: &mut S,
    bytes: &[u8],
) -> Result<(), Undelivered>
    requires { 0 < length bytes.now }
    ensures ok { OnOk result (S.parts stream.new ≡ closed (grown (closed (grown (S.parts stream.old) bytes.now)) bytes.now)) }
    ensures aborted { IsErrOf result Undelivered.Aborted → Rose (S.aborts stream.old) (S.aborts stream.new) }
    ensures failed { IsErrOf result Undelivered.Failed → Rose (S.stream_faults stream.old) (S.stream_faults stream.new) }
    ensures no_fault { OnOk result (S.stream_faults stream.new ≡ S.stream_faults stream.old) }
    ensures memory { IsErrOf result Undelivered.Memory → S.aborts stream.new ≡ S.aborts stream.old }
{
    stream.deliver_part(alloc, bytes)?;
    stream.deliver_part(alloc, bytes)
}

// Delivers twice to a stream that never fails, which therefore answers neither fault.
pub(crate) fn deliver_twice_surely(
    alloc: Global,
    stream: &mut SureStream,
    bytes: &[u8],
) -> Result<(), Undelivered>
    requires { 0 < length bytes.now }
    ensures aborted { IsErrOf result Undelivered.Aborted → ⊥ }
    ensures failed { IsErrOf result Undelivered.Failed → ⊥ }
{
    deliver_twice(alloc, stream, bytes)
}

#[derive(Drop)]
pub(crate) struct Delivered {
    pub(crate) result: Result<(), Undelivered>,
    pub(crate) stream: Box<dyn OutputStream + Send>,
}

// Delivers to a boxed stream that is lent as an object, and hands it back.
pub(crate) fn deliver_boxed(
    alloc: Global,
    mut stream: Box<dyn OutputStream + Send>,
    bytes: &[u8],
) -> Delivered
    requires { 0 < length bytes.now }
    ensures ok { OnOk result.result (parts result.stream ≡ closed (grown (parts stream) bytes.now)) }
    ensures offers { OnOk result.result (offers result.stream ≡
        ended (went_on (offers stream) (cut (chunk_bytes stream) (length bytes.now)))) }
    ensures aborted { IsErrOf result.result Undelivered.Aborted → Rose (aborts stream) (aborts result.stream) }
    ensures failed { IsErrOf result.result Undelivered.Failed → Rose (stream_faults stream) (stream_faults result.stream) }
{
    let result = deliver(alloc, &mut *stream, bytes);
    Delivered { result, stream }
}

// Does the same through the bound.
pub(crate) fn deliver_box(
    alloc: Global,
    mut stream: Box<dyn OutputStream + Send>,
    bytes: &[u8],
) -> Delivered
    requires { 0 < length bytes.now }
    ensures ok { OnOk result.result (parts result.stream ≡ closed (grown (parts stream) bytes.now)) }
{
    let result = stream.deliver_part(alloc, bytes);
    Delivered { result, stream }
}
