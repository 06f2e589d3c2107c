// The delivery of a part.
ghost use Rattle.std.specs.Prelude.{◌≡◌, ◌<◌, ◌≤◌, length, OnOk, OnErr, IfErr, IsErrOf};
ghost use Rattle.prof_base.specs.Causes.{Rose};
ghost use Rattle.out_stream.specs.Cut.{cut};
ghost use Rattle.out_stream.specs.Offers.{went_on, ended};
ghost use Rattle.out_stream.specs.Parts.{grown, closed, GrowsByPrefix};
ghost use Rattle.out_stream.specs.Stopped.{Stopped};

use crate::stream::{OutputStream, Undelivered};
use std::alloc::Global;

/// Delivers the bytes as one part of a stream that is lent as an object, by
/// [`OutputStream::deliver_part`].
pub fn deliver(
    alloc: Global,
    stream: &mut dyn OutputStream,
    bytes: &[u8],
) -> Result<(), Undelivered>
    requires { 0 < length bytes.now }
    ensures ok { OnOk result (parts stream.new ≡ closed (grown (parts stream.old) bytes.now)) }
    ensures err { OnErr result (GrowsByPrefix (parts stream.old) (parts stream.new) bytes.now) }

    // It offers the chunks of the cut, each once and in order, and then the end, or stops.
    ensures offers { OnOk result (offers stream.new ≡
        ended (went_on (offers stream.old) (cut (chunk_bytes stream.old) (length bytes.now)))) }
    ensures stopped { IfErr result (λ why.
        Stopped why (cut (chunk_bytes stream.old) (length bytes.now)) bytes.now
        (parts stream.old) (parts stream.new) (offers stream.old) (offers stream.new)) }

    // Each abort and each fault is counted.
    ensures aborted { IsErrOf result Undelivered.Aborted → Rose (aborts stream.old) (aborts stream.new) }
    ensures failed { IsErrOf result Undelivered.Failed → Rose (stream_faults stream.old) (stream_faults stream.new) }

    // A count changes only at its own answer.
    ensures no_abort { OnOk result (aborts stream.new ≡ aborts stream.old) }
    ensures no_fault { OnOk result (stream_faults stream.new ≡ stream_faults stream.old) }
    ensures aborted_only { IsErrOf result Undelivered.Aborted → stream_faults stream.new ≡ stream_faults stream.old }
    ensures failed_only { IsErrOf result Undelivered.Failed → aborts stream.new ≡ aborts stream.old }
    ensures memory_aborts { IsErrOf result Undelivered.Memory → aborts stream.new ≡ aborts stream.old }
    ensures memory_faults { IsErrOf result Undelivered.Memory → stream_faults stream.new ≡ stream_faults stream.old }

    // The size stays the same, and no count falls.
    ensures size { chunk_bytes stream.new ≡ chunk_bytes stream.old }
    ensures aborts { aborts stream.old ≤ aborts stream.new }
    ensures faults { stream_faults stream.old ≤ stream_faults stream.new }
{
    stream.deliver_part(alloc, bytes)
}
