// The delivery of files, one after another, with a note of each.
ghost use Rattle.std.specs.Prelude.{◌≡◌, ◌<◌, ◌≤◌, ◌++◌, ◌∷◌, [], List, Option, Ok, length, IsErrOf};
ghost use Rattle.prof_base.specs.Causes.{Rose};
ghost use Rattle.code_event.specs.ItemFile.{SessionFile};
ghost use Rattle.out_stream.specs.Parts.{Parts};
ghost use Rattle.item_fold.specs.Delivered.{Delivers};

use out_stream::{OutputStream, Undelivered};
use prof_base::{Memory, Sequence, SessionId};
use std::alloc::Global;

/// The note of a file that was delivered: its session, and its length in bytes.
#[derive(Clone, Copy, Debug, PartialEq, Eq)]
pub struct FileNote {
    pub session: SessionId,
    pub length: u64,
}

/// Delivers the file of a session as one part, and notes it. Out of memory, the note may be missing
/// though the file was delivered.
pub fn deliver_file<S: OutputStream>(
    alloc: Global,
    session: SessionId,
    file: &[u8],
    notes: &mut Sequence<FileNote>,
    stream: &mut S,
) -> Result<(), Undelivered>
    requires some { 0 < length file.now }
    ensures delivers { (files : List SessionFile) (before : Option Parts) → Delivers files (Ok tt) notes.old before (S.parts stream.old)
        → Delivers (files ++ record { session = session.0; text = file.now } ∷ []) result notes.new before (S.parts stream.new) }

    // Each abort and each fault is counted. The size of chunks stays the same, and no count falls.
    ensures aborted { IsErrOf result Undelivered.Aborted → Rose (S.aborts stream.old) (S.aborts stream.new) }
    ensures failed { IsErrOf result Undelivered.Failed → Rose (S.stream_faults stream.old) (S.stream_faults stream.new) }
    ensures chunk_size { S.chunk_bytes stream.new ≡ S.chunk_bytes stream.old }
    ensures aborts { S.aborts stream.old ≤ S.aborts stream.new }
    ensures faults { S.stream_faults stream.old ≤ S.stream_faults stream.new }
{
    if let Err(fault) = stream.deliver_part(alloc, file) {
        return Err(fault);
    }
    let length = file.len() as u64;
    match notes.push(FileNote { session, length }) {
        Ok(()) => Ok(()),
        Err(Memory) => Err(Undelivered::Memory),
    }
}
