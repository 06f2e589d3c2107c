// The fold of an item list.
ghost use Rattle.std.specs.Prelude.{◌≡◌, ◌≤◌, IsErrOf};
ghost use Rattle.prof_base.specs.Causes.{Rose};
ghost use Rattle.prof_base.specs.declared.interval.TheConstants.{MAX_INTERVAL};
ghost use Rattle.code_event.specs.ItemFile.{item_files};
ghost use Rattle.code_event.specs.ItemList.{IsLegalItems};
ghost use Rattle.item_fold.specs.Delivered.{Delivers};

use crate::delivery::FileNote;
use crate::folding::Folding;
use code_event::Item;
use out_stream::{OutputStream, Undelivered};
use prof_base::{MAX_INTERVAL, Sequence};
use std::alloc::Global;

/// What a fold has done.
#[derive(Debug, Drop)]
pub struct Folded {
    /// Whether all files were delivered, or why the first that was not was not.
    pub delivered: Result<(), Undelivered>,
    /// The notes of the delivered files, in order. Out of memory, the last may be missing.
    pub notes: Sequence<FileNote>,
}

/// Folds the items of an isolate with this base interval, in microseconds: delivers the file of each
/// session that they stop, and at a finish with files those of the sessions that run, in the order of
/// their ids. It stops at the first file that cannot be delivered.
pub fn fold_items<S: OutputStream>(
    alloc: Global,
    base: u32,
    items: &[Item],
    stream: &mut S,
) -> Folded
    requires low { 1 ≤ base }
    requires high { base ≤ MAX_INTERVAL }
    requires legal { IsLegalItems items.now }
    ensures delivers { Delivers (item_files base items.now) result.delivered result.notes (S.parts stream.old) (S.parts stream.new) }

    // Each abort and each fault is counted. The size of chunks stays the same, and no count falls.
    ensures aborted { IsErrOf result.delivered Undelivered.Aborted → Rose (S.aborts stream.old) (S.aborts stream.new) }
    ensures failed { IsErrOf result.delivered Undelivered.Failed → Rose (S.stream_faults stream.old) (S.stream_faults stream.new) }
    ensures chunk_size { S.chunk_bytes stream.new ≡ S.chunk_bytes stream.old }
    ensures aborts { S.aborts stream.old ≤ S.aborts stream.new }
    ensures faults { S.stream_faults stream.old ≤ S.stream_faults stream.new }
{
    let mut folding = Folding::new(alloc, base);
    let delivered = folding.take_all(items, stream);
    Folded {
        delivered,
        notes: folding.into_notes(),
    }
}
