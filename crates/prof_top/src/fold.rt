// The fold of an item list: the delivery of its files, and the text that is printed.
ghost use Rattle.std.specs.Prelude.{◌≡◌, ◌⊎◌, ◌≤◌, ℕ, []};
ghost use Rattle.item_text.specs.Items.{IsItemList};
ghost use Rattle.prof_base.specs.Causes.{Rose};
ghost use Rattle.prof_top.specs.Ending.{status_of, IsDue, IsWorkEnding};
ghost use Rattle.prof_top.specs.HandedOut.{outlets};
ghost use Rattle.prof_top.specs.Outcome.{IsWorked};
ghost use Rattle.prof_top.specs.declared.load.Task.TheVariants.{Fold};

use crate::ending::Ending;
use crate::printing::items_line;
use crate::printout::print_out;
use item_fold::fold_items;
use item_text::ItemList;
use out_stream::OutputStream;
use prof_outer::Sink;
use std::alloc::Global;

/// Delivers the files of an item list, and then prints to `out`.
pub(crate) fn fold<S: OutputStream, O: Sink>(
    alloc: Global,
    list: &ItemList,
    stream: &mut S,
    out: &mut O,
) -> Ending
    requires { IsItemList list.now }
    // How it may end, and the cause of each.
    ensures ending { IsWorkEnding result }
    ensures due { IsDue result → result ≡ Ending.Done }
    ensures cannot_write { result ≡ Ending.CannotWrite → Rose (S.stream_faults stream.old) (S.stream_faults stream.new) ⊎ Rose (O.faults out.old) (O.faults out.new) }
    ensures aborted { result ≡ Ending.Aborted → Rose (S.aborts stream.old) (S.aborts stream.new) }

    // What has come out, whatever else was written.
    ensures worked { (write_faults write_faults' : ℕ) → IsWorked (Fold list.now) (status_of result) []
        (outlets (S.parts stream.old) (S.aborts stream.old) (S.stream_faults stream.old) (O.written out.old) (O.faults out.old) write_faults)
        (outlets (S.parts stream.new) (S.aborts stream.new) (S.stream_faults stream.new) (O.written out.new) (O.faults out.new) write_faults') }

    // The stream's size of chunks stays the same, and no count falls.
    ensures chunk_size { S.chunk_bytes stream.new ≡ S.chunk_bytes stream.old }
    ensures aborts { S.aborts stream.old ≤ S.aborts stream.new }
    ensures stream_faults { S.stream_faults stream.old ≤ S.stream_faults stream.new }
    ensures out_faults { O.faults out.old ≤ O.faults out.new }
{
    let items = list.items.as_slice();
    let Ok(lines) = items_line(alloc, items) else {
        return Ending::Memory;
    };
    let folded = fold_items(alloc, list.base, items, stream);
    let notes = folded.notes.as_slice();
    print_out(
        alloc,
        folded.delivered,
        Ending::Done,
        lines.as_bytes(),
        notes,
        out,
    )
}
