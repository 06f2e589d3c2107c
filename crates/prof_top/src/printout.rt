// The printed text of a command, once its files were delivered.
ghost use Rattle.std.specs.Prelude.{◌≡◌, ◌⊎◌, ◌≤◌, ◌++◌, ℕ, OnOk, IsErrOf, flat_map};
ghost use Rattle.prof_base.specs.Causes.{Rose};
ghost use Rattle.prof_outer.specs.Appends.{AppendsWhole, AppendsPart};
ghost use Rattle.prof_top.specs.Ending.{work_ending, where_done, status_of, IsDue, IsWorkEnding};
ghost use Rattle.prof_top.specs.HandedOut.{HandsOut};
ghost use Rattle.prof_top.specs.PrintedText.{note_line};

use crate::ending::Ending;
use crate::printing::with_file_lines;
use item_fold::FileNote;
use out_stream::Undelivered;
use prof_outer::{Sink, SinkFault};
use std::alloc::Global;

/// Returns the ending where the one that is due is `Done`, and else the one that is due.
pub(crate) fn where_done(due: Ending, ending: Ending) -> Ending
    ensures { result ≡ where_done due ending }
{
    match due {
        Ending::Done => ending,
        due => due,
    }
}

// Returns how a call ends, by how its files were delivered, how its work was due to end, and how its
// text was written. Out of memory comes first, then the stream, then the ending that was due, then
// the text.
fn work_ending(
    delivered: Result<(), Undelivered>,
    due: Ending,
    written: Result<(), SinkFault>,
) -> Ending
    ensures { result ≡ work_ending delivered due written }
{
    match (delivered, written) {
        (Err(Undelivered::Memory), _) | (_, Err(SinkFault::Memory)) => Ending::Memory,
        (Err(Undelivered::Aborted), _) => Ending::Aborted,
        (Err(Undelivered::Failed), _) => Ending::CannotWrite,
        (Ok(()), Err(SinkFault::Failed)) => where_done(due, Ending::CannotWrite),
        (Ok(()), Ok(())) => due,
    }
}

// Prints the lines, and a line for each file that was delivered. It does nothing once memory has run
// out.
fn print<O: Sink>(
    alloc: Global,
    delivered: Result<(), Undelivered>,
    lines: &[u8],
    notes: &[FileNote],
    out: &mut O,
) -> Result<(), SinkFault>
    ensures ok { OnOk result (AppendsWhole (O.written out.old) (O.written out.new) (lines.now ++ flat_map note_line notes.now)) }
    ensures room { IsErrOf delivered Undelivered.Memory → IsErrOf result SinkFault.Memory }
    ensures part { IsErrOf result SinkFault.Failed → AppendsPart (O.written out.old) (O.written out.new) (lines.now ++ flat_map note_line notes.now) }
    ensures memory { IsErrOf result SinkFault.Memory → O.written out.new ≡ O.written out.old }

    // Each fault is counted, and the count never falls.
    ensures failed { IsErrOf result SinkFault.Failed → Rose (O.faults out.old) (O.faults out.new) }
    ensures faults { O.faults out.old ≤ O.faults out.new }
{
    if let Err(Undelivered::Memory) = delivered {
        return Err(SinkFault::Memory);
    }
    let Ok(text) = with_file_lines(alloc, lines, notes) else {
        return Err(SinkFault::Memory);
    };
    out.write_all(alloc, text.as_slice())
}

/// Prints the lines of a command and a line for each file that was delivered, and returns how the
/// call ends. It ends as its work was due to, unless something went wrong outside.
pub(crate) fn print_out<O: Sink>(
    alloc: Global,
    delivered: Result<(), Undelivered>,
    due: Ending,
    lines: &[u8],
    notes: &[FileNote],
    out: &mut O,
) -> Ending
    requires { IsDue due }
    // How it may end, and the cause of each.
    ensures ending { IsWorkEnding result }
    ensures due { IsDue result → result ≡ due }
    ensures cannot_write { result ≡ Ending.CannotWrite → IsErrOf delivered Undelivered.Failed ⊎ Rose (O.faults out.old) (O.faults out.new) }
    ensures aborted { result ≡ Ending.Aborted → IsErrOf delivered Undelivered.Aborted }
    ensures faults { O.faults out.old ≤ O.faults out.new }

    // What has come out, whatever else was written.
    ensures handed { (write_faults write_faults' : ℕ) → HandsOut delivered due lines.now notes.now (status_of result) (O.written out.old) (O.faults out.old) write_faults (O.written out.new) (O.faults out.new) write_faults' }
{
    let written = print(alloc, delivered, lines, notes, out);
    work_ending(delivered, due, written)
}
