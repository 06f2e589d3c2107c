// The top call of the commands that need no thread.
ghost use Rattle.std.specs.Prelude.{Some, ◌≡◌, ◌⊎◌, ◌≤◌, [], length, map, string_bytes};
ghost use Rattle.std.specs.List.{AllByRecursion};
ghost use Rattle.isolate.specs.Fits.{Fits};
ghost use Rattle.prof_outer.specs.Files.{FileMap};
ghost use Rattle.prof_base.specs.Causes.{Rose};
ghost use Rattle.run_schedule.specs.Schedule.{IsLegalSchedule};
ghost use Rattle.prof_top.specs.Asked.{Kind, AsksFor, AsksForKind, LacksFile, HoldsUnreadable, MayReadAll};
ghost use Rattle.prof_top.specs.Causes.{IsEndedAs, outside};
ghost use Rattle.prof_top.specs.Command.{IsCommand, AsksToRun};
ghost use Rattle.prof_top.specs.Complete.{HasNoFault, IsComplete};
ghost use Rattle.prof_top.specs.Ending.{status_of, IsDue, IsWorkEnding};
ghost use Rattle.prof_top.specs.HandedOut.{outlets};
ghost use Rattle.prof_top.specs.Outcome.{IsAfterWork, IsBeforeWork, IsWorked, HasOutcome};
ghost use Rattle.prof_top.specs.Product.{MayBeDue};
ghost use Rattle.prof_top.specs.PutText.{HasPut};
ghost use Rattle.prof_top.specs.RunSchedule.{IsHead};
ghost use Rattle.prof_top.specs.Said.{IsNamed, IsSaid};
ghost use Rattle.prof_top.specs.Status.{IsStatus, StopsReading, refusal_of};
ghost use Rattle.step_clock.specs.StepClock.{IsStepClock};
ghost use Rattle.prof_top.specs.Task.{IsReady, OfRun};

use crate::ending::{Ending, report};
use crate::fold::fold;
use crate::load::{Task, load};
use crate::run::{Ran, run};
use out_stream::OutputStream;
use prof_base::Sequence;
use prof_outer::{Depot, Sink};
use run_schedule::Schedule;
use std::alloc::Global;

/// What a call returns.
#[derive(Drop)]
pub struct Outcome {
    /// The exit status: 0 where the guest halted, if one was run, and all was delivered and
    /// written, 1 for words that are no command, 2 for a program's text that cannot be read, 3 for a
    /// missing file, 4 for a file that could not be read, 5 for a stream, a sink or a put that
    /// failed, 6 for out of memory, 7 for a guest that trapped, 8 for a budget of steps that was
    /// spent, 10 for an item list's text that cannot be read, 13 for a schedule that was full, and 14
    /// for a stream that aborted.
    pub status: u8,
    /// The schedule of the run that took place: what happened in it, and when. There is none where
    /// nothing ran, and may be none where memory ran out.
    pub schedules: Sequence<Schedule>,
    /// The stream that was handed in.
    pub stream: Box<dyn OutputStream + Send>,
}

// Does what a command line asks for, over the texts that it named.
fn work<D: Depot, S: OutputStream, O: Sink>(
    alloc: Global,
    task: Task,
    depot: &mut D,
    stream: S,
    out: &mut O,
) -> Ran<S>
    requires { IsReady task }
    // How it may end, and the cause of each.
    ensures ending { IsWorkEnding result.ending }
    ensures due { IsDue result.ending → MayBeDue task result.ending }
    ensures cannot_write { result.ending ≡ Ending.CannotWrite → Rose (S.stream_faults stream) (S.stream_faults result.stream) ⊎ (Rose (O.faults out.old) (O.faults out.new) ⊎ Rose (D.write_faults depot.old) (D.write_faults depot.new)) }
    ensures aborted { result.ending ≡ Ending.Aborted → Rose (S.aborts stream) (S.aborts result.stream) }

    // What was put, and what has come out.
    ensures put { HasPut result.schedules (status_of result.ending) (D.held depot.old) (D.held depot.new) (D.write_faults depot.old) (D.write_faults depot.new) }
    ensures worked { IsWorked task (status_of result.ending) result.schedules
        (outlets (S.parts stream) (S.aborts stream) (S.stream_faults stream) (O.written out.old) (O.faults out.old) (D.write_faults depot.old))
        (outlets (S.parts result.stream) (S.aborts result.stream) (S.stream_faults result.stream) (O.written out.new) (O.faults out.new) (D.write_faults depot.new)) }

    // The stream's size of chunks and the counts of reads stay the same, and no count falls.
    ensures chunk_size { S.chunk_bytes result.stream ≡ S.chunk_bytes stream }
    ensures misses { D.misses depot.new ≡ D.misses depot.old }
    ensures read_faults { D.read_faults depot.new ≡ D.read_faults depot.old }
    ensures write_faults { D.write_faults depot.old ≤ D.write_faults depot.new }
    ensures aborts { S.aborts stream ≤ S.aborts result.stream }
    ensures stream_faults { S.stream_faults stream ≤ S.stream_faults result.stream }
    ensures out_faults { O.faults out.old ≤ O.faults out.new }
{
    match task {
        Task::Run { program, options } => run(alloc, program, options, stream, depot, out),
        Task::Fold { list } => {
            let mut stream = stream;
            let ending = fold(alloc, &list, &mut stream, out);
            Ran {
                ending,
                schedules: Sequence::new(alloc),
                stream,
            }
        }
    }
}

// Reads the texts that the words name, and does what the words ask for.
fn load_and_work<D: Depot, S: OutputStream, O: Sink>(
    alloc: Global,
    words: &[String],
    depot: &mut D,
    stream: S,
    out: &mut O,
) -> Ran<S>
    ensures ending { IsEndedAs (map string_bytes words.now)
        (outside (D.held depot.old) (D.misses depot.old) (D.read_faults depot.old) (S.aborts stream) (S.stream_faults stream) (O.faults out.old) (D.write_faults depot.old))
        (outside (D.held depot.new) (D.misses depot.new) (D.read_faults depot.new) (S.aborts result.stream) (S.stream_faults result.stream) (O.faults out.new) (D.write_faults depot.new))
        result.ending }
    ensures command { (status_of result.ending ≡ 1) ⊎ ((status_of result.ending ≡ 6) ⊎ IsCommand (map string_bytes words.now)) }
    ensures readable { StopsReading (status_of result.ending) ⊎ MayReadAll (D.held depot.old) (map string_bytes words.now) }
    ensures named { IsNamed (map string_bytes words.now) (D.held depot.old) result.ending }

    // What was done, what was put, and what has come out.
    ensures put { HasPut result.schedules (status_of result.ending) (D.held depot.old) (D.held depot.new) (D.write_faults depot.old) (D.write_faults depot.new) }
    ensures outcome { HasOutcome (map string_bytes words.now) (D.held depot.old) (status_of result.ending) result.schedules
        (outlets (S.parts stream) (S.aborts stream) (S.stream_faults stream) (O.written out.old) (O.faults out.old) (D.write_faults depot.old))
        (outlets (S.parts result.stream) (S.aborts result.stream) (S.stream_faults result.stream) (O.written out.new) (O.faults out.new) (D.write_faults depot.new)) }

    // Of what was handed in, the size of chunks stays the same, and no count falls.
    ensures chunk_size { S.chunk_bytes result.stream ≡ S.chunk_bytes stream }
    ensures misses { D.misses depot.old ≤ D.misses depot.new }
    ensures read_faults { D.read_faults depot.old ≤ D.read_faults depot.new }
    ensures write_faults { D.write_faults depot.old ≤ D.write_faults depot.new }
    ensures aborts { S.aborts stream ≤ S.aborts result.stream }
    ensures stream_faults { S.stream_faults stream ≤ S.stream_faults result.stream }
    ensures out_faults { O.faults out.old ≤ O.faults out.new }
{
    match load(alloc, words, depot) {
        Ok(task) => work(alloc, task, depot, stream, out),
        Err(ending) => Ran {
            ending,
            schedules: Sequence::new(alloc),
            stream,
        },
    }
}

/// Does what the words say over any stream, and returns how that ended.
pub(crate) fn once<D: Depot, S: OutputStream, O: Sink, E: Sink>(
    alloc: Global,
    words: &[String],
    depot: &mut D,
    stream: S,
    out: &mut O,
    err: &mut E,
) -> Ran<S>
    ensures ending { IsEndedAs (map string_bytes words.now)
        (outside (D.held depot.old) (D.misses depot.old) (D.read_faults depot.old) (S.aborts stream) (S.stream_faults stream) (O.faults out.old) (D.write_faults depot.old))
        (outside (D.held depot.new) (D.misses depot.new) (D.read_faults depot.new) (S.aborts result.stream) (S.stream_faults result.stream) (O.faults out.new) (D.write_faults depot.new))
        result.ending }
    ensures command { (status_of result.ending ≡ 1) ⊎ ((status_of result.ending ≡ 6) ⊎ IsCommand (map string_bytes words.now)) }
    ensures readable { StopsReading (status_of result.ending) ⊎ MayReadAll (D.held depot.old) (map string_bytes words.now) }
    ensures said { IsSaid (map string_bytes words.now) (D.held depot.old) (status_of result.ending) (E.written err.old) (E.written err.new) (E.faults err.old) (E.faults err.new) }

    // What was done, what was put, and what has come out.
    ensures put { HasPut result.schedules (status_of result.ending) (D.held depot.old) (D.held depot.new) (D.write_faults depot.old) (D.write_faults depot.new) }
    ensures outcome { HasOutcome (map string_bytes words.now) (D.held depot.old) (status_of result.ending) result.schedules
        (outlets (S.parts stream) (S.aborts stream) (S.stream_faults stream) (O.written out.old) (O.faults out.old) (D.write_faults depot.old))
        (outlets (S.parts result.stream) (S.aborts result.stream) (S.stream_faults result.stream) (O.written out.new) (O.faults out.new) (D.write_faults depot.new)) }

    // Of what was handed in, the size of chunks stays the same, and no count falls.
    ensures chunk_size { S.chunk_bytes result.stream ≡ S.chunk_bytes stream }
    ensures misses { D.misses depot.old ≤ D.misses depot.new }
    ensures read_faults { D.read_faults depot.old ≤ D.read_faults depot.new }
    ensures write_faults { D.write_faults depot.old ≤ D.write_faults depot.new }
    ensures aborts { S.aborts stream ≤ S.aborts result.stream }
    ensures stream_faults { S.stream_faults stream ≤ S.stream_faults result.stream }
    ensures out_faults { O.faults out.old ≤ O.faults out.new }
    ensures err_faults { E.faults err.old ≤ E.faults err.new }
{
    let ran = load_and_work(alloc, words, depot, stream, out);
    let ending = report(alloc, ran.ending, err);
    Ran {
        ending,
        schedules: ran.schedules,
        stream: ran.stream,
    }
}

/// Does what the words of a command line say, and writes one line to `err` where the status is not
/// 0.
///
/// `run PROG EVERY [BUDGET [ENTRIES]]` reads the program under the name PROG, and runs it under a
/// clock that counts its steps as microseconds, with one session from the first step to the end. It
/// takes a sample after s steps, for each s that is a multiple of EVERY, from EVERY on. The run ends
/// with the guest, after BUDGET steps ([`BUDGET`](crate::BUDGET) where there is no such word), or
/// where its schedule has ENTRIES entries ([`ENTRIES`](crate::ENTRIES) where there is no such word).
/// It delivers the session's file to the stream, puts the text of the run's schedule into the depot
/// as `cpuprof-1.schedule`, prints to `out`, and returns the schedule.
///
/// `fold ITEMS` reads the item list under the name ITEMS, delivers the file of each session that the
/// list ends, in the order in which they end, and prints to `out`.
pub fn cpuprof_once<D: Depot, O: Sink, E: Sink>(
    alloc: Global,
    words: &[String],
    depot: &mut D,
    stream: Box<dyn OutputStream + Send>,
    out: &mut O,
    err: &mut E,
) -> Outcome
    ensures status { IsStatus result.status }

    // The words fit no command.
    ensures usage { result.status ≡ 1 → ¬ IsCommand (map string_bytes words.now) }
    ensures command { (result.status ≡ 1) ⊎ ((result.status ≡ 6) ⊎ IsCommand (map string_bytes words.now)) }

    // A text that the words name cannot be read: 2 for a program's text, 10 for an item list's.
    ensures refused { (kind : Kind) → result.status ≡ refusal_of kind → AsksForKind (map string_bytes words.now) kind (HoldsUnreadable (D.held depot.old)) }
    ensures readable { StopsReading result.status ⊎ MayReadAll (D.held depot.old) (map string_bytes words.now) }

    // A fault of what was handed in.
    ensures missing { result.status ≡ 3 → Rose (D.misses depot.old) (D.misses depot.new) }
    ensures absent { result.status ≡ 3 → AsksFor (map string_bytes words.now) (λ text. LacksFile (D.held depot.old) text.name) }
    ensures read_fault { result.status ≡ 4 → Rose (D.read_faults depot.old) (D.read_faults depot.new) }
    ensures write_fault { result.status ≡ 5 → Rose (stream_faults stream) (stream_faults result.stream) ⊎ (Rose (O.faults out.old) (O.faults out.new) ⊎ Rose (D.write_faults depot.old) (D.write_faults depot.new)) }
    ensures aborted { result.status ≡ 14 → Rose (aborts stream) (aborts result.stream) }

    // A guest's own end: it trapped, its budget of steps was spent, or its schedule was full.
    ensures trapped { result.status ≡ 7 → AsksToRun (map string_bytes words.now) }
    ensures spent { result.status ≡ 8 → AsksToRun (map string_bytes words.now) }
    ensures full { result.status ≡ 13 → AsksToRun (map string_bytes words.now) }

    // What the words ask for was done, and what came of it was handed out: the files through the
    // stream, the text through `out`, and the schedules. Or nothing was done, and nothing came out.
    // Or memory ran out in a run, none of whose files was delivered.
    ensures outcome { HasOutcome (map string_bytes words.now) (D.held depot.old) result.status result.schedules
        (outlets (parts stream) (aborts stream) (stream_faults stream) (O.written out.old) (O.faults out.old) (D.write_faults depot.old))
        (outlets (parts result.stream) (aborts result.stream) (stream_faults result.stream) (O.written out.new) (O.faults out.new) (D.write_faults depot.new)) }

    // Where the depot's files can be observed, the words are a line of the table, their texts are there
    // and can be read, and no fault was counted: it was done, and the status is as it is due, or
    // memory ran out.
    ensures complete { (files : FileMap) → D.held depot.old ≡ Some files → IsCommand (map string_bytes words.now) → MayReadAll (D.held depot.old) (map string_bytes words.now)
        → HasNoFault (outside (D.held depot.old) (D.misses depot.old) (D.read_faults depot.old) (aborts stream) (stream_faults stream) (O.faults out.old) (D.write_faults depot.old))
        (outside (D.held depot.new) (D.misses depot.new) (D.read_faults depot.new) (aborts result.stream) (stream_faults result.stream) (O.faults out.new) (D.write_faults depot.new))
        → IsComplete (map string_bytes words.now) (D.held depot.old) result.status result.schedules }

    // The schedule of a run.
    ensures ran { AsksToRun (map string_bytes words.now) → IsAfterWork result.status → length result.schedules ≡ 1 }
    ensures stopped { IsBeforeWork result.status → result.schedules ≡ [] }
    ensures one { length result.schedules ≤ 1 }
    ensures legal { AllByRecursion IsLegalSchedule result.schedules }
    ensures fits { AllByRecursion (λ schedule. OfRun (map string_bytes words.now) (D.held depot.old) (λ funcs options. Fits funcs schedule)) result.schedules }
    ensures head { AllByRecursion (λ schedule. OfRun (map string_bytes words.now) (D.held depot.old) (λ funcs options. IsHead options schedule)) result.schedules }
    ensures clock { (result.status ≡ 6) ⊎ AllByRecursion (λ schedule. OfRun (map string_bytes words.now) (D.held depot.old)
        (λ funcs options. IsStepClock funcs options.every options.budget options.entries schedule.entries)) result.schedules }

    // The text of the schedule of a run is put into the depot. All other files of the depot stay, and
    // where nothing was run, all do.
    ensures put { HasPut result.schedules result.status (D.held depot.old) (D.held depot.new) (D.write_faults depot.old) (D.write_faults depot.new) }

    // The line of error.
    ensures said { IsSaid (map string_bytes words.now) (D.held depot.old) result.status (E.written err.old) (E.written err.new) (E.faults err.old) (E.faults err.new) }

    // What was handed in is returned: the size of chunks stays the same, and no count falls.
    ensures chunk_size { chunk_bytes result.stream ≡ chunk_bytes stream }
    ensures misses { D.misses depot.old ≤ D.misses depot.new }
    ensures read_faults { D.read_faults depot.old ≤ D.read_faults depot.new }
    ensures write_faults { D.write_faults depot.old ≤ D.write_faults depot.new }
    ensures aborts { aborts stream ≤ aborts result.stream }
    ensures stream_faults { stream_faults stream ≤ stream_faults result.stream }
    ensures out_faults { O.faults out.old ≤ O.faults out.new }
    ensures err_faults { E.faults err.old ≤ E.faults err.new }
{
    let ran = once(alloc, words, depot, stream, out, err);
    Outcome {
        status: ran.ending.status(),
        schedules: ran.schedules,
        stream: ran.stream,
    }
}
