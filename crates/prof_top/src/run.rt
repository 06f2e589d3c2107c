// A run: the guest on the step clock, the delivery of its file, its schedule, and the text that is
// printed.
ghost use Rattle.std.specs.Prelude.{◌≡◌, ◌≤◌, ◌⊎◌, ◌++◌, ℕ, [], List, IsErrOf, vec_capacity};
ghost use Rattle.guest_program.specs.declared.instr.Func.{Func};
ghost use Rattle.prof_base.specs.Causes.{Rose};
ghost use Rattle.processor.specs.Filing.{answer_of};
ghost use Rattle.raised_so_far.specs.Raised.{EndsFor};
ghost use Rattle.run_schedule.specs.Schedule.{IsLegalSchedule};
ghost use Rattle.one_thread.specs.UnderWay.{Outlet};
ghost use Rattle.clock_run.specs.Run.{HasEnded};
ghost use Rattle.prof_top.specs.Ending.{status_of, due_of, IsDue, IsWorkEnding};
ghost use Rattle.prof_top.specs.HandedOut.{HandsOut, outlets};
ghost use Rattle.prof_top.specs.Outcome.{IsWorked};
ghost use Rattle.prof_top.specs.PrintedText.{schedule_lines};
ghost use Rattle.prof_top.specs.Product.{MayBeDue};
ghost use Rattle.prof_top.specs.PutText.{IsTextPut, HasPut};
ghost use Rattle.prof_top.specs.RunSchedule.{config_of};
ghost use Rattle.prof_top.specs.Task.{AreOptions};
ghost use Rattle.prof_top.specs.declared.load.Task.TheVariants as task;

use crate::due::due_of;
use crate::ending::Ending;
use crate::printing::run_lines;
use crate::printout::print_out;
use crate::putting::{after_put, put_schedule};
use crate::words::RunOptions;
use clock_run::{ClockRun, run_on_clock};
use guest_program::Program;
use isolate_turns::IsoConfig;
use one_thread::OneThread;
use out_stream::{OutputStream, Undelivered};
use prof_base::Sequence;
use prof_outer::{Depot, PutFault, Sink};
use run_schedule::{DEFAULT_RING, EndCause, Schedule};
use std::alloc::Global;

/// The result of a call: how it ended, the schedules of the runs that took place, and the stream that
/// it was given.
#[derive(Drop)]
pub(crate) struct Ran<S: OutputStream> {
    pub(crate) ending: Ending,
    pub(crate) schedules: Sequence<Schedule>,
    pub(crate) stream: S,
}

// Prints what a run has to say, by how its schedule was put, and returns how the call ends but for
// that. It does nothing once memory has run out.
fn print_run<S: OutputStream, O: Sink>(
    alloc: Global,
    put: Result<(), PutFault>,
    thread: &OneThread<S>,
    out: &mut O,
) -> Ending
    requires { IsDue (due_of thread.now.isolate.progress.schedule.entries) }
    // How it may end, and the cause of each.
    ensures ending { IsWorkEnding result }
    ensures due { IsDue result → result ≡ due_of thread.now.isolate.progress.schedule.entries }
    ensures cannot_write { result ≡ Ending.CannotWrite → IsErrOf (answer_of thread.now.processor.course.filing.delivery thread.now.processor.course.filing.is_spent) Undelivered.Failed ⊎ Rose (O.faults out.old) (O.faults out.new) }
    ensures aborted { result ≡ Ending.Aborted → IsErrOf (answer_of thread.now.processor.course.filing.delivery thread.now.processor.course.filing.is_spent) Undelivered.Aborted }
    ensures faults { O.faults out.old ≤ O.faults out.new }

    // Where memory ran out in the put, nothing is printed.
    ensures room { IsErrOf put PutFault.Memory → O.written out.new ≡ O.written out.old }

    // What has come out, whatever else was written.
    ensures handed { (write_faults write_faults' : ℕ) → HandsOut (answer_of thread.now.processor.course.filing.delivery thread.now.processor.course.filing.is_spent) (due_of thread.now.isolate.progress.schedule.entries)
        (thread.now.isolate.printed.items ++ schedule_lines thread.now.isolate.progress.schedule.entries) thread.now.processor.course.filing.notes (status_of result)
        (O.written out.old) (O.faults out.old) write_faults (O.written out.new) (O.faults out.new) write_faults' }
{
    if let Err(PutFault::Memory) = put {
        return Ending::Memory;
    }
    let Ok(lines) = run_lines(alloc, thread.printed(), thread.schedule()) else {
        return Ending::Memory;
    };
    let due = due_of(thread.schedule().entries());
    print_out(
        alloc,
        thread.delivered(),
        due,
        lines.as_slice(),
        thread.notes(),
        out,
    )
}

// Puts the schedule of a run that has ended, prints what the run has to say, and returns how the
// call ends.
fn put_and_print<D: Depot, S: OutputStream, O: Sink>(
    alloc: Global,
    thread: &OneThread<S>,
    depot: &mut D,
    out: &mut O,
) -> Ending
    requires due { IsDue (due_of thread.now.isolate.progress.schedule.entries) }
    requires legal { IsLegalSchedule thread.now.isolate.progress.schedule }
    // How it may end, and the cause of each.
    ensures ending { IsWorkEnding result }
    ensures due { IsDue result → result ≡ due_of thread.now.isolate.progress.schedule.entries }
    ensures cannot_write { result ≡ Ending.CannotWrite → IsErrOf (answer_of thread.now.processor.course.filing.delivery thread.now.processor.course.filing.is_spent) Undelivered.Failed ⊎ (Rose (O.faults out.old) (O.faults out.new) ⊎ Rose (D.write_faults depot.old) (D.write_faults depot.new)) }
    ensures aborted { result ≡ Ending.Aborted → IsErrOf (answer_of thread.now.processor.course.filing.delivery thread.now.processor.course.filing.is_spent) Undelivered.Aborted }

    // What was put, and what has come out.
    ensures put { IsTextPut thread.now.isolate.progress.schedule (status_of result) (D.held depot.old) (D.held depot.new) (D.write_faults depot.old) (D.write_faults depot.new) }
    ensures handed { HandsOut (answer_of thread.now.processor.course.filing.delivery thread.now.processor.course.filing.is_spent) (due_of thread.now.isolate.progress.schedule.entries)
        (thread.now.isolate.printed.items ++ schedule_lines thread.now.isolate.progress.schedule.entries) thread.now.processor.course.filing.notes (status_of result)
        (O.written out.old) (O.faults out.old) (D.write_faults depot.old) (O.written out.new) (O.faults out.new) (D.write_faults depot.new) }

    // The counts of reads stay, and no count falls.
    ensures misses { D.misses depot.new ≡ D.misses depot.old }
    ensures read_faults { D.read_faults depot.new ≡ D.read_faults depot.old }
    ensures write_faults { D.write_faults depot.old ≤ D.write_faults depot.new }
    ensures out_faults { O.faults out.old ≤ O.faults out.new }
{
    let put = put_schedule(alloc, thread.delivered(), thread.schedule(), depot);
    let ending = print_run(alloc, put, thread, out);
    after_put(ending, put)
}

// Puts the schedule of a run that has ended, prints what the run has to say, and returns its schedule
// and the stream. Where memory ran out in the run, it puts and prints nothing and returns no
// schedule.
fn report_run<D: Depot, S: OutputStream, O: Sink>(
    alloc: Global,
    run: ClockRun<S>,
    schedules: Vec<Schedule>,
    depot: &mut D,
    out: &mut O,
) -> Ran<S>
    requires ends { EndsFor run.why run.thread.isolate.progress.schedule.entries }
    requires legal { ¬ (run.why ≡ EndCause.Memory) → IsLegalSchedule run.thread.isolate.progress.schedule }
    requires none { schedules.items ≡ [] }
    requires room { 1 ≤ vec_capacity schedules }
    ensures ending { IsWorkEnding result.ending }
    ensures stream { result.stream ≡ run.thread.processor.stream }
    ensures due { (funcs : List Func) (options : RunOptions) (before now : Outlet) → HasEnded funcs (config_of options) run.why before now run.thread.isolate run.thread.processor
        → IsDue result.ending → MayBeDue (task.Run funcs options) result.ending }
    ensures cannot_write { (funcs : List Func) (options : RunOptions) (before now : Outlet) → HasEnded funcs (config_of options) run.why before now run.thread.isolate run.thread.processor
        → result.ending ≡ Ending.CannotWrite → Rose before.faults now.faults ⊎ (Rose (O.faults out.old) (O.faults out.new) ⊎ Rose (D.write_faults depot.old) (D.write_faults depot.new)) }
    ensures aborted { (funcs : List Func) (options : RunOptions) (before now : Outlet) → HasEnded funcs (config_of options) run.why before now run.thread.isolate run.thread.processor
        → result.ending ≡ Ending.Aborted → Rose before.aborts now.aborts }
    ensures put { HasPut result.schedules (status_of result.ending) (D.held depot.old) (D.held depot.new) (D.write_faults depot.old) (D.write_faults depot.new) }
    ensures worked { (funcs : List Func) (options : RunOptions) (before now : Outlet) → HasEnded funcs (config_of options) run.why before now run.thread.isolate run.thread.processor
        → IsWorked (task.Run funcs options) (status_of result.ending) result.schedules
        (outlets before.parts before.aborts before.faults (O.written out.old) (O.faults out.old) (D.write_faults depot.old))
        (outlets now.parts now.aborts now.faults (O.written out.new) (O.faults out.new) (D.write_faults depot.new)) }

    // The counts of reads stay, and no count falls.
    ensures misses { D.misses depot.new ≡ D.misses depot.old }
    ensures read_faults { D.read_faults depot.new ≡ D.read_faults depot.old }
    ensures write_faults { D.write_faults depot.old ≤ D.write_faults depot.new }
    ensures out_faults { O.faults out.old ≤ O.faults out.new }
{
    let ClockRun { thread, why } = run;
    if why == EndCause::Memory {
        let (_, stream) = thread.close();
        return Ran {
            ending: Ending::Memory,
            schedules: Sequence::from_vec(schedules),
            stream,
        };
    }
    let ending = put_and_print(alloc, &thread, depot, out);
    let (schedule, stream) = thread.close();
    let mut schedules = schedules;
    schedules.push_reserved(schedule);
    Ran {
        ending,
        schedules: Sequence::from_vec(schedules),
        stream,
    }
}

/// Runs the program under the step clock, within the limits of the options, with one session from the
/// start to the end that samples at their interval. Delivers its file, puts its schedule into the
/// depot, and then prints to `out`.
pub(crate) fn run<D: Depot, S: OutputStream, O: Sink>(
    alloc: Global,
    program: Program,
    options: RunOptions,
    stream: S,
    depot: &mut D,
    out: &mut O,
) -> Ran<S>
    requires { AreOptions options }
    // How it may end, and the cause of each.
    ensures ending { IsWorkEnding result.ending }
    ensures due { IsDue result.ending → MayBeDue (task.Run program options) result.ending }
    ensures cannot_write { result.ending ≡ Ending.CannotWrite → Rose (S.stream_faults stream) (S.stream_faults result.stream) ⊎ (Rose (O.faults out.old) (O.faults out.new) ⊎ Rose (D.write_faults depot.old) (D.write_faults depot.new)) }
    ensures aborted { result.ending ≡ Ending.Aborted → Rose (S.aborts stream) (S.aborts result.stream) }

    // The schedule of the run, that its text was put, and what has come out of the run.
    ensures put { HasPut result.schedules (status_of result.ending) (D.held depot.old) (D.held depot.new) (D.write_faults depot.old) (D.write_faults depot.new) }
    ensures worked { IsWorked (task.Run program options) (status_of result.ending) result.schedules
        (outlets (S.parts stream) (S.aborts stream) (S.stream_faults stream) (O.written out.old) (O.faults out.old) (D.write_faults depot.old))
        (outlets (S.parts result.stream) (S.aborts result.stream) (S.stream_faults result.stream) (O.written out.new) (O.faults out.new) (D.write_faults depot.new)) }

    // The stream's size of chunks and the counts of reads stay the same, and no count falls.
    ensures chunk_size { S.chunk_bytes result.stream ≡ S.chunk_bytes stream }
    ensures misses { D.misses depot.new ≡ D.misses depot.old }
    ensures read_faults { D.read_faults depot.new ≡ D.read_faults depot.old }
    ensures write_faults { D.write_faults depot.old ≤ D.write_faults depot.new }
    ensures aborts { S.aborts stream ≤ S.aborts result.stream }
    ensures stream_faults { S.stream_faults stream ≤ S.stream_faults result.stream }
    ensures out_faults { O.faults out.old ≤ O.faults out.new }
{
    let config = IsoConfig {
        base: options.every,
        ring: DEFAULT_RING,
        budget: options.budget,
        limit: options.entries,
    };
    let Ok(schedules) = Vec::with_capacity(alloc, 1) else {
        return Ran {
            ending: Ending::Memory,
            schedules: Sequence::new(alloc),
            stream,
        };
    };
    match run_on_clock(alloc, program, config, stream) {
        Ok(run) => report_run(alloc, run, schedules, depot, out),
        Err(stream) => Ran {
            ending: Ending::Memory,
            schedules: Sequence::new(alloc),
            stream,
        },
    }
}
