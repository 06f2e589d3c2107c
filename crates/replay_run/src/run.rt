// A run by a schedule.
ghost use Rattle.std.specs.Prelude.{◌≡◌, List, IfOk, IfErr};
ghost use Rattle.guest_program.specs.declared.instr.Func.{Func};
ghost use Rattle.schedule_ports.specs.ScheduleCalls.{left_of};
ghost use Rattle.schedule_ports.specs.ScheduleTurns.{MayReplay};
ghost use Rattle.one_thread.specs.UnderWay.{Outlet};
ghost use Rattle.replay_run.specs.Replaying.{HasReplayed, IsReplaying};

use guest_program::Program;
use isolate_turns::{IsoConfig, IsoTurn};
use one_thread::OneThread;
use out_stream::OutputStream;
use processor::NoPorts;
use run_schedule::{EndCause, Schedule};
use schedule_ports::SchedulePorts;
use std::alloc::Global;

/// A run by a schedule that has ended.
#[derive(Drop)]
pub struct Replay<S> {
    pub thread: OneThread<S>,
    /// The schedule that it followed.
    pub schedule: Schedule,
    /// Why it ended.
    pub why: EndCause,
}

// Turns both sides until the isolate ends, and returns why.
fn turn_to_end<S: OutputStream>(thread: &mut OneThread<S>, ports: &mut SchedulePorts) -> EndCause
    requires going { (funcs : List Func) × (before : Outlet)
        × IsReplaying funcs ports.old.schedule (left_of ports.old.schedule ports.old.place.history.items) before (record { parts = S.parts thread.old.processor.stream; aborts = S.aborts thread.old.processor.stream; faults = S.stream_faults thread.old.processor.stream; chunk_bytes = S.chunk_bytes thread.old.processor.stream }) thread.old.isolate thread.old.processor }
    requires first { thread.old.isolate.progress.step ≡ 0 }
    ensures ended { (funcs : List Func) (before : Outlet)
        → IsReplaying funcs ports.old.schedule (left_of ports.old.schedule ports.old.place.history.items) before (record { parts = S.parts thread.old.processor.stream; aborts = S.aborts thread.old.processor.stream; faults = S.stream_faults thread.old.processor.stream; chunk_bytes = S.chunk_bytes thread.old.processor.stream }) thread.old.isolate thread.old.processor
        → HasReplayed funcs ports.old.schedule result before (record { parts = S.parts thread.new.processor.stream; aborts = S.aborts thread.new.processor.stream; faults = S.stream_faults thread.new.processor.stream; chunk_bytes = S.chunk_bytes thread.new.processor.stream }) thread.new.isolate thread.new.processor }
    ensures schedule { ports.new.schedule ≡ ports.old.schedule }
{
    let mut step = 0u64;
    loop {
        thread.refuse_samples(ports.drops_at(step));
        match thread.turn(ports, &mut NoPorts) {
            IsoTurn::Ran => step += 1,
            IsoTurn::Ended(why) => return why,
        }
    }
}

/// Runs the program by a schedule to its end: its commands come from their ports, a sample is taken or
/// dropped where the schedule says so, and the times are those of its entries. The files are delivered
/// to the stream. Out of memory before the first step, the schedule and the stream come back.
pub fn replay_schedule<S: OutputStream>(
    alloc: Global,
    program: Program,
    schedule: Schedule,
    stream: S,
) -> Result<Replay<S>, (Schedule, S)>
    requires may { MayReplay program schedule }
    ensures replayed { IfOk result (λ replay. HasReplayed program schedule replay.why
        (record { parts = S.parts stream; aborts = S.aborts stream; faults = S.stream_faults stream; chunk_bytes = S.chunk_bytes stream })
        (record { parts = S.parts replay.thread.processor.stream; aborts = S.aborts replay.thread.processor.stream; faults = S.stream_faults replay.thread.processor.stream; chunk_bytes = S.chunk_bytes replay.thread.processor.stream })
        replay.thread.isolate replay.thread.processor) }
    ensures read { IfOk result (λ replay. replay.schedule ≡ schedule) }
    ensures schedule_back { IfErr result (λ back. back.0 ≡ schedule) }
    ensures stream_back { IfErr result (λ back. back.1 ≡ stream) }
{
    let config = IsoConfig {
        base: schedule.base(),
        ring: schedule.ring(),
        budget: schedule.budget(),
        limit: schedule.limit(),
    };
    let mut thread = match OneThread::new(alloc, program, config, stream) {
        Ok(thread) => thread,
        Err(stream) => return Err((schedule, stream)),
    };
    let mut ports = SchedulePorts::new(schedule);
    let why = turn_to_end(&mut thread, &mut ports);
    Ok(Replay {
        thread,
        schedule: ports.into_schedule(),
        why,
    })
}
