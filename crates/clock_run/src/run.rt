// A run on the step clock.
ghost use Rattle.std.specs.Prelude.{◌≡◌, ◌≤◌, List, [], map, false, IfOk, IfErr};
ghost use Rattle.prof_base.specs.declared.interval.TheConstants.{MAX_INTERVAL};
ghost use Rattle.guest_program.specs.declared.instr.Func.{Func};
ghost use Rattle.run_schedule.specs.declared.limits.TheConstants.{MAX_BUDGET, MAX_ENTRIES, MAX_RING, MIN_ENTRIES};
ghost use Rattle.isolate_turns.specs.declared.state.IsoConfig.{IsoConfig};
ghost use Rattle.step_clock.specs.ClockCalls.{begun_on};
ghost use Rattle.port_calls.specs.PortCalls.{call_of};
ghost use Rattle.one_thread.specs.UnderWay.{Outlet};
ghost use Rattle.clock_run.specs.Run.{HasEnded, IsGoing};

use guest_program::Program;
use isolate_turns::{IsoConfig, IsoTurn};
use one_thread::OneThread;
use out_stream::OutputStream;
use processor::NoPorts;
use prof_base::MAX_INTERVAL;
use run_schedule::{EndCause, MAX_BUDGET, MAX_ENTRIES, MAX_RING, MIN_ENTRIES};
use std::alloc::Global;
use step_clock::StepClock;

/// A run that has ended.
#[derive(Drop)]
pub struct ClockRun<S> {
    pub thread: OneThread<S>,
    /// Why it ended.
    pub why: EndCause,
}

// Turns both sides until the isolate ends, and returns why.
fn turn_to_end<S: OutputStream>(thread: &mut OneThread<S>, clock: &mut StepClock) -> EndCause
    requires going { (funcs : List Func) × (config : IsoConfig) × (before : Outlet) × (clock.old.recording.interval ≡ config.base)
        × IsGoing funcs config clock.old.recording (begun_on false (map call_of clock.old.history.items)) before (record { parts = S.parts thread.old.processor.stream; aborts = S.aborts thread.old.processor.stream; faults = S.stream_faults thread.old.processor.stream; chunk_bytes = S.chunk_bytes thread.old.processor.stream }) thread.old.isolate thread.old.processor }
    ensures ended { (funcs : List Func) (config : IsoConfig) (before : Outlet) → clock.old.recording.interval ≡ config.base
        → IsGoing funcs config clock.old.recording (begun_on false (map call_of clock.old.history.items)) before (record { parts = S.parts thread.old.processor.stream; aborts = S.aborts thread.old.processor.stream; faults = S.stream_faults thread.old.processor.stream; chunk_bytes = S.chunk_bytes thread.old.processor.stream }) thread.old.isolate thread.old.processor
        → HasEnded funcs config result before (record { parts = S.parts thread.new.processor.stream; aborts = S.aborts thread.new.processor.stream; faults = S.stream_faults thread.new.processor.stream; chunk_bytes = S.chunk_bytes thread.new.processor.stream }) thread.new.isolate thread.new.processor }
{
    loop {
        match thread.turn(clock, &mut NoPorts) {
            IsoTurn::Ran => {}
            IsoTurn::Ended(why) => return why,
        }
    }
}

/// Runs the program on the step clock to its end: one recording of all samples at this base
/// interval, from the first step on. Its file is delivered to the stream. Out of memory before the
/// first step, the stream comes back.
pub fn run_on_clock<S: OutputStream>(
    alloc: Global,
    program: Program,
    config: IsoConfig,
    stream: S,
) -> Result<ClockRun<S>, S>
    requires base_low { 1 ≤ config.base }
    requires base_high { config.base ≤ MAX_INTERVAL }
    requires ring_low { 1 ≤ config.ring }
    requires ring_high { config.ring ≤ MAX_RING }
    requires budget_low { 1 ≤ config.budget }
    requires budget_high { config.budget ≤ MAX_BUDGET }
    requires limit_low { MIN_ENTRIES ≤ config.limit }
    requires limit_high { config.limit ≤ MAX_ENTRIES }
    ensures ended { IfOk result (λ run. HasEnded program config run.why
        (record { parts = S.parts stream; aborts = S.aborts stream; faults = S.stream_faults stream; chunk_bytes = S.chunk_bytes stream })
        (record { parts = S.parts run.thread.processor.stream; aborts = S.aborts run.thread.processor.stream; faults = S.stream_faults run.thread.processor.stream; chunk_bytes = S.chunk_bytes run.thread.processor.stream })
        run.thread.isolate run.thread.processor) }
    ensures back { IfErr result (λ s. s ≡ stream) }
{
    let mut thread = OneThread::new(alloc, program, config, stream)?;
    let mut clock = StepClock::new(config.base);
    let why = turn_to_end(&mut thread, &mut clock);
    Ok(ClockRun { thread, why })
}
