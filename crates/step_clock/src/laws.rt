//! Laws of the step clock. Each function does nothing: its contract is the law.
ghost use Rattle.step_clock.specs.ClockLaws.{ClocksAreLegal, ClocksFit, ClocksRun, ClocksAgree};
ghost use Rattle.step_clock.specs.ClockTurns.{TurnsLeaveNoFile, TurnsStayOnClock};

/// For every program and every interval, with a budget of at least 1 step and a limit of at least 2
/// entries, a schedule of the step clock keeps the rules of schedules, and the program reaches each
/// of its entries.
pub fn the_step_clock_keeps_the_rules()
    ensures legal { ClocksAreLegal }
    ensures fits { ClocksFit }
{}

/// For every program, every interval from 1 to `MAX_INTERVAL`, every budget and every limit, a run
/// under the step clock has a schedule. It has no other: whatever the interval, the budget and the
/// limit, a run has at most one.
pub fn the_step_clock_has_one_schedule()
    ensures one { ClocksRun }
    ensures no_other { ClocksAgree }
{}

/// A turn of an isolate over the ports of the step clock, of which no sample is dropped, stays on the
/// clock: either the isolate goes on and its entries are those of the clock so far, or it has ended and
/// its schedule is the one of the step clock, unless memory ran out. It raises nothing that leaves a
/// file until the isolate ends.
pub fn turns_stay_on_the_clock()
    ensures stay { TurnsStayOnClock }
    ensures no_file { TurnsLeaveNoFile }
{}
