//! Laws of the ports of a schedule. Each function does nothing: its contract is the law.
ghost use Rattle.schedule_ports.specs.ScheduleNumbers.{NumbersTellApart};
ghost use Rattle.schedule_ports.specs.ScheduleTurns.{OpeningsAreOnSchedule, TurnsStayOnSchedule};

/// A turn of an isolate over the ports of a schedule that its program can follow, of which a sample is
/// dropped exactly where the schedule drops it, stays on the schedule: either the isolate goes on, and
/// its entries and those that are left are the schedule's, or it has ended and its schedule is the
/// given one, unless memory ran out. An isolate that opens with the numbers of the schedule is on it.
pub fn turns_stay_on_the_schedule()
    ensures stay { TurnsStayOnSchedule }
    ensures opened { OpeningsAreOnSchedule }
{}

/// No two schedules have the same numbers.
pub fn numbers_tell_schedules_apart()
    ensures { NumbersTellApart }
{}
