// How a run is due to end, by its schedule.
ghost use Rattle.std.specs.Prelude.{◌≡◌};
ghost use Rattle.prof_top.specs.Ending.{due_for, due_at, due_of};

use crate::ending::{Ending, Trap};
use run_schedule::{EndCause, ScheduleEntry, What};

fn due_for(step: u64, cause: EndCause) -> Ending
    ensures { result ≡ due_for step cause }
{
    match cause {
        EndCause::Halt => Ending::Done,
        EndCause::Overflow => Ending::Trapped {
            trap: Trap::Overflow,
            step,
        },
        EndCause::OffEnd => Ending::Trapped {
            trap: Trap::OffEnd,
            step,
        },
        EndCause::Budget => Ending::BudgetSpent { steps: step },
        EndCause::Full => Ending::ScheduleFull,
        EndCause::Memory => Ending::Memory,
    }
}

fn due_at(entry: &ScheduleEntry) -> Ending
    ensures { result ≡ due_at entry.now.step entry.now.what }
{
    match entry.what {
        What::End(cause) => due_for(entry.step, cause),
        What::Sampled | What::Dropped | What::Start(_) | What::Stop { .. } => Ending::Done,
    }
}

/// Returns how a run with these entries in its schedule is due to end: as the last of them says.
pub(crate) fn due_of(entries: &[ScheduleEntry]) -> Ending
    ensures { result ≡ due_of entries.now }
{
    match entries.last() {
        Some(last) => due_at(last),
        None => Ending::Done,
    }
}
