// The rules of schedules, as tests of the entry that comes next.
ghost use Rattle.std.specs.Prelude.{◌≡◌};
ghost use Rattle.run_schedule.specs.Schedule.{is_sample, is_end};
ghost use Rattle.run_schedule.specs.ScheduleParts.{port_of};
ghost use Rattle.record_text.specs.ScheduleRules.{has_later_port, may_share_step, may_stand_behind, is_in_order, sampled_in, leaves_room, is_at_last_step, is_end_within, is_within_limits};
ghost use Rattle.record_text.specs.ScheduleDraft.{AreInOrder};

use run_schedule::{EndCause, Schedule, ScheduleEntry, What};

fn port_of(what: What) -> Option<u8>
    ensures { result ≡ port_of what }
{
    match what {
        What::Start(options) => Some(options.port),
        What::Stop { port, .. } => Some(port),
        What::Sampled => None,
        What::Dropped => None,
        What::End(_) => None,
    }
}

fn is_sample(what: What) -> bool
    ensures { result ≡ is_sample what }
{
    match what {
        What::Sampled => true,
        What::Dropped => true,
        What::Start(_) => false,
        What::Stop { .. } => false,
        What::End(_) => false,
    }
}

pub(crate) fn is_end(what: What) -> bool
    ensures { result ≡ is_end what }
{
    match what {
        What::End(_) => true,
        What::Sampled => false,
        What::Dropped => false,
        What::Start(_) => false,
        What::Stop { .. } => false,
    }
}

fn has_later_port(earlier: Option<u8>, later: Option<u8>) -> bool
    ensures { result ≡ has_later_port earlier later }
{
    match (earlier, later) {
        (Some(earlier), Some(later)) => earlier <= later,
        (Some(_), None) => true,
        (None, _) => true,
    }
}

fn may_share_step(before: What, what: What) -> bool
    ensures { result ≡ may_share_step before what }
{
    (!is_sample(before) || is_end(what)) && has_later_port(port_of(before), port_of(what))
}

fn may_stand_behind(entry: &ScheduleEntry, before: &ScheduleEntry) -> bool
    ensures { result ≡ may_stand_behind entry.now before.now }
{
    before.step <= entry.step
        && before.time.value() <= entry.time.value()
        && !is_end(before.what)
        && (before.step != entry.step || may_share_step(before.what, entry.what))
}

/// Returns whether the entry keeps the rule of order after all of these. They keep it among
/// themselves, so that the last of them decides.
pub(crate) fn is_in_order(entries: &[ScheduleEntry], entry: &ScheduleEntry) -> bool
    requires { AreInOrder entries.now }
    ensures { result ≡ is_in_order entries.now entry.now }
{
    match entries.split_last() {
        None => true,
        Some((last, _)) => may_stand_behind(entry, last),
    }
}

fn leaves_room(schedule: &Schedule, step: u64) -> bool
    ensures { result ≡ leaves_room schedule.now step }
{
    schedule.entries().len() + 1 < schedule.limit() as usize && step < schedule.budget()
}

fn is_at_last_step(entries: &[ScheduleEntry], step: u64) -> bool
    ensures { result ≡ is_at_last_step entries.now step }
{
    match entries.split_last() {
        None => true,
        Some((last, _)) => last.step == step,
    }
}

fn is_end_within(schedule: &Schedule, step: u64, cause: EndCause) -> bool
    ensures { result ≡ is_end_within schedule.now step cause }
{
    let number = schedule.entries().len() + 1;
    let limit = schedule.limit() as usize;
    match cause {
        EndCause::Full => {
            number == limit
                && is_at_last_step(schedule.entries(), step)
                && step <= schedule.budget()
        }
        EndCause::Budget => number < limit && step == schedule.budget(),
        EndCause::Halt => number < limit && step <= schedule.budget(),
        EndCause::Overflow => number < limit && step <= schedule.budget(),
        EndCause::OffEnd => number < limit && step <= schedule.budget(),
        EndCause::Memory => number < limit && step <= schedule.budget(),
    }
}

/// Returns whether what happens next, at this step, keeps the limits after the entries of the
/// schedule so far, of which `sampled` are samples that were taken.
pub(crate) fn is_within_limits(schedule: &Schedule, sampled: u32, step: u64, what: What) -> bool
    requires { sampled ≡ sampled_in schedule.now.entries }
    ensures { result ≡ is_within_limits schedule.now step what }
{
    match what {
        What::Dropped => leaves_room(schedule, step) && schedule.ring() <= sampled,
        What::End(cause) => is_end_within(schedule, step, cause),
        What::Sampled => leaves_room(schedule, step),
        What::Start(_) => leaves_room(schedule, step),
        What::Stop { .. } => leaves_room(schedule, step),
    }
}
