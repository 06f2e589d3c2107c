// Schedules as their canonical text.
ghost use Rattle.std.specs.Prelude.{◌≡◌, ◌++◌, ◌∷◌, [], OnOk, IfOk, decimal};
ghost use Rattle.std.specs.List.{AllByRecursion};
ghost use Rattle.prof_lines.specs.Canonical.{further};
ghost use Rattle.run_schedule.specs.Schedule.{IsLegalSchedule};
ghost use Rattle.record_text.specs.Words.{mode_word, max_word, IsMax};
ghost use Rattle.record_text.specs.ScheduleLine.{cause_word, IsHead};
ghost use Rattle.record_text.specs.ScheduleSpelling.{head_text, what_text, entry_text, entries_text, FitsTypes, FitsWhat};
ghost use Rattle.record_text.specs.ScheduleTexts.{head_of, schedule_text, IsTextSchedule, SpellsSchedule};

use crate::words::{mode_word, put_max, put_number, put_word};
use code_event::Options;
use prof_base::{Memory, SessionId, put_decimal};
use run_schedule::{EndCause, Schedule, ScheduleEntry, What};
use std::alloc::Global;

fn cause_word(cause: EndCause) -> &'static [u8]
    ensures { result.now ≡ cause_word cause }
{
    match cause {
        EndCause::Halt => b"halt",
        EndCause::Overflow => b"overflow",
        EndCause::OffEnd => b"offend",
        EndCause::Budget => b"budget",
        EndCause::Full => b"full",
        EndCause::Memory => b"memory",
    }
}

fn put_start(out: &mut Vec<u8>, options: Options) -> Result<(), Memory>
    ensures text { OnOk result (out.new.items ≡ out.old.items ++ what_text (What.Start options)) }
    ensures most { OnOk result (IsMax options.max_samples) }
{
    put_word(out, b"start")?;
    put_number(out, u64::from(options.port))?;
    put_number(out, u64::from(options.interval))?;
    put_word(out, mode_word(options.mode))?;
    put_max(out, options.max_samples)
}

fn put_stop(out: &mut Vec<u8>, port: u8, session: SessionId) -> Result<(), Memory>
    ensures { OnOk result (out.new.items ≡ out.old.items ++ what_text (What.Stop port session)) }
{
    put_word(out, b"stop")?;
    put_number(out, u64::from(port))?;
    put_number(out, u64::from(session.0))
}

fn put_end(out: &mut Vec<u8>, cause: EndCause) -> Result<(), Memory>
    ensures { OnOk result (out.new.items ≡ out.old.items ++ what_text (What.End cause)) }
{
    put_word(out, b"end")?;
    put_word(out, cause_word(cause))
}

fn put_what(out: &mut Vec<u8>, what: What) -> Result<(), Memory>
    ensures text { OnOk result (out.new.items ≡ out.old.items ++ what_text what) }
    ensures types { OnOk result (FitsWhat what) }
{
    match what {
        What::Sampled => put_word(out, b"sampled"),
        What::Dropped => put_word(out, b"dropped"),
        What::Start(options) => put_start(out, options),
        What::Stop { port, session } => put_stop(out, port, session),
        What::End(cause) => put_end(out, cause),
    }
}

fn put_entry(out: &mut Vec<u8>, entry: &ScheduleEntry) -> Result<(), Memory>
    ensures text { OnOk result (out.new.items ≡ out.old.items ++ entry_text entry.now) }
    ensures types { OnOk result (FitsTypes entry.now) }
{
    put_decimal(out, entry.step)?;
    put_number(out, entry.time.value())?;
    put_what(out, entry.what)?;
    out.push(b'\n')?;
    Ok(())
}

fn put_entries(out: &mut Vec<u8>, entries: &[ScheduleEntry]) -> Result<(), Memory>
    ensures text { OnOk result (out.new.items ≡ out.old.items ++ entries_text entries.now) }
    ensures types { OnOk result (AllByRecursion FitsTypes entries.now) }
{
    for entry in entries {
        put_entry(out, entry)?;
    }
    Ok(())
}

fn put_head(out: &mut Vec<u8>, schedule: &Schedule) -> Result<(), Memory>
    ensures text { OnOk result (out.new.items ≡ out.old.items ++ head_text (head_of schedule.now)) }
    ensures ranges { OnOk result (IsHead (head_of schedule.now)) }
{
    out.extend_from_slice(b"schedule 1")?;
    put_number(out, u64::from(schedule.base()))?;
    put_number(out, u64::from(schedule.ring()))?;
    put_number(out, schedule.budget())?;
    put_number(out, u64::from(schedule.limit()))?;
    out.push(b'\n')?;
    Ok(())
}

/// Writes the canonical text of a schedule.
pub fn write_schedule(alloc: Global, schedule: &Schedule) -> Result<Vec<u8>, Memory>
    requires legal { IsLegalSchedule schedule.now }
    ensures text { IfOk result (λ text. text.items ≡ schedule_text schedule.now) }
    // The text's lines spell the schedule, and its numbers are in their ranges, so that it is read again as this schedule.
    ensures spells { IfOk result (λ text. SpellsSchedule text.items schedule.now) }
    ensures ranges { IfOk result (λ _. IsTextSchedule schedule.now) }
{
    let mut out = Vec::new(alloc);
    put_head(&mut out, schedule)?;
    put_entries(&mut out, schedule.entries())?;
    Ok(out)
}
