// A schedule as it is read.
ghost use Rattle.std.specs.Prelude.{◌≡◌, ◌<◌, ◌+◌, ◌-◌, ◌^◌, [], ◌∷◌, ◌++◌, true, None, IfOk, if◌then◌else◌};
ghost use Rattle.prof_lines.specs.Answers.{Gives};
ghost use Rattle.run_schedule.specs.Schedule.{is_sampled, has_end};
ghost use Rattle.record_text.specs.declared.schedule_line.ScheduleLine.TheVariants.{Head, Entry};
ghost use Rattle.record_text.specs.ScheduleLine.{IsHead, IsEntry};
ghost use Rattle.record_text.specs.ScheduleDraft.{AreInOrder};
ghost use Rattle.record_text.specs.ScheduleTexts.{schedule_lines, entries_of, fault_after, schedule_next};

use crate::rule::Rule;
use crate::schedule_form::entry;
use crate::schedule_line::ScheduleHead;
use crate::schedule_rules::{is_end, is_in_order, is_within_limits};
use crate::schedule_sessions::ScheduleSessions;
use prof_base::Memory;
use prof_lines::{Cause, LineFault};
use run_schedule::{Schedule, ScheduleEntry, What};
use std::alloc::Global;
use std::marker::Model;

// How many samples were taken, with what happened next.
fn counted(sampled: u32, what: What) -> u32
    requires { sampled < 2 ^ 32 - 1 }
    ensures { result ≡ sampled + (if is_sampled what then 1 else 0) }
{
    match what {
        What::Sampled => sampled + 1,
        What::Dropped => sampled,
        What::Start(_) => sampled,
        What::Stop { .. } => sampled,
        What::End(_) => sampled,
    }
}

// Whether there is an end among these entries. Nothing follows an end, so that it is the last.
fn has_end(entries: &[ScheduleEntry]) -> bool
    requires { AreInOrder entries.now }
    ensures { result ≡ has_end entries.now }
{
    match entries.split_last() {
        None => false,
        Some((last, _)) => is_end(last.what),
    }
}

#[derive(Drop)]
pub(crate) struct ScheduleDraft {
    schedule: Schedule,
    // How many samples were taken.
    sampled: u32,
    sessions: ScheduleSessions,
}

impl Model for ScheduleDraft {
    ghost use Rattle.std.specs.Prelude.{List};
    ghost use Rattle.record_text.specs.declared.schedule_line.ScheduleLine.{ScheduleLine};
    ghost use Rattle.record_text.specs.ScheduleDraft.{IsKept};
    ghost use Rattle.record_text.specs.ScheduleTexts.{schedule_lines};

    ghost Value = { List ScheduleLine };

    ghost view = { λ d. schedule_lines d.schedule };

    ghost invariant = { λ d. IsKept d.schedule d.sampled d.sessions };
}

impl ScheduleDraft {
    /// The first line. It allocates the memory for all entries.
    pub(crate) fn new(alloc: Global, head: ScheduleHead) -> Result<ScheduleDraft, Memory>
        requires { IsHead head }
        ensures { IfOk result (λ draft. draft ≡ Head head ∷ []) }
    {
        let schedule = Schedule::new(alloc, head.base, head.ring, head.budget, head.limit)?;
        Ok(ScheduleDraft {
            schedule,
            sampled: 0,
            sessions: ScheduleSessions::new(alloc),
        })
    }

    // The first rule that the entry breaks.
    fn fault(&self, entry: &ScheduleEntry) -> Option<Cause<Rule>>
        ensures { result ≡ fault_after self.now (Entry entry.now) }
    {
        if !is_in_order(self.schedule.entries(), entry) {
            Some(Cause::Own(Rule::Order))
        } else if !self.sessions.has_session(entry.what) {
            Some(Cause::Own(Rule::Session))
        } else if !is_within_limits(&self.schedule, self.sampled, entry.step, entry.what) {
            Some(Cause::Own(Rule::Limit))
        } else {
            None
        }
    }

    fn with(self, entry: ScheduleEntry) -> Result<ScheduleDraft, Memory>
        requires fault { fault_after self (Entry entry) ≡ None }
        requires fits { IsEntry entry }
        ensures { IfOk result (λ draft. draft ≡ self ++ Entry entry ∷ []) }
    {
        let ScheduleDraft {
            schedule,
            sampled,
            sessions,
        } = self;
        let sessions = sessions.after(entry.what)?;
        let sampled = counted(sampled, entry.what);
        let mut schedule = schedule;
        schedule.enter(entry);
        Ok(ScheduleDraft {
            schedule,
            sampled,
            sessions,
        })
    }

    /// The lines so far and the next one.
    pub(crate) fn next(self, bytes: &[u8]) -> Result<ScheduleDraft, LineFault<Rule>>
        ensures { Gives (λ draft. draft) result (schedule_next self bytes.now) }
    {
        let entry = entry(bytes)?;
        match self.fault(&entry) {
            Some(cause) => Err(LineFault::At(cause)),
            None => Ok(self.with(entry)?),
        }
    }

    /// Returns whether the text may end here.
    pub(crate) fn has_end(&self) -> bool
        ensures { result ≡ has_end (entries_of self.now) }
    {
        has_end(self.schedule.entries())
    }

    /// The schedule that the lines spell.
    pub(crate) fn into_schedule(self) -> Schedule
        ensures { schedule_lines result ≡ self }
    {
        self.schedule
    }
}
