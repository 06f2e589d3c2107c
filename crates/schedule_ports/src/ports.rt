// The ports of a schedule.
ghost use Rattle.std.specs.Prelude.{◌≡◌, ◌++◌, [], ◌∷◌, drop, map, Some, if◌then◌else◌};
ghost use Rattle.isolate_ends.specs.Ports.{IsOfPort};
ghost use Rattle.port_calls.specs.PortCalls.{call_of};
ghost use Rattle.run_schedule.specs.Schedule.{is_sample};
ghost use Rattle.schedule_ports.specs.ScheduleCalls.{AreBySchedule, by_schedule, command_at, command_of, is_asked_at, is_dropped_at, is_ended, left_after, left_of, next_of, time_next, without_next};
ghost use Rattle.schedule_ports.specs.ScheduleNumbers.{schedule_numbers};

use code_event::{Answer, Command};
use history::History;
use isolate_ends::IsoPorts;
use port_calls::PortCall;
use prof_base::Memory;
use run_schedule::{Schedule, ScheduleEntry, What};
use std::alloc::Global;

/// The place of the entry that comes next, and the calls so far, which only proofs read.
#[derive(Drop)]
pub struct Place {
    next: usize,
    pub history: History<PortCall>,
}

/// The ports of a run that does what a schedule says. A port gives a command where it comes next at the
/// step that is reached, a sample is asked for where one comes next there, and the time is that of the
/// entry that comes next, which is then used up.
#[derive(Drop)]
pub struct SchedulePorts {
    schedule: Schedule,
    pub place: Place,
    pub ghost left: { left_of schedule place.history.items ≡ drop place.next schedule.entries },
    pub ghost by_schedule: { AreBySchedule schedule.entries (map call_of place.history.items) },
}

// Returns the command that this records, if it is one and the port gave it.
fn command_of(what: What, port: u8) -> Option<Command>
    ensures of { result ≡ command_of port what }
    ensures own { IsOfPort port result }
{
    match what {
        What::Start(options) => {
            if options.port == port {
                Some(Command::Start(options))
            } else {
                None
            }
        }
        What::Stop {
            port: from,
            session,
        } => {
            if from == port {
                Some(Command::Stop(session))
            } else {
                None
            }
        }
        What::Sampled | What::Dropped | What::End(_) => None,
    }
}

// Returns the command that a port gives after this many steps, where this entry comes next.
fn command_at(next: Option<ScheduleEntry>, port: u8, step: u64) -> Option<Command>
    ensures at { result ≡ command_at port step next }
    ensures own { IsOfPort port result }
{
    match next {
        Some(entry) => {
            if entry.step == step {
                command_of(entry.what, port)
            } else {
                None
            }
        }
        None => None,
    }
}

fn is_sample(what: What) -> bool
    ensures { result ≡ is_sample what }
{
    matches!(what, What::Sampled | What::Dropped)
}

// Returns whether a sample is asked for after this many steps, where this entry comes next.
fn is_asked_at(next: Option<ScheduleEntry>, step: u64) -> bool
    ensures { result ≡ is_asked_at step next }
{
    match next {
        Some(entry) => entry.step == step && is_sample(entry.what),
        None => false,
    }
}

// Returns the time in microseconds, where this entry comes next.
fn time_next(next: Option<ScheduleEntry>) -> u64
    ensures { result ≡ time_next next }
{
    match next {
        Some(entry) => entry.time.value(),
        None => 0,
    }
}

fn is_ended(answer: Answer) -> bool
    ensures { result ≡ is_ended answer }
{
    matches!(answer, Answer::Ended)
}

// Returns whether the first sample of this step, of the entries from this place on, is dropped.
fn is_dropped_from(entries: &[ScheduleEntry], from: usize, step: u64) -> bool
    ensures { result ≡ is_dropped_at step (drop from entries.now) }
{
    for at in from..entries.len() {
        let entry = entries[at];
        if entry.step != step {
            return false;
        }
        if is_sample(entry.what) {
            return matches!(entry.what, What::Dropped);
        }
    }
    false
}

impl SchedulePorts {
    /// Makes the ports of a run by this schedule, before any call.
    pub fn new(schedule: Schedule) -> SchedulePorts
        ensures schedule { result.schedule ≡ schedule }
        ensures new { result.place.history.items ≡ [] }
    {
        SchedulePorts {
            schedule,
            place: Place {
                next: 0,
                history: History::new(),
            },
        }
    }

    /// Returns whether the sample that the schedule has at this step is dropped: the ring is then to
    /// refuse it.
    pub fn drops_at(&self, step: u64) -> bool
        ensures { result ≡ is_dropped_at step (left_of self.now.schedule self.now.place.history.items) }
    {
        is_dropped_from(self.schedule.entries(), self.place.next, step)
    }

    /// Returns the schedule.
    pub fn schedule(&self) -> &Schedule
        ensures { result.now ≡ self.now.schedule }
    {
        &self.schedule
    }

    /// Gives the schedule back.
    pub fn into_schedule(self) -> Schedule
        ensures { result ≡ self.schedule }
    {
        let SchedulePorts { schedule, .. } = self;
        schedule
    }

    // Returns the entry that comes next, if any is left.
    fn next_entry(&self) -> Option<ScheduleEntry>
        ensures { result ≡ next_of (left_of self.now.schedule self.now.place.history.items) }
    {
        self.schedule.entries().get(self.place.next).copied()
    }

    // Returns the place after the entry that comes next.
    fn past_next(&self) -> usize
        ensures { drop result self.now.schedule.entries ≡ without_next (left_of self.now.schedule self.now.place.history.items) }
    {
        if self.place.next < self.schedule.entries().len() {
            self.place.next + 1
        } else {
            self.place.next
        }
    }

    // Returns the place after an answer: behind all entries where the isolate has ended.
    fn past_answer(&self, answer: Answer) -> usize
        ensures { drop result self.now.schedule.entries ≡ (if is_ended answer then [] else left_of self.now.schedule self.now.place.history.items) }
    {
        if is_ended(answer) {
            self.schedule.entries().len()
        } else {
            self.place.next
        }
    }

    // Adds a call to the history, after which the entry at this place comes next.
    fn note(&mut self, call: PortCall, next: usize)
        requires by_schedule { call_of call ≡ by_schedule (left_of self.old.schedule self.old.place.history.items) (call_of call) }
        requires left { drop next self.old.schedule.entries ≡ left_after (left_of self.old.schedule self.old.place.history.items) (call_of call) }
        ensures schedule { self.new.schedule ≡ self.old.schedule }
        ensures calls { map call_of self.new.place.history.items ≡ map call_of self.old.place.history.items ++ call_of call ∷ [] }
    {
        self.place = Place {
            next,
            history: self.place.history.with(&call),
        };
    }
}

impl IsoPorts for SchedulePorts {
    ghost calls = { λ c. Some (map call_of c.place.history.items) };

    ghost ports_home = { λ c. schedule_numbers c.schedule };

    fn command(&mut self, port: u8, step: u64) -> Option<Command> {
        let given = command_at(self.next_entry(), port, step);
        let next = self.place.next;
        self.note(PortCall::Commanded { port, step, given }, next);
        given
    }

    fn answer(
        &mut self,
        _alloc: Global,
        port: u8,
        answer: Answer,
        place: u32,
    ) -> Result<(), Memory> {
        let next = self.past_answer(answer);
        let call = PortCall::Answered {
            port,
            answer,
            place,
            is_taken: true,
        };
        self.note(call, next);
        Ok(())
    }

    fn asked(&mut self, step: u64) -> bool {
        let result = is_asked_at(self.next_entry(), step);
        let next = self.place.next;
        self.note(PortCall::Asked { step, result }, next);
        result
    }

    fn now(&mut self, step: u64) -> u64 {
        let now = time_next(self.next_entry());
        let next = self.past_next();
        self.note(PortCall::Read { step, now }, next);
        now
    }

    fn set_interval(&mut self, interval: u32) {
        let next = self.place.next;
        self.note(PortCall::Told { interval }, next);
    }
}
