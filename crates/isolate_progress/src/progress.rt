// How far an isolate is.
ghost use Rattle.std.specs.Prelude.{◌≡◌, ◌↔◌, ◌+◌, ◌*◌, ◌^◌, ◌<◌, ◌≤◌, ◌==◌, [], None, Some, false, if◌then◌else◌, length, nat_lt, suc, true, IfOk, IsTrue};
ghost use Rattle.run_schedule.specs.declared.schedule.EndCause.TheVariants as cause;
ghost use Rattle.run_schedule.specs.declared.schedule.What.TheVariants as what;
ghost use Rattle.run_schedule.specs.ScheduleParts.{HasPort};
ghost use Rattle.run_schedule.specs.Schedule.{HasSession};
ghost use Rattle.isolate.specs.RunLaws.{last_time};
ghost use Rattle.isolate_acts.specs.Progress.{IsWithin, entry_count, entry_now, entry_time, goes_on, is_filled, next_session, running_now, some_runs, source_now, with_entry};
ghost use Rattle.isolate_acts.specs.Sampling.{after_sample};
ghost use Rattle.isolate_progress.specs.Held.{IsStartable};

use crate::sessions::Sessions;
use code_event::{MAX_SESSIONS, Options};
use prof_base::{MAX_INTERVAL, Memory, Micros, SessionId};
use run_schedule::{
    EndCause, MAX_BUDGET, MAX_ENTRIES, MAX_PORT, MAX_RING, MIN_ENTRIES, Schedule, ScheduleEntry,
    What,
};
use std::alloc::Global;
use std::marker::Model;

/// How far an isolate is: its schedule so far; how many steps were done, and how many events and ticks
/// were raised; whether a sample was entered at this step; and the cause of its end, if it has ended.
/// What is asked of the schedule is kept beside it, so that no call searches the entries: each takes
/// constant time, but for a start, a stop and [`IsoProgress::runs`], which go over the sessions that run.
#[derive(Debug, Drop)]
pub struct IsoProgress {
    schedule: Schedule,
    latest: Micros,
    sessions: Sessions,
    step: u64,
    events: u64,
    ticks: u64,
    is_sampled: bool,
    ending: Option<EndCause>,
}

impl Model for IsoProgress {
    ghost use Rattle.isolate_acts.specs.Progress.{Progress};
    ghost use Rattle.isolate_progress.specs.Held.{IsHeld};

    ghost Value = { Progress };

    ghost view = { λ p. record { schedule = p.schedule; step = p.step; events = p.events; ticks = p.ticks; is_sampled = p.is_sampled; ending = p.ending } };

    ghost invariant = { λ p. IsHeld (record { schedule = p.schedule; step = p.step; events = p.events; ticks = p.ticks; is_sampled = p.is_sampled; ending = p.ending }) p.latest p.sessions };
}

/// Returns 1 if it is so, else 0.
fn one_if(is_so: bool) -> u64
    ensures value { result ≡ (if is_so then 1 else 0) }
    ensures few { result ≤ 1 }
{
    if is_so { 1 } else { 0 }
}

impl IsoProgress {
    /// Makes the progress of an isolate that opens, with no entries and no steps done. One event was
    /// raised, by which the isolate opens. All memory that it will take is allocated here.
    pub fn new(
        alloc: Global,
        base: u32,
        ring: u32,
        budget: u64,
        limit: u32,
    ) -> Result<IsoProgress, Memory>
        requires base_low { 1 ≤ base }
        requires base_high { base ≤ MAX_INTERVAL }
        requires ring_low { 1 ≤ ring }
        requires ring_high { ring ≤ MAX_RING }
        requires budget_low { 1 ≤ budget }
        requires budget_high { budget ≤ MAX_BUDGET }
        requires limit_low { MIN_ENTRIES ≤ limit }
        requires limit_high { limit ≤ MAX_ENTRIES }
        ensures opening { IfOk result (λ p. p ≡ record { schedule = record { base = base; ring = ring; budget = budget; limit = limit; entries = [] }; step = 0; events = 1; ticks = 0; is_sampled = false; ending = None }) }
    {
        let schedule = Schedule::new(alloc, base, ring, budget, limit)?;
        let sessions = Sessions::new(alloc, base)?;
        Ok(IsoProgress {
            schedule,
            latest: Micros::new(0),
            sessions,
            step: 0,
            events: 1,
            ticks: 0,
            is_sampled: false,
            ending: None,
        })
    }

    /// Returns the schedule so far.
    pub fn schedule(&self) -> &Schedule
        ensures schedule { result.now ≡ self.now.schedule }
    {
        &self.schedule
    }

    /// Returns the schedule, and drops the rest.
    pub fn into_schedule(self) -> Schedule
        ensures schedule { result ≡ self.schedule }
    {
        let IsoProgress { schedule, .. } = self;
        schedule
    }

    /// Returns the number of steps that were done.
    pub fn step(&self) -> u64
        ensures value { result ≡ self.now.step }
        ensures within { IsWithin self.now }
    {
        self.step
    }

    /// Returns the number of events that were raised, the opening one among them.
    pub fn events(&self) -> u64
        ensures value { result ≡ self.now.events }
        ensures bound { result < 2 ^ 63 }
    {
        self.events
    }

    /// Returns the number of ticks that were raised.
    pub fn ticks(&self) -> u64
        ensures value { result ≡ self.now.ticks }
        ensures bound { result < 2 ^ 63 }
    {
        self.ticks
    }

    /// Returns whether a sample was entered at this step, taken or dropped.
    pub fn is_sampled(&self) -> bool
        ensures value { result ≡ self.now.is_sampled }
    {
        self.is_sampled
    }

    /// Returns the cause of the end, or none if no end was entered.
    pub fn ending(&self) -> Option<EndCause>
        ensures value { result ≡ self.now.ending }
    {
        self.ending
    }

    /// Returns whether no end was entered.
    pub fn goes_on(&self) -> bool
        ensures value { result ≡ goes_on self.now }
    {
        self.ending.is_none()
    }

    /// Returns whether just one place is left in the schedule.
    pub fn is_filled(&self) -> bool
        ensures value { result ≡ is_filled self.now }
    {
        self.entry_count() + 1 == self.schedule.limit()
    }

    /// Returns whether some session runs.
    pub fn some_runs(&self) -> bool
        ensures value { result ≡ some_runs self.now }
    {
        self.sessions.len() != 0
    }

    /// Returns whether a further session may run: at most [`MAX_SESSIONS`] run at once.
    pub fn may_start(&self) -> bool
        ensures value { result ≡ nat_lt (length (running_now self.now)) MAX_SESSIONS }
        ensures few { IsTrue result ↔ (length (running_now self.now) < MAX_SESSIONS) }
    {
        self.sessions.len() < MAX_SESSIONS
    }

    /// Returns the interval in microseconds at which samples are to be taken for the sessions that
    /// run, or 0 if none runs.
    pub fn source(&self) -> u32
        ensures value { result ≡ source_now self.now }
    {
        self.sessions.source()
    }

    /// Returns the number that the next session to be started gets.
    pub fn next_session(&self) -> SessionId
        ensures value { result ≡ next_session self.now }
    {
        SessionId(self.sessions.started() + 1)
    }

    /// Returns the time of the last entry, or 0 if there is none.
    pub fn last_time(&self) -> Micros
        ensures value { result ≡ last_time self.now.schedule.entries }
    {
        self.latest
    }

    /// Returns the time that an entry gets at this reading of the clock, in microseconds: the reading,
    /// but not before the last entry, and at most [`Micros::MAX`].
    pub fn entry_time(&self, now: u64) -> Micros
        ensures value { result ≡ entry_time self.now now }
    {
        Micros::new(now.max(self.latest.value()).min(Micros::MAX))
    }

    /// Returns the number of entries.
    pub fn entry_count(&self) -> u32
        ensures value { result ≡ entry_count self.now }
        ensures bound { result ≤ MAX_ENTRIES }
    {
        self.schedule.entries().len() as u32
    }

    /// Returns whether a session with this number runs that was started from this port.
    pub fn runs(&self, port: u8, number: SessionId) -> bool
        ensures session { IsTrue result ↔ HasSession (running_now self.now) (what.Stop port number) }
    {
        self.sessions.runs(port, number)
    }

    // Enters what happened at this reading of the clock, which raised this many events, and a tick if
    // so asked.
    fn enter(&mut self, what: What, now: u64, raised: u64, is_ticked: bool)
        requires room { entry_count self.old < self.old.schedule.limit }
        requires port { HasPort what }
        requires startable { IsStartable (running_now self.old) what }
        requires raised { raised ≤ 2 ^ 32 }
        ensures { self.new ≡ record (with_entry self.old (entry_now self.old now what)) { events = self.old.events + raised; ticks = self.old.ticks + (if is_ticked then 1 else 0) } }
    {
        let time = self.entry_time(now);
        self.schedule.enter(ScheduleEntry {
            step: self.step,
            time,
            what,
        });
        self.latest = time;
        self.sessions.follow(what);
        self.events += raised;
        self.ticks += one_if(is_ticked);
    }

    /// Enters a sample at this reading of the clock: as taken, with its tick, if it went into the ring,
    /// and else as dropped.
    pub fn sample(&mut self, now: u64, is_in: bool)
        requires room { entry_count self.old < self.old.schedule.limit }
        ensures sampled { self.new ≡ after_sample self.old now is_in }
    {
        if is_in {
            self.enter(What::Sampled, now, 0, true);
            self.is_sampled = true;
        } else {
            self.enter(What::Dropped, now, 0, false);
            self.is_sampled = true;
        }
    }

    /// Enters the end at this reading of the clock, which raised one event.
    pub fn end(&mut self, why: EndCause, now: u64)
        requires room { entry_count self.old < self.old.schedule.limit }
        ensures ended { self.new ≡ record (with_entry self.old (entry_now self.old now (what.End why))) { events = suc self.old.events; ending = Some why } }
    {
        self.enter(What::End(why), now, 1, false);
        self.ending = Some(why);
    }

    /// Enters the end of an isolate that is out of memory, at this reading of the clock, after this
    /// many events of a turn that was cut short.
    pub fn end_short(&mut self, raised: u32, now: u64)
        requires room { entry_count self.old < self.old.schedule.limit }
        ensures ended { self.new ≡ record (with_entry self.old (entry_now self.old now (what.End cause.Memory))) { events = suc (self.old.events + raised); ending = Some cause.Memory } }
    {
        self.enter(
            What::End(EndCause::Memory),
            now,
            u64::from(raised) + 1,
            false,
        );
        self.ending = Some(EndCause::Memory);
    }

    /// Goes on by one step of the guest, which raised this many events, and a tick if so asked. No
    /// sample was entered at the new step yet.
    pub fn step_on(&mut self, raised: u32, is_ticked: bool)
        requires budget { self.old.step < self.old.schedule.budget }
        ensures stepped { self.new ≡ record self.old { step = suc self.old.step; events = self.old.events + raised; ticks = self.old.ticks + (if is_ticked then 1 else 0); is_sampled = false } }
    {
        self.step += 1;
        self.events += u64::from(raised);
        self.ticks += one_if(is_ticked);
        self.is_sampled = false;
    }

    /// Enters the start of a session at this reading of the clock, which raised one event and one tick.
    /// The source interval is that of the sessions that run then.
    pub fn start(&mut self, options: Options, now: u64)
        requires room { entry_count self.old < self.old.schedule.limit }
        requires few { length (running_now self.old) < MAX_SESSIONS }
        requires port { options.port ≤ MAX_PORT }
        requires interval { options.interval ≤ MAX_INTERVAL }
        ensures started { self.new ≡ record (with_entry self.old (entry_now self.old now (what.Start options))) { events = suc self.old.events; ticks = suc self.old.ticks } }
    {
        self.enter(What::Start(options), now, 1, true);
    }

    /// Enters the stop of a session at this reading of the clock, which raised one event. The source
    /// interval is that of the sessions that still run.
    pub fn stop(&mut self, port: u8, number: SessionId, now: u64)
        requires room { entry_count self.old < self.old.schedule.limit }
        requires port { port ≤ MAX_PORT }
        requires runs { HasSession (running_now self.old) (what.Stop port number) }
        ensures stopped { self.new ≡ record (with_entry self.old (entry_now self.old now (what.Stop port number))) { events = suc self.old.events } }
    {
        let what = What::Stop {
            port,
            session: number,
        };
        self.enter(what, now, 1, false);
    }
}
