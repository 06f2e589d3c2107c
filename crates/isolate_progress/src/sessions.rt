// The sessions that run, and the interval at which samples are taken for them.
ghost use Rattle.std.specs.Prelude.{◌≡◌, ◌↔◌, ◌<◌, ◌≤◌, ◌==◌, ◌^◌, suc, filter, length, map, not, vec_capacity, IfOk, IsTrue};
ghost use Rattle.std.specs.List.{list_any};
ghost use Rattle.prof_base.specs.Interval.{rounded_of};
ghost use Rattle.run_schedule.specs.Schedule.{HasSession, none_yet, course_after};
ghost use Rattle.run_schedule.specs.Source.{gcd, source_for};
ghost use Rattle.run_schedule.specs.declared.schedule.What.TheVariants as what;
ghost use Rattle.isolate_progress.specs.Held.{IsStartable, is_session_of};

use crate::running::RunningSession;
use code_event::{MAX_SESSIONS, Options};
use prof_base::{MAX_INTERVAL, MAX_ROUNDED, Memory, SessionId, gcd, rounded};
use run_schedule::What;
use std::alloc::Global;
use std::marker::Model;

/// Computes the source interval with one more session, in microseconds.
fn source_next(base: u32, source: u32, interval: u32) -> u32
    requires base_low { 1 ≤ base }
    requires base_high { base ≤ MAX_INTERVAL }
    requires interval_high { interval ≤ MAX_INTERVAL }
    ensures source { result ≡ gcd source (rounded_of base interval) }
    ensures bound { result ≤ MAX_ROUNDED }
{
    let rounded = rounded(base, interval);
    gcd(u64::from(source), u64::from(rounded)) as u32
}

/// Computes the source interval of the sessions, in microseconds, or 0 if there are none.
fn source_of(base: u32, running: &[RunningSession]) -> u32
    requires base_low { 1 ≤ base }
    requires base_high { base ≤ MAX_INTERVAL }
    ensures { result ≡ source_for base running.now }
{
    let mut source = 0;
    for session in running {
        source = source_next(base, source, session.interval());
    }
    source
}

/// Finds out whether a session with this number runs that this port started.
fn holds(running: &[RunningSession], port: u8, number: SessionId) -> bool
    ensures { result ≡ list_any (is_session_of port number.0) running.now }
{
    running.iter().any(|session| session.is_of(port, number))
}

/// Removes the sessions with this number.
fn remove(running: &mut Vec<RunningSession>, number: SessionId)
    ensures others { running.new.items ≡ filter (λ session. not (session.session == number.0)) running.old.items }
    ensures fewer { length running.new.items ≤ length running.old.items }
    ensures capacity { vec_capacity running.new ≡ vec_capacity running.old }
{
    running.retain(|session| !session.has_number(number));
}

/// The sessions that were started and that run, in the order of their numbers. The memory for all that
/// may run is allocated when it is made.
#[derive(Debug, Drop)]
pub(crate) struct Sessions {
    base: u32,
    started: u32,
    running: Vec<RunningSession>,
    source: u32,
}

impl Model for Sessions {
    ghost use Rattle.std.specs.Prelude.{◌≡◌, ◌≤◌, length, vec_capacity};
    ghost use Rattle.prof_base.specs.declared.interval.TheConstants.{MAX_INTERVAL};
    ghost use Rattle.code_event.specs.declared.event.TheConstants.{MAX_SESSIONS};
    ghost use Rattle.run_schedule.specs.Source.{source_for};
    ghost use Rattle.isolate_progress.specs.Held.{SessionsSoFar};

    ghost Value = { SessionsSoFar };

    ghost view = { λ s. record { base = s.base; course = record { started = s.started; running = s.running.items } } };

    ghost invariant = { λ s. (1 ≤ s.base) × (s.base ≤ MAX_INTERVAL) × (length s.running.items ≤ MAX_SESSIONS) × (MAX_SESSIONS ≤ vec_capacity s.running) × (s.source ≡ source_for s.base s.running.items) };
}

impl Sessions {
    /// Makes the state before the first start.
    pub(crate) fn new(alloc: Global, base: u32) -> Result<Sessions, Memory>
        requires base_low { 1 ≤ base }
        requires base_high { base ≤ MAX_INTERVAL }
        ensures { IfOk result (λ sessions. sessions ≡ record { base = base; course = none_yet }) }
    {
        Ok(Sessions {
            base,
            started: 0,
            running: Vec::with_capacity(alloc, MAX_SESSIONS)?,
            source: 0,
        })
    }

    /// Returns the number of sessions that were started.
    pub(crate) fn started(&self) -> u32
        ensures { result ≡ self.now.course.started }
    {
        self.started
    }

    /// Returns the number of sessions that run.
    pub(crate) fn len(&self) -> usize
        ensures len { result ≡ length self.now.course.running }
        ensures few { result ≤ MAX_SESSIONS }
    {
        self.running.len()
    }

    /// Returns the source interval in microseconds, 0 if no session runs.
    pub(crate) fn source(&self) -> u32
        ensures { result ≡ source_for self.now.base self.now.course.running }
    {
        self.source
    }

    /// Returns whether a session with this number runs that this port started.
    pub(crate) fn runs(&self, port: u8, number: SessionId) -> bool
        ensures { IsTrue result ↔ HasSession self.now.course.running (what.Stop port number) }
    {
        holds(self.running.as_slice(), port, number)
    }

    /// Starts a session. It allocates nothing.
    fn start(&mut self, options: Options)
        requires few { length self.old.course.running < MAX_SESSIONS }
        requires interval { options.interval ≤ MAX_INTERVAL }
        requires started { suc self.old.course.started < 2 ^ 32 }
        ensures { self.new ≡ record self.old { course = course_after self.old.course (what.Start options) } }
    {
        self.started += 1;
        let session = RunningSession::new(self.started, options.port, options.interval);
        self.running.push_reserved(session);
        self.source = source_of(self.base, self.running.as_slice());
    }

    /// Stops a session.
    fn stop(&mut self, port: u8, number: SessionId)
        ensures { self.new ≡ record self.old { course = course_after self.old.course (what.Stop port number) } }
    {
        remove(&mut self.running, number);
        self.source = source_of(self.base, self.running.as_slice());
    }

    /// Starts or stops the session of an entry, if it starts or stops one. It allocates nothing.
    pub(crate) fn follow(&mut self, what: What)
        requires startable { IsStartable self.old.course.running what }
        requires started { suc self.old.course.started < 2 ^ 32 }
        ensures { self.new ≡ record self.old { course = course_after self.old.course what } }
    {
        match what {
            What::Start(options) => self.start(options),
            What::Stop { port, session } => self.stop(port, session),
            What::Sampled => {}
            What::Dropped => {}
            What::End(_) => {}
        }
    }
}
