// The sessions of a schedule as it is read: how many were started, and those that run.
ghost use Rattle.std.specs.Prelude.{◌≡◌, ◌<◌, ◌-◌, ◌^◌, ℕ, IfOk};
ghost use Rattle.run_schedule.specs.declared.schedule.What.TheVariants.{Start, Stop};
ghost use Rattle.run_schedule.specs.Schedule.{none_yet, course_after};
ghost use Rattle.record_text.specs.ScheduleRules.{is_running, has_session};

use code_event::{MAX_SESSIONS, Options};
use prof_base::{Memory, SessionId};
use run_schedule::What;
use std::alloc::Global;
use std::collections::BTreeMap;
use std::marker::Model;

/// A session that runs.
#[derive(Clone, Copy, Debug, PartialEq, Eq)]
pub struct RunningSession {
    /// The port that started it.
    pub port: u8,
    pub interval: u32,
}

#[derive(Drop)]
pub(crate) struct ScheduleSessions {
    started: u32,
    // By their numbers. At most 100 run at once.
    running: BTreeMap<u32, RunningSession>,
}

impl Model for ScheduleSessions {
    ghost use Rattle.run_schedule.specs.Schedule.{Course};
    ghost use Rattle.record_text.specs.ScheduleSessions.{all_running, AreNumbered};

    ghost Value = { Course };

    ghost view = { λ s. record { started = s.started; running = all_running s.running.entries } };

    ghost invariant = { λ s. AreNumbered s.started s.running.entries };
}

impl ScheduleSessions {
    pub(crate) fn new(alloc: Global) -> ScheduleSessions
        ensures { result ≡ none_yet }
    {
        ScheduleSessions {
            started: 0,
            running: BTreeMap::new(alloc),
        }
    }

    fn is_running(&self, port: u8, session: SessionId) -> bool
        ensures { result ≡ is_running self.now.running port session.0 }
    {
        match self.running.get(&session.0) {
            Some(found) => found.port == port,
            None => false,
        }
    }

    /// Returns whether what happens next keeps the rule of sessions.
    pub(crate) fn has_session(&self, what: What) -> bool
        ensures { result ≡ has_session self.now.running what }
    {
        match what {
            What::Sampled => self.running.len() >= 1,
            What::Dropped => self.running.len() >= 1,
            What::Start(_) => self.running.len() < MAX_SESSIONS,
            What::Stop { port, session } => self.is_running(port, session),
            What::End(_) => true,
        }
    }

    fn with_start(self, options: Options) -> Result<ScheduleSessions, Memory>
        requires { self.started < 2 ^ 32 - 1 }
        ensures { IfOk result (λ sessions. sessions ≡ course_after self (Start options)) }
    {
        let ScheduleSessions { started, running } = self;
        let number = started + 1;
        let session = RunningSession {
            port: options.port,
            interval: options.interval,
        };
        let mut running = running;
        running.insert(number, session)?;
        Ok(ScheduleSessions {
            started: number,
            running,
        })
    }

    fn with_stop(self, session: SessionId) -> ScheduleSessions
        ensures { (port : ℕ) → result ≡ course_after self (Stop port session) }
    {
        let ScheduleSessions { started, running } = self;
        let mut running = running;
        running.remove(&session.0);
        ScheduleSessions { started, running }
    }

    /// The sessions after one more entry.
    pub(crate) fn after(self, what: What) -> Result<ScheduleSessions, Memory>
        requires { self.started < 2 ^ 32 - 1 }
        ensures { IfOk result (λ sessions. sessions ≡ course_after self what) }
    {
        match what {
            What::Start(options) => self.with_start(options),
            What::Stop { session, .. } => Ok(self.with_stop(session)),
            What::Sampled => Ok(self),
            What::Dropped => Ok(self),
            What::End(_) => Ok(self),
        }
    }
}
