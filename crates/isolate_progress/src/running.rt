// A session that runs.
ghost use Rattle.std.specs.Prelude.{◌≡◌, ◌≤◌, ◌==◌};
ghost use Rattle.isolate_progress.specs.Held.{is_session_of};

use prof_base::{MAX_INTERVAL, SessionId};
use std::marker::Model;

/// A session that runs: its number, the port that started it, and its interval in microseconds.
#[derive(Debug, Drop)]
pub(crate) struct RunningSession {
    session: u32,
    port: u8,
    interval: u32,
}

impl Model for RunningSession {
    ghost use Rattle.std.specs.Prelude.{◌≤◌};
    ghost use Rattle.prof_base.specs.declared.interval.TheConstants.{MAX_INTERVAL};
    ghost use Rattle.run_schedule.specs.Schedule.{Running};

    ghost Value = { Running };

    ghost view = { λ r. record { session = r.session; port = r.port; interval = r.interval } };

    ghost invariant = { λ r. r.interval ≤ MAX_INTERVAL };
}

impl RunningSession {
    /// Makes the session with this number.
    pub(crate) fn new(session: u32, port: u8, interval: u32) -> RunningSession
        requires { interval ≤ MAX_INTERVAL }
        ensures { result ≡ record { session = session; port = port; interval = interval } }
    {
        RunningSession {
            session,
            port,
            interval,
        }
    }

    /// Returns whether it has this number.
    pub(crate) fn has_number(&self, number: SessionId) -> bool
        ensures { result ≡ (self.now.session == number.0) }
    {
        self.session == number.0
    }

    /// Returns whether it has this number, and this port started it.
    pub(crate) fn is_of(&self, port: u8, number: SessionId) -> bool
        ensures { result ≡ is_session_of port number.0 self.now }
    {
        self.session == number.0 && self.port == port
    }

    /// Returns its interval in microseconds.
    pub(crate) fn interval(&self) -> u32
        ensures interval { result ≡ self.now.interval }
        ensures bound { result ≤ MAX_INTERVAL }
    {
        self.interval
    }
}
