// The sessions of a script, by their numbers.
ghost use Rattle.std.specs.Prelude.{◌≡◌, ◌==◌, ◌<◌, ◌-◌, ◌^◌, length, IfOk};
ghost use Rattle.std.specs.List.{list_any};
ghost use Rattle.record_text.specs.ScriptDraft.{no_numbers, with_start, without};

use prof_base::{Memory, SessionId};
use std::alloc::Global;
use std::collections::BTreeSet;
use std::marker::Model;

#[derive(Drop)]
pub(crate) struct ScriptSessions {
    started: u64,
    // The numbers of those that run.
    running: BTreeSet<u64>,
}

impl Model for ScriptSessions {
    ghost use Rattle.record_text.specs.ScriptDraft.{SessionNumbers, AreNumbered};

    ghost Value = { SessionNumbers };

    ghost view = { λ s. record { started = s.started; running = s.running.keys } };

    ghost invariant = { λ s. AreNumbered s.started s.running.keys };
}

impl ScriptSessions {
    pub(crate) fn new(alloc: Global) -> ScriptSessions
        ensures { result ≡ no_numbers }
    {
        ScriptSessions {
            started: 0,
            running: BTreeSet::new(alloc),
        }
    }

    /// Returns how many were started.
    pub(crate) fn started(&self) -> u64
        ensures { result ≡ self.now.started }
    {
        self.started
    }

    /// Returns how many run.
    pub(crate) fn running(&self) -> usize
        ensures { result ≡ length self.now.running }
    {
        self.running.len()
    }

    pub(crate) fn is_running(&self, session: SessionId) -> bool
        ensures { result ≡ list_any (λ number. number == session.0) self.now.running }
    {
        self.running.contains(&u64::from(session.0))
    }

    /// The sessions after a further start.
    pub(crate) fn with_start(self) -> Result<ScriptSessions, Memory>
        requires { self.started < 2 ^ 64 - 1 }
        ensures { IfOk result (λ sessions. sessions ≡ with_start self) }
    {
        let ScriptSessions { started, running } = self;
        let number = started + 1;
        let mut running = running;
        running.insert(number)?;
        Ok(ScriptSessions {
            started: number,
            running,
        })
    }

    /// The sessions once this one no longer runs.
    pub(crate) fn without(self, session: SessionId) -> ScriptSessions
        ensures { result ≡ without self session.0 }
    {
        let ScriptSessions { started, running } = self;
        let mut running = running;
        running.remove(&u64::from(session.0));
        ScriptSessions { started, running }
    }
}
