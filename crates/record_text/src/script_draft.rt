// A script as it is read: the lines so far, and what the rules ask of them.
ghost use Rattle.std.specs.Prelude.{◌≡◌, ◌<◌, ◌-◌, ◌^◌, [], ◌∷◌, ◌++◌, None, IfOk};
ghost use Rattle.prof_lines.specs.Answers.{Gives};
ghost use Rattle.record_text.specs.ScriptDraft.{numbers_after, numbers_on};
ghost use Rattle.record_text.specs.ScriptRules.{breaks_session, running_after_lines, script_fault};
ghost use Rattle.record_text.specs.Scripts.{script_next};

use crate::rule::Rule;
use crate::script::ScriptLine;
use crate::script_form::script_line;
use crate::script_sessions::ScriptSessions;
use code_event::{Command, MAX_SESSIONS};
use prof_base::{Memory, Sequence};
use prof_lines::{Cause, LineFault};
use std::alloc::Global;
use std::marker::Model;

// The sessions after a command.
fn sessions_after(sessions: ScriptSessions, command: Command) -> Result<ScriptSessions, Memory>
    requires { sessions.started < 2 ^ 64 - 1 }
    ensures { IfOk result (λ after. after ≡ numbers_after sessions command) }
{
    match command {
        Command::Start(_) => sessions.with_start(),
        Command::Stop(session) => Ok(sessions.without(session)),
    }
}

#[derive(Drop)]
pub(crate) struct ScriptDraft {
    lines: Sequence<ScriptLine>,
    // The step of the last line.
    latest: u64,
    sessions: ScriptSessions,
}

impl Model for ScriptDraft {
    ghost use Rattle.std.specs.Prelude.{List};
    ghost use Rattle.record_text.specs.declared.script.ScriptLine.{ScriptLine};
    ghost use Rattle.record_text.specs.ScriptDraft.{IsKept};

    ghost Value = { List ScriptLine };

    ghost view = { λ d. d.lines };

    ghost invariant = { λ d. IsKept d.lines d.latest d.sessions };
}

impl ScriptDraft {
    pub(crate) fn new(alloc: Global) -> ScriptDraft
        ensures { result ≡ [] }
    {
        ScriptDraft {
            lines: Sequence::new(alloc),
            latest: 0,
            sessions: ScriptSessions::new(alloc),
        }
    }

    fn breaks_session(&self, command: &Command) -> bool
        ensures { result ≡ breaks_session (running_after_lines self.now) command.now }
    {
        match command {
            Command::Start(_) => self.sessions.running() >= MAX_SESSIONS,
            Command::Stop(session) => !self.sessions.is_running(*session),
        }
    }

    // The first rule that the line breaks.
    fn fault(&self, line: &ScriptLine) -> Option<Cause<Rule>>
        ensures { result ≡ script_fault self.now line.now }
    {
        if line.step < self.latest {
            Some(Cause::Own(Rule::Order))
        } else if self.breaks_session(&line.command) {
            Some(Cause::Own(Rule::Session))
        } else {
            None
        }
    }

    fn with(self, line: ScriptLine) -> Result<ScriptDraft, Memory>
        requires { script_fault self line ≡ None }
        ensures { IfOk result (λ draft. draft ≡ self ++ line ∷ []) }
    {
        let ScriptDraft {
            lines,
            latest: _,
            sessions,
        } = self;
        let mut lines = lines;
        lines.push(line)?;
        // So the number of the next start fits.
        prove!(sessions.started() < lines.len() as u64);
        let sessions = sessions_after(sessions, line.command)?;
        Ok(ScriptDraft {
            lines,
            latest: line.step,
            sessions,
        })
    }

    /// The script with the line that comes next.
    pub(crate) fn next(self, bytes: &[u8]) -> Result<ScriptDraft, LineFault<Rule>>
        ensures { Gives (λ draft. draft) result (script_next self bytes.now) }
    {
        let line = script_line(bytes)?;
        match self.fault(&line) {
            Some(cause) => Err(LineFault::At(cause)),
            None => Ok(self.with(line)?),
        }
    }

    pub(crate) fn into_lines(self) -> Sequence<ScriptLine>
        ensures { result ≡ self }
    {
        self.lines
    }
}
