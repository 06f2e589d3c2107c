// The form of the lines of a script's text.
ghost use Rattle.std.specs.Prelude.{◌≡◌, ◌≤◌, Ok};
ghost use Rattle.prof_lines.specs.Answers.{Gives};
ghost use Rattle.record_text.specs.ScriptForms.{start_every, script_start_at, script_stop_at, command_of, script_line_at};

use crate::rule::Rule;
use crate::script::ScriptLine;
use crate::words::{bound_of, mode_of, session};
use code_event::{Command, Mode, Options};
use prof_base::{MAX_INTERVAL, SessionId};
use prof_lines::{Cause, LineFault, end, number, word};
use run_schedule::MAX_BUDGET;

// A start from port 0.
fn start_every(interval: u32, mode: Mode, max_samples: Option<u32>) -> Command
    requires low { 1 ≤ interval }
    requires high { interval ≤ MAX_INTERVAL }
    ensures { start_every interval mode max_samples ≡ Ok result }
{
    Command::Start(Options {
        port: 0,
        interval,
        mode,
        max_samples,
    })
}

#[tactic(auto, unfolding(crate::specs::ScriptForms::script_start_at))]
fn start(bytes: &[u8]) -> Result<Command, LineFault<Rule>>
    ensures { Gives (λ command. command) result (script_start_at bytes.now) }
{
    let (interval, rest) = number(bytes, 1, u64::from(MAX_INTERVAL))?;
    let (mode, rest) = word(rest)?;
    let mode = mode_of(mode)?;
    let (max, rest) = word(rest)?;
    let max_samples = bound_of(max, 0)?;
    end(rest)?;
    Ok(start_every(interval as u32, mode, max_samples))
}

#[tactic(auto, unfolding(crate::specs::ScriptForms::script_stop_at))]
fn stop(bytes: &[u8]) -> Result<Command, LineFault<Rule>>
    ensures { Gives (λ command. command) result (script_stop_at bytes.now) }
{
    let (number, rest) = session(bytes)?;
    end(rest)?;
    Ok(Command::Stop(SessionId(number)))
}

fn command_of(word: &[u8], bytes: &[u8]) -> Result<Command, LineFault<Rule>>
    ensures { Gives (λ command. command) result (command_of word.now bytes.now) }
{
    if word == b"start".as_slice() {
        start(bytes)
    } else if word == b"stop".as_slice() {
        stop(bytes)
    } else {
        Err(LineFault::At(Cause::Word))
    }
}

/// Reads a line of a script.
#[tactic(auto, unfolding(crate::specs::ScriptForms::script_line_at))]
pub(crate) fn script_line(bytes: &[u8]) -> Result<ScriptLine, LineFault<Rule>>
    ensures { Gives (λ line. line) result (script_line_at bytes.now) }
{
    let (step, rest) = number(bytes, 0, MAX_BUDGET)?;
    let (word, rest) = word(rest)?;
    let command = command_of(word, rest)?;
    Ok(ScriptLine { step, command })
}
