// Scripts from their text.
ghost use Rattle.std.specs.Prelude.{◌≡◌, List, IfOk, IfErr};
ghost use Rattle.prof_lines.specs.Answers.{Reads};
ghost use Rattle.record_text.specs.declared.script.ScriptLine.{ScriptLine};
ghost use Rattle.record_text.specs.Refusals.{IsMemory};
ghost use Rattle.record_text.specs.Scripts.{script_read, IsScript, SpellsScript, IsRefusedScript};

use crate::refused::{ReadRefused, line_cause};
use crate::rule::Rule;
use crate::script_draft::ScriptDraft;
use code_event::Command;
use prof_base::Sequence;
use prof_lines::{Lines, TextFault};
use std::alloc::Global;

/// A command of a script, which comes from port 0.
#[derive(Clone, Copy, Debug, PartialEq, Eq)]
pub struct ScriptLine {
    /// How many steps the guest has done by then.
    pub step: u64,
    pub command: Command,
}

fn read(alloc: Global, text: &[u8]) -> Result<ScriptDraft, TextFault<Rule>>
    ensures { Reads (λ draft. draft) result (script_read text.now) }
{
    let mut lines = Lines::new(text);
    let mut draft = ScriptDraft::new(alloc);
    while let Some((number, bytes)) = lines.next() {
        match draft.next(bytes) {
            Ok(next) => draft = next,
            Err(fault) => return Err(fault.at(number)),
        }
    }
    Ok(draft)
}

/// Reads the text of a script. Sessions are numbered by their starts, from 1. A text without lines is a
/// script too. The refused line is the first with a fault, or the answer is out of memory.
pub fn read_script(alloc: Global, text: &[u8]) -> Result<Sequence<ScriptLine>, ReadRefused>
    // The text's lines spell the script that is read.
    ensures spelled { IfOk result (λ script. SpellsScript text.now script) }
    // Its numbers are in their ranges, and it keeps the rules.
    ensures rules { IfOk result (λ script. IsScript script) }
    // A script that a text's lines spell is read, unless out of memory.
    ensures only { (script : List ScriptLine) → IsScript script → SpellsScript text.now script → IfOk result (λ read. read ≡ script) }
    ensures never { (script : List ScriptLine) → IsScript script → SpellsScript text.now script → IfErr result (λ refusal. IsMemory refusal) }
    // The refused line is the first with a fault, and the cause is its first fault.
    ensures refused { IfErr result (λ refusal. IsRefusedScript text.now refusal) }
{
    match read(alloc, text) {
        Ok(draft) => Ok(draft.into_lines()),
        Err(TextFault::Memory) => Err(ReadRefused::Memory),
        Err(TextFault::At { line, cause }) => Err(ReadRefused::At {
            line,
            cause: line_cause(cause),
        }),
    }
}
