// Programs from their text.
ghost use Rattle.std.specs.Prelude.{◌≡◌, ◌≤◌, ℕ, List, [], length, IfOk, IfErr, IfSome, IfNone};
ghost use Rattle.prof_lines.specs.Answers.{Reads};
ghost use Rattle.prof_lines.specs.Folds.{placed};
ghost use Rattle.guest_program.specs.declared.instr.Func.{Func};
ghost use Rattle.guest_program.specs.Program.{IsProgram, IsMain};
ghost use Rattle.guest_text.specs.ProgramRules.{program_end, rest_of, lines_read};
ghost use Rattle.guest_text.specs.ProgramText.{program_lines, Spells, IsRefused, IsMemory};

use crate::draft::Draft;
use crate::outline::Outline;
use crate::refused::{ProgramRefused, program_cause};
use crate::rule::Rule;
use guest_program::{Func, Program};
use prof_base::Memory;
use prof_lines::{Cause, LineFault, Lines, TextFault};
use std::alloc::Global;

// The number of the function labelled `main`.
fn main_of(funcs: &[Func]) -> Option<u16>
    requires { length funcs.now ≤ Program.MAX_FUNCS }
    ensures some { IfSome result (λ number. IsMain funcs.now number) }
    ensures none { IfNone result ((number : ℕ) → ¬ IsMain funcs.now number) }
{
    for (number, func) in funcs.iter().enumerate() {
        if func.label.bytes() == b"main".as_slice() {
            return Some(number as u16);
        }
    }
    None
}

// The functions that the lines make, and the number of the one labelled `main`.
fn whole(draft: Draft, after: u64) -> Result<(Vec<Func>, u16), TextFault<Rule>>
    ensures lines { Reads (λ x. program_lines x.0.items) result (placed after (program_end draft)) }
    ensures main { IfOk result (λ x. IsMain x.0.items x.1) }
{
    let Ok(funcs) = draft.into_funcs() else {
        return Err(TextFault::Memory);
    };
    match main_of(funcs.as_slice()) {
        Some(main) => Ok((funcs, main)),
        None => {
            let fault: LineFault<Rule> = LineFault::At(Cause::Own(Rule::NoMain));
            Err(fault.at(after))
        }
    }
}

fn rest(alloc: Global, outline: &Outline, lines: Lines) -> Result<(Vec<Func>, u16), TextFault<Rule>>
    ensures lines { Reads (λ x. program_lines x.0.items) result (rest_of outline.now [] lines.entry.lines lines.entry.after) }
    ensures main { IfOk result (λ x. IsMain x.0.items x.1) }
{
    let mut lines = lines;
    let mut draft = Draft::new(alloc);
    while let Some((number, bytes)) = lines.next() {
        match draft.next(alloc, outline, bytes) {
            Ok(next) => draft = next,
            Err(fault) => return Err(fault.at(number)),
        }
    }
    whole(draft, lines.at())
}

fn read(alloc: Global, text: &[u8]) -> Result<(Vec<Func>, u16), TextFault<Rule>>
    ensures lines { Reads (λ x. program_lines x.0.items) result (lines_read text.now) }
    ensures main { IfOk result (λ x. IsMain x.0.items x.1) }
{
    match Outline::new(alloc, text) {
        Ok(outline) => rest(alloc, &outline, Lines::new(text)),
        Err(Memory) => Err(TextFault::Memory),
    }
}

/// Reads the text of a program.
///
/// # Errors
///
/// `At` where the text is no program's, with the first line at fault and its first fault. `Memory`
/// when out of memory, and where the refused line has a number above 2^32 - 1.
pub fn read_program(alloc: Global, text: &[u8]) -> Result<Program, ProgramRefused>
    // The text's lines spell the program that is read.
    ensures spelled { IfOk result (λ program. Spells text.now program) }
    ensures rules { IfOk result (λ program. IsProgram program) }
    // A program that a text's lines spell is read, unless out of memory.
    ensures only { (funcs : List Func) → IsProgram funcs → Spells text.now funcs → IfOk result (λ read. read ≡ funcs) }
    ensures never { (funcs : List Func) → IsProgram funcs → Spells text.now funcs → IfErr result (λ refusal. IsMemory refusal) }
    // The refused line is the first with a fault, and the cause is its first fault.
    ensures refused { IfErr result (λ refusal. IsRefused text.now refusal) }
{
    match read(alloc, text) {
        Ok((funcs, main)) => Ok(Program::new(funcs, main)),
        Err(TextFault::Memory) => Err(ProgramRefused::Memory),
        Err(TextFault::At { line, cause }) => Err(ProgramRefused::At {
            line,
            cause: program_cause(cause),
        }),
    }
}
