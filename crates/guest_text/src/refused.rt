// Why a program's text is refused.
ghost use Rattle.std.specs.Prelude.{◌≡◌};
ghost use Rattle.guest_text.specs.ProgramText.{program_cause};

use crate::rule::Rule;
use prof_lines::Cause;

/// What is wrong with a line of a program's text, or with its end.
#[derive(Clone, Copy, Debug, PartialEq, Eq)]
pub enum ProgramCause {
    /// A word is missing, is one too many or does not belong here, or an instruction comes before the
    /// first function.
    Word,
    /// A word is no number in the range of its place.
    Number,
    /// No function has this label.
    UnknownName,
    /// An earlier function has this label, or the same name, url, script, line and column.
    Twice,
    /// There are too many functions or instructions, a function has none, or a jump leaves its
    /// function.
    Limit,
    /// No function is labelled `main`.
    NoMain,
}

/// Why a text was not read as a program.
#[derive(Clone, Copy, Debug, PartialEq, Eq)]
pub enum ProgramRefused {
    /// The first line at fault, counted from 1, and its first fault. The line is the number of lines
    /// plus 1 where no function is `main`.
    At { line: u32, cause: ProgramCause },
    /// Out of memory, or the refused line has a number above 2^32 - 1.
    Memory,
}

pub(crate) fn program_cause(cause: Cause<Rule>) -> ProgramCause
    ensures { result ≡ program_cause cause }
{
    match cause {
        Cause::Word => ProgramCause::Word,
        Cause::Number => ProgramCause::Number,
        Cause::Own(Rule::UnknownName) => ProgramCause::UnknownName,
        Cause::Own(Rule::Twice) => ProgramCause::Twice,
        Cause::Own(Rule::Limit) => ProgramCause::Limit,
        Cause::Own(Rule::NoMain) => ProgramCause::NoMain,
    }
}
