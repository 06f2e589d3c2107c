// Why the text of a record is refused.
ghost use Rattle.std.specs.Prelude.{◌≡◌};
ghost use Rattle.record_text.specs.Refusals.{line_cause};

use crate::rule::Rule;
use prof_lines::Cause;

/// What is at fault in a line of a schedule, a script or an item list.
#[derive(Clone, Copy, Debug, PartialEq, Eq)]
pub enum LineCause {
    /// A word, or the number of words.
    Word,
    /// A number is missing, or out of its range.
    Number,
    /// The line may not follow the lines before it.
    Order,
    /// A session that does not run, or one too many.
    Session,
    /// A limit of the record is exceeded.
    Limit,
    /// The guest's program does not reach this line.
    Fit,
}

/// Why a text cannot be read.
#[derive(Clone, Copy, Debug, PartialEq, Eq)]
pub enum ReadRefused {
    /// The first fault is at this line, counted from 1.
    At { line: u32, cause: LineCause },
    /// Out of memory.
    Memory,
}

/// Returns what is at fault where a line is refused for this cause.
pub fn line_cause(cause: Cause<Rule>) -> LineCause
    ensures { result ≡ line_cause cause }
{
    match cause {
        Cause::Word => LineCause::Word,
        Cause::Number => LineCause::Number,
        Cause::Own(Rule::Order) => LineCause::Order,
        Cause::Own(Rule::Session) => LineCause::Session,
        Cause::Own(Rule::Limit) => LineCause::Limit,
    }
}
