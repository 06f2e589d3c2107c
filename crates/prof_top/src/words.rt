// The words of the command line.
ghost use Rattle.std.specs.Prelude.{◌≡◌, ◌≤◌, ◌∷◌, [], ℕ, ◌^◌, ◌<◌, IfOk, OnOk, Some, IfSome, IsErrOf, map, decimal, string_bytes};
ghost use Rattle.prof_top.specs.Command.{IsName, Means, IsCommand, limit_words, AreLimits, options_of};

use prof_base::{MAX_INTERVAL, Text, TextRefused, is_decimal};
use run_schedule::{MAX_BUDGET, MAX_ENTRIES, MIN_ENTRIES};
use std::alloc::Global;

/// The greatest number of steps of a run that does not ask for another.
pub const BUDGET: u64 = 10_000_000;

/// The greatest number of entries of a schedule whose run does not ask for another.
pub const ENTRIES: u32 = 1_048_576;

/// The limits that a run is given: none, the budget of steps, or that and the limit of entries.
#[derive(Clone, Copy, Debug, PartialEq, Eq)]
pub enum RunLimits {
    Default,
    Steps { budget: u64 },
    Both { budget: u64, entries: u32 },
}

/// How a program is run.
#[derive(Clone, Copy, Debug, PartialEq, Eq)]
pub struct RunOptions {
    /// The interval of the session and the base of the isolate, in microseconds, from 1 to
    /// 1,000,000,000.
    pub every: u32,
    /// The greatest number of steps, from 1 to 100,000,000.
    pub budget: u64,
    /// The greatest number of entries of the schedule, from 2 to 1,048,576.
    pub entries: u32,
}

impl RunOptions {
    /// Returns the options of a run at this interval and within these limits.
    pub(crate) fn new(every: u32, limits: RunLimits) -> RunOptions
        ensures options { result ≡ options_of every limits }
    {
        let (budget, entries) = match limits {
            RunLimits::Default => (BUDGET, ENTRIES),
            RunLimits::Steps { budget } => (budget, ENTRIES),
            RunLimits::Both { budget, entries } => (budget, entries),
        };
        RunOptions {
            every,
            budget,
            entries,
        }
    }
}

/// A line of the command table.
#[derive(Drop)]
pub enum CommandLine {
    /// `run PROGRAM EVERY [BUDGET [ENTRIES]]`: runs the program whose text has this name in the
    /// depot.
    Run {
        program: Text,
        /// The interval of the session and the base of the isolate, in microseconds, from 1 to
        /// 1,000,000,000.
        every: u32,
        limits: RunLimits,
    },
    /// `fold ITEMS`: gives the files of the item list whose text has this name in the depot.
    Fold {
        items: Text,
    },
}

/// Why words were not taken as a command.
#[derive(Clone, Copy, Debug, PartialEq, Eq)]
pub(crate) enum WordsRefused {
    /// They are not a line of the command table.
    Usage,
    /// Out of memory.
    Memory,
}

// Reads the name that a word spells.
fn name(alloc: Global, word: &[u8]) -> Result<Text, WordsRefused>
    ensures ok { IfOk result (λ text. text ≡ word.now) }
    ensures named { OnOk result (IsName word.now) }
    ensures usage { IsErrOf result WordsRefused.Usage → ¬ IsName word.now }
{
    match word.first() {
        None | Some(b'-') => return Err(WordsRefused::Usage),
        Some(_) => {}
    }
    match Text::new(alloc, word) {
        Ok(text) => Ok(text),
        Err(TextRefused::Memory) => Err(WordsRefused::Memory),
        Err(TextRefused::TooLong | TextRefused::NotPrintable { .. }) => Err(WordsRefused::Usage),
    }
}

// Reads the number whose decimal text the word is.
fn decimal_number(word: &str) -> Option<u32>
    ensures spelled { IfSome result (λ number. word.now ≡ decimal number) }
    ensures only { (number : ℕ) → number < 2 ^ 32 → word.now ≡ decimal number → result ≡ Some number }
{
    match word.parse::<u32>() {
        Ok(number) if is_decimal(word, u64::from(number)) => Some(number),
        _ => None,
    }
}

// Reads the number from `least` to `most` that a word spells.
fn number(word: &str, least: u32, most: u32) -> Option<u32>
    ensures spelled { IfSome result (λ number. (word.now ≡ decimal number) × (least ≤ number) × (number ≤ most)) }
    ensures only { (number : ℕ) → least ≤ number → number ≤ most → word.now ≡ decimal number → result ≡ Some number }
{
    match decimal_number(word) {
        Some(number) if number >= least && number <= most => Some(number),
        _ => None,
    }
}

// Reads the budget of steps that a word spells.
fn budget_of(word: &str) -> Option<u64>
    ensures spelled { IfSome result (λ budget. (word.now ≡ decimal budget) × (1 ≤ budget) × (budget ≤ MAX_BUDGET)) }
    ensures only { (budget : ℕ) → 1 ≤ budget → budget ≤ MAX_BUDGET → word.now ≡ decimal budget → result ≡ Some budget }
{
    let budget = number(word, 1, MAX_BUDGET as u32)?;
    Some(u64::from(budget))
}

// Reads `[BUDGET [ENTRIES]]`.
fn limits_of(words: &[String]) -> Option<RunLimits>
    ensures spelled { IfSome result (λ limits. (map string_bytes words.now ≡ limit_words limits) × AreLimits limits) }
    ensures only { (limits : RunLimits) → AreLimits limits → map string_bytes words.now ≡ limit_words limits → result ≡ Some limits }
{
    match words {
        [] => Some(RunLimits::Default),
        [budget] => {
            let budget = budget_of(budget.as_str())?;
            Some(RunLimits::Steps { budget })
        }
        [budget, entries] => {
            let budget = budget_of(budget.as_str())?;
            let entries = number(entries.as_str(), MIN_ENTRIES, MAX_ENTRIES)?;
            Some(RunLimits::Both { budget, entries })
        }
        _ => None,
    }
}

// Reads `run PROGRAM EVERY [BUDGET [ENTRIES]]`.
fn run_of(
    alloc: Global,
    verb: &str,
    program: &str,
    every: &str,
    limits: &[String],
) -> Result<CommandLine, WordsRefused>
    ensures ok { IfOk result (Means (verb.now ∷ program.now ∷ every.now ∷ map string_bytes limits.now)) }
    ensures usage { IsErrOf result WordsRefused.Usage → ¬ IsCommand (verb.now ∷ program.now ∷ every.now ∷ map string_bytes limits.now) }
{
    if verb != "run" {
        return Err(WordsRefused::Usage);
    }
    let Some(every) = number(every, 1, MAX_INTERVAL) else {
        return Err(WordsRefused::Usage);
    };
    let Some(limits) = limits_of(limits) else {
        return Err(WordsRefused::Usage);
    };
    let program = name(alloc, program.as_bytes())?;
    Ok(CommandLine::Run {
        program,
        every,
        limits,
    })
}

// Reads `fold ITEMS`.
fn fold_of(alloc: Global, verb: &str, items: &str) -> Result<CommandLine, WordsRefused>
    ensures ok { IfOk result (Means (verb.now ∷ items.now ∷ [])) }
    ensures usage { IsErrOf result WordsRefused.Usage → ¬ IsCommand (verb.now ∷ items.now ∷ []) }
{
    if verb != "fold" {
        return Err(WordsRefused::Usage);
    }
    let items = name(alloc, items.as_bytes())?;
    Ok(CommandLine::Fold { items })
}

/// Reads the line of the command table that the words are.
pub(crate) fn command_line(alloc: Global, words: &[String]) -> Result<CommandLine, WordsRefused>
    ensures ok { IfOk result (Means (map string_bytes words.now)) }
    ensures usage { IsErrOf result WordsRefused.Usage → ¬ IsCommand (map string_bytes words.now) }
{
    match words {
        [verb, items] => fold_of(alloc, verb.as_str(), items.as_str()),
        [verb, program, every, limits @ ..] => run_of(
            alloc,
            verb.as_str(),
            program.as_str(),
            every.as_str(),
            limits,
        ),
        _ => Err(WordsRefused::Usage),
    }
}
