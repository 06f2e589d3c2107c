// What the lines before a program say: the isolate's limits, and what its ports give.
ghost use Rattle.std.specs.Prelude.{◌≡◌, ◌≤◌};
ghost use Rattle.prof_base.specs.declared.interval.TheConstants.{MAX_INTERVAL};
ghost use Rattle.run_schedule.specs.declared.limits.TheConstants.{MAX_BUDGET, MAX_ENTRIES, MAX_RING, MIN_ENTRIES};

use code_event::{Command, Mode, Options};
use isolate_turns::IsoConfig;
use prof_base::{MAX_INTERVAL, SessionId};
use run_schedule::{MAX_BUDGET, MAX_ENTRIES, MAX_RING, MIN_ENTRIES};
use std::alloc::{AllocError, Global};

/// A command that a port gives from a step on.
#[derive(Clone, Copy)]
pub(crate) struct Order {
    pub(crate) step: u64,
    pub(crate) port: u8,
    pub(crate) command: Command,
}

// Returns the word at a place, from 0, or nothing.
fn word_at(words: &str, place: usize) -> &str {
    for (at, word) in words.split(' ').enumerate() {
        if at == place {
            return word;
        }
    }
    ""
}

// Returns the number at a place, or 0.
fn number_at(words: &str, place: usize) -> u64 {
    word_at(words, place).parse::<u64>().unwrap_or(0)
}

// Returns the number at a place, or 0.
fn small_at(words: &str, place: usize) -> u32 {
    word_at(words, place).parse::<u32>().unwrap_or(0)
}

// Returns what follows a word in the first line that begins with it, or none.
fn after_word<'a>(lines: &'a str, word: &str) -> Option<&'a str> {
    for line in lines.lines() {
        if let Some(rest) = line.strip_prefix(word) {
            return Some(rest);
        }
    }
    None
}

/// Reads the isolate's limits.
pub(crate) fn config_of(lines: &str) -> IsoConfig
    ensures base_low { 1 ≤ result.base }
    ensures base_high { result.base ≤ MAX_INTERVAL }
    ensures ring_low { 1 ≤ result.ring }
    ensures ring_high { result.ring ≤ MAX_RING }
    ensures budget_low { 1 ≤ result.budget }
    ensures budget_high { result.budget ≤ MAX_BUDGET }
    ensures limit_low { MIN_ENTRIES ≤ result.limit }
    ensures limit_high { result.limit ≤ MAX_ENTRIES }
{
    let words = after_word(lines, "config ").unwrap_or("");
    IsoConfig {
        base: small_at(words, 0).clamp(1, MAX_INTERVAL),
        ring: small_at(words, 1).clamp(1, MAX_RING),
        budget: number_at(words, 2).clamp(1, MAX_BUDGET),
        limit: small_at(words, 3).clamp(MIN_ENTRIES, MAX_ENTRIES),
    }
}

/// Reads the numbers of the first line that begins with a word, or none where there is no such line.
pub(crate) fn numbers_after(
    alloc: Global,
    lines: &str,
    word: &str,
) -> Result<Option<Vec<u64>>, AllocError> {
    let Some(rest) = after_word(lines, word) else {
        return Ok(None);
    };
    let mut numbers = Vec::new(alloc);
    for number in rest.split(' ') {
        if let Ok(number) = number.parse::<u64>() {
            numbers.push(number)?;
        }
    }
    Ok(Some(numbers))
}

/// Returns whether a line says that the queues are emptied only at the end.
pub(crate) fn is_held(lines: &str) -> bool {
    after_word(lines, "hold").is_some()
}

fn mode_of(word: &str) -> Mode {
    if word == "leaf" {
        Mode::Leaf
    } else {
        Mode::Caller
    }
}

// Reads a command of a port after the words of its step and its port.
fn command_of(words: &str, port: u8) -> Command {
    if word_at(words, 2) == "stop" {
        return Command::Stop(SessionId(small_at(words, 3)));
    }
    Command::Start(Options {
        port,
        interval: small_at(words, 3).clamp(1, MAX_INTERVAL),
        mode: mode_of(word_at(words, 4)),
        max_samples: word_at(words, 5).parse::<u32>().ok(),
    })
}

/// Reads the commands.
pub(crate) fn orders_of(alloc: Global, lines: &str) -> Result<Vec<Order>, AllocError> {
    let mut orders = Vec::new(alloc);
    for line in lines.lines() {
        if let Some(words) = line.strip_prefix("at ") {
            let port = word_at(words, 1).parse::<u8>().unwrap_or(0);
            orders.push(Order {
                step: number_at(words, 0),
                port,
                command: command_of(words, port),
            })?;
        }
    }
    Ok(orders)
}
