// What the lines before a list say of the ring, of the stream and of the ticks.
ghost use Rattle.std.specs.Prelude.{◌≤◌};

use code_event::Tick;
use std::alloc::{AllocError, Global};

/// The setting of a case.
#[derive(Drop)]
pub(crate) struct Heading {
    /// The number of the ring's places.
    pub(crate) places: u32,
    /// The size of the stream's chunks, in bytes.
    pub(crate) chunk: u32,
    /// The calls of the stream that fail, by number.
    pub(crate) failing: Vec<u64>,
    /// The calls of the stream that abort, by number.
    pub(crate) aborting: Vec<u64>,
    letters: Vec<u8>,
    ghost some_places: { 1 ≤ places },
    ghost few_places: { places ≤ 1024 },
    ghost some_bytes: { 1 ≤ chunk },
    ghost few_bytes: { chunk ≤ 65536 },
}

// Returns what follows a word in the line that begins with it, or nothing.
fn after_word<'a>(lines: &'a str, word: &str) -> &'a str {
    for line in lines.lines() {
        if let Some(rest) = line.strip_prefix(word) {
            return rest;
        }
    }
    ""
}

// Reads the numbers of the lines that begin with a word.
fn numbers_after(alloc: Global, lines: &str, word: &str) -> Result<Vec<u64>, AllocError> {
    let mut numbers = Vec::new(alloc);
    for line in lines.lines() {
        if let Some(rest) = line.strip_prefix(word) {
            if let Ok(number) = rest.parse::<u64>() {
                numbers.push(number)?;
            }
        }
    }
    Ok(numbers)
}

impl Heading {
    /// Reads the lines of a case. A ring that they do not name has 1,024 places, and such chunks have
    /// 65,536 bytes.
    pub(crate) fn new(alloc: Global, lines: &str) -> Result<Heading, AllocError> {
        let places = after_word(lines, "ring ").parse::<u32>().unwrap_or(1_024);
        let chunk = after_word(lines, "chunk ").parse::<u32>().unwrap_or(65_536);
        Ok(Heading {
            places: places.clamp(1, 1_024),
            chunk: chunk.clamp(1, 65_536),
            failing: numbers_after(alloc, lines, "fail ")?,
            aborting: numbers_after(alloc, lines, "abort ")?,
            letters: after_word(lines, "ticks ").as_bytes().to_vec(alloc)?,
        })
    }

    /// Returns whether a tick goes to the ring. The letters say it tick by tick, again and again.
    pub(crate) fn is_sample(&self, tick: &Tick) -> bool {
        let Ok(place) = usize::try_from(tick.tick_number.saturating_sub(1)) else {
            return false;
        };
        let Some(at) = place.checked_rem(self.letters.len()) else {
            return false;
        };
        self.letters.get(at) == Some(&b'r')
    }
}
