// The lines of turns.
use std::alloc::{AllocError, Global};

/// The lines of the turns so far. Turns that follow one another with the same words are one line.
#[derive(Drop)]
pub(crate) struct Log {
    alloc: Global,
    lines: String,
    words: String,
    first: u64,
    count: u64,
}

impl Log {
    /// Makes a log of no turns.
    pub(crate) fn new(alloc: Global) -> Log {
        Log {
            alloc,
            lines: String::new(alloc),
            words: String::new(alloc),
            first: 0,
            count: 0,
        }
    }

    /// Adds a turn by its number, from 0, and its words.
    pub(crate) fn add(&mut self, turn: u64, words: String) -> Result<(), AllocError> {
        if self.count > 0 && self.words.as_str() == words.as_str() {
            self.count = self.count.saturating_add(1);
            return Ok(());
        }
        self.finish_line()?;
        self.first = turn;
        self.count = 1;
        self.words = words;
        Ok(())
    }

    /// Finishes the last line.
    pub(crate) fn finish_line(&mut self) -> Result<(), AllocError> {
        if self.count == 1 {
            let line = format!(in self.alloc; "turn {}{}\n", self.first, self.words)?;
            self.lines.push_str(&line)?;
        } else if self.count > 1 {
            let last = self.first.saturating_add(self.count - 1);
            let line = format!(in self.alloc; "turns {}-{last}{}\n", self.first, self.words)?;
            self.lines.push_str(&line)?;
        }
        self.count = 0;
        Ok(())
    }

    /// Returns the lines that are finished.
    pub(crate) fn lines(&self) -> &str {
        self.lines.as_str()
    }
}
