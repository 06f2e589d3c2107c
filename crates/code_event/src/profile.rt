// Finished profiles.
use crate::entry::Entry;
use prof_base::{Micros, Sequence, SessionId, Text};

/// How many hits a line has: `PositionTickInfo` in the Chrome DevTools Protocol 1.3.
#[derive(Clone, Copy, Debug, PartialEq, Eq)]
pub struct LineTicks {
    pub line: u32,
    pub ticks: u64,
}

/// A node of a finished profile: `ProfileNode` in the same protocol. Its id is its place among the
/// nodes, from 1.
#[derive(Debug, Drop)]
pub struct FinNode {
    pub entry: Entry,
    /// Why the function is not optimised, if a reason was given.
    pub reason: Option<Text>,
    /// The hits with exactly its path.
    pub hits: u64,
    /// The ids of the nodes directly below it, in order.
    pub children: Sequence<u32>,
    /// Its hits by the line at which the function was, in rising order of the lines.
    pub lines: Sequence<LineTicks>,
}

/// A finished profile.
#[derive(Debug, Drop)]
pub struct Finished {
    pub session: SessionId,
    /// The port at which the session was started.
    pub port: u8,
    pub start: Micros,
    pub end: Micros,
    /// The nodes, each before those below it.
    pub nodes: Sequence<FinNode>,
    /// The ids of the samples' nodes.
    pub samples: Sequence<u32>,
    /// The microseconds from each sample to the one before it, and from the first to the start.
    pub deltas: Sequence<u64>,
}
