// Ticks in a profile's tree.
use crate::path::PathStep;
use prof_base::Sequence;

/// A tick in a tree.
#[derive(Debug, Drop)]
pub struct Visit {
    /// The functions on the stack, oldest first.
    pub path: Sequence<PathStep>,
    /// The line at which the youngest function was, or 0 where there is none.
    pub line: u32,
    /// Whether the tick counts as a hit.
    pub hit: bool,
}
