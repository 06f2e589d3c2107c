// Paths: the functions on the stack of a tick.
ghost use Rattle.std.specs.Prelude.{◌≡◌, IfOk};

use crate::entry::Entry;
use prof_base::{Memory, Sequence};

/// A step of a path, from the oldest function to the youngest.
#[derive(Debug, Drop)]
pub struct PathStep {
    pub entry: Entry,
    /// The line of the step before, where the mode distinguishes callers' lines and there is one, else
    /// 0.
    pub call_line: u32,
}

/// The paths of a tick in both modes, oldest first.
#[derive(Debug, Drop)]
pub struct PathPair {
    pub leaf: Sequence<PathStep>,
    pub caller: Sequence<PathStep>,
    /// The line at which the youngest function was, or 0 where there is none.
    pub leaf_line: u32,
}

impl PathStep {
    /// Makes an equal step, which shares its texts.
    pub fn copy(&self) -> Result<PathStep, Memory>
        ensures { IfOk result (λ copy. copy ≡ self.now) }
    {
        Ok(PathStep {
            entry: self.entry.copy()?,
            call_line: self.call_line,
        })
    }
}
