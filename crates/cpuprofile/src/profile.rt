// Profiles as a file has them: the members of `Profile` in the Chrome DevTools Protocol 1.3.
use crate::file_text::FileText;
use prof_base::Sequence;

/// How many hits a line has: `PositionTickInfo`.
#[derive(Clone, Copy, Debug, PartialEq, Eq)]
pub struct FileTicks {
    pub line: u64,
    pub ticks: u64,
}

/// A node: `ProfileNode`, with the members of its `Runtime.CallFrame`.
#[derive(Debug, Drop)]
pub struct FileNode {
    pub id: u64,
    pub name: FileText,
    pub script: FileText,
    pub url: FileText,
    /// The line where the function begins, counted from 0. It is -1 for a node that is not a
    /// function.
    pub line: i64,
    /// The column of that line, counted from 0, or -1 in the same case.
    pub column: i64,
    pub hits: u64,
    /// The ids of the nodes directly below it.
    pub children: Sequence<u64>,
    /// Its hits by the line at which the function was, counted from 1.
    pub ticks: Sequence<FileTicks>,
    /// Why the function is not optimised, if a reason was given.
    pub reason: Option<FileText>,
}

/// A profile.
#[derive(Debug, Drop)]
pub struct Profile {
    pub nodes: Sequence<FileNode>,
    pub start: u64,
    pub end: u64,
    /// The ids of the samples' nodes.
    pub samples: Sequence<u64>,
    /// The microseconds from each sample to the one before it, and from the first to the start.
    pub deltas: Sequence<i64>,
}
