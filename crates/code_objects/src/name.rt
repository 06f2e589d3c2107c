// The names of code objects.
use prof_base::FuncId;

/// The kinds of code that a function can have, at most one code object of each.
#[derive(Clone, Copy, Debug, PartialEq, Eq)]
pub enum CodeKind {
    /// A slot for each instruction, in order.
    Plain,
    /// Calls of functions that are marked `inline` are inlined.
    Optimised,
}

/// The name of a code object. It stays the same when compaction moves the code.
#[derive(Clone, Copy, Debug, PartialEq, Eq)]
pub struct CodeName {
    pub func: FuncId,
    pub kind: CodeKind,
}
