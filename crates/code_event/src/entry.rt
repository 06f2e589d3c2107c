// Functions as a profile names them.
ghost use Rattle.std.specs.Prelude.{◌≡◌, IfOk};

use prof_base::{Memory, Text};

/// How a profile names a function: the members of `Runtime.CallFrame` in the Chrome DevTools Protocol
/// 1.3, with lines and columns that count from 1.
#[derive(Debug, Drop)]
pub struct Entry {
    pub name: Text,
    pub url: Text,
    /// The number of the script.
    pub script: u32,
    /// The line of the script where the function begins. It is 0 for an entry that is not a
    /// function, such as `(root)`.
    pub line: u32,
    /// The column of that line, or 0 in the same case.
    pub column: u32,
}

impl Entry {
    /// Makes an equal entry, on the allocators of its texts.
    pub fn copy(&self) -> Result<Entry, Memory>
        ensures { IfOk result (λ copy. copy ≡ self.now) }
    {
        Ok(Entry {
            name: self.name.copy()?,
            url: self.url.copy()?,
            script: self.script,
            line: self.line,
            column: self.column,
        })
    }
}
