// Texts of a file.
ghost use Rattle.std.specs.Prelude.{◌≡◌, ◌≤◌, length, IsUtf8, IfOk};
ghost use Rattle.cpuprofile.specs.IsFileText.{IsFileText};

use prof_base::Memory;
use std::alloc::Global;
use std::marker::Model;
use std::str;

/// 0 to 65,535 bytes of UTF-8.
#[derive(Debug, Drop)]
pub struct FileText {
    bytes: Vec<u8>,
}

impl Model for FileText {
    ghost use Rattle.std.specs.Prelude.{List, ℕ};
    ghost use Rattle.cpuprofile.specs.IsFileText.{IsFileText};

    ghost Value = { List ℕ };

    ghost view = { λ t. t.bytes.items };

    ghost invariant = { λ t. IsFileText t.bytes.items };
}

impl FileText {
    /// The greatest number of bytes.
    pub const MAX_LEN: usize = 65_535;

    /// Makes the text of these bytes.
    pub(crate) fn new(alloc: Global, bytes: &[u8]) -> Result<FileText, Memory>
        requires { IsFileText bytes.now }
        ensures { IfOk result (λ made. made ≡ bytes.now) }
    {
        let bytes = Vec::from_slice(alloc, bytes)?;
        Ok(FileText { bytes })
    }

    /// Returns the bytes of the text.
    pub fn bytes(&self) -> &[u8]
        ensures bytes { result.now ≡ self.now }
        ensures utf8 { IsUtf8 self.now }
        ensures short { length self.now ≤ FileText.MAX_LEN }
    {
        self.bytes.as_slice()
    }

    /// Returns the text as a `str`.
    pub(crate) fn as_str(&self) -> &str
        ensures { result.now ≡ self.now }
    {
        match str::from_utf8(self.bytes()) {
            Ok(text) => text,
            Err(_) => unreachable!(),
        }
    }
}
