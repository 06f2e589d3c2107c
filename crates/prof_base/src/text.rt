// Short printable texts.
ghost use Rattle.std.specs.Prelude.{◌≡◌, ◌≢◌, ◌↔◌, IsTrue, IfOk, OnOk, IfErr, IfNone, OnSome, position, not, bytes_eq};
ghost use Rattle.std.specs.List.{AllPass};
ghost use Rattle.prof_base.specs.Text.{IsText, is_printable};
ghost use Rattle.prof_base.specs.TextRefused.{IsRefusedAs};

use crate::memory::Memory;
use std::alloc::Global;
use std::marker::Model;
use std::str;
use std::sync::Arc;

/// Why bytes were not taken as a [`Text`].
#[derive(Clone, Copy, Debug, PartialEq, Eq)]
pub enum TextRefused {
    /// There are more than 200 bytes.
    TooLong,
    /// There are at most 200 bytes, and the one at `at`, counted from 0, is the first that is not
    /// printable ASCII.
    NotPrintable { at: usize },
    /// Out of memory.
    Memory,
}

/// 0 to 200 bytes, each from 0x20 to 0x7E. Copies of a text share its bytes.
#[derive(Debug, Drop)]
pub struct Text {
    bytes: Arc<Vec<u8>>,
}

impl Model for Text {
    ghost use Rattle.std.specs.Prelude.{List, ℕ};
    ghost use Rattle.std.specs.Arc.{arc_value};
    ghost use Rattle.prof_base.specs.Text.{IsText};

    ghost Value = { List ℕ };

    ghost view = { λ t. (arc_value t.bytes).items };

    ghost invariant = { λ t. IsText (arc_value t.bytes).items };
}

fn is_printable(byte: u8) -> bool
    ensures { result ≡ is_printable byte }
{
    byte >= 0x20 && byte <= 0x7E
}

fn first_unprintable(bytes: &[u8]) -> Option<usize>
    ensures place { result ≡ position (λ b. not (is_printable b)) bytes.now }
    ensures none { IfNone result (AllPass is_printable bytes.now) }
    ensures some { OnSome result (¬ AllPass is_printable bytes.now) }
{
    bytes.iter().position(|byte| !is_printable(*byte))
}

impl Text {
    /// The greatest number of bytes.
    pub const MAX_LEN: usize = 200;

    /// Makes the text of these bytes.
    pub fn new(alloc: Global, bytes: &[u8]) -> Result<Text, TextRefused>
        ensures ok { IfOk result (λ text. text ≡ bytes.now) }
        ensures is_text { OnOk result (IsText bytes.now) }
        ensures refused { IfErr result (λ refusal. IsRefusedAs bytes.now refusal) }
        ensures not_text { IfErr result (λ refusal. refusal ≢ TextRefused.Memory → ¬ IsText bytes.now) }
    {
        if bytes.len() > Text::MAX_LEN {
            return Err(TextRefused::TooLong);
        }
        if let Some(at) = first_unprintable(bytes) {
            return Err(TextRefused::NotPrintable { at });
        }
        let Ok(owned) = bytes.to_vec(alloc) else {
            return Err(TextRefused::Memory);
        };
        match Arc::new(alloc, owned) {
            Ok(bytes) => Ok(Text { bytes }),
            Err(_) => Err(TextRefused::Memory),
        }
    }

    /// Makes a text that shares the bytes of this one. It copies no bytes and allocates nothing,
    /// and fails only where the number of sharers cannot be counted.
    pub fn copy(&self) -> Result<Text, Memory>
        ensures { IfOk result (λ text. text ≡ self.now) }
    {
        let bytes = self.bytes.clone()?;
        Ok(Text { bytes })
    }

    /// Returns the bytes of the text.
    pub fn bytes(&self) -> &[u8]
        ensures bytes { result.now ≡ self.now }
        ensures is_text { IsText self.now }
    {
        &self.bytes
    }

    /// Returns the text as a `str`: printable ASCII is UTF-8 (RFC 3629).
    pub fn as_str(&self) -> &str
        ensures { result.now ≡ self.now }
    {
        match str::from_utf8(self.bytes()) {
            Ok(text) => text,
            Err(_) => unreachable!(),
        }
    }

    /// Returns whether the other text has the same bytes.
    pub fn same(&self, other: &Text) -> bool
        ensures same { IsTrue result ↔ (self.now ≡ other.now) }
        ensures bytes { result ≡ bytes_eq self.now other.now }
    {
        self.bytes() == other.bytes()
    }
}
