// Numbers in decimal.
ghost use Rattle.std.specs.Prelude.{◌≡◌, ◌++◌, OnOk, bytes_eq, decimal};

use itoa::Buffer;
use std::alloc::AllocError;

/// Appends a number in decimal to a text.
pub fn put_decimal(out: &mut Vec<u8>, number: u64) -> Result<(), AllocError>
    ensures { OnOk result (out.new.items ≡ out.old.items ++ decimal number) }
{
    out.extend_from_slice(Buffer::new().format(number).as_bytes())
}

/// Returns whether a word is the decimal text of a number.
pub fn is_decimal(word: &str, number: u64) -> bool
    ensures { result ≡ bytes_eq word.now (decimal number) }
{
    Buffer::new().format(number).as_bytes() == word.as_bytes()
}
