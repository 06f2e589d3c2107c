// How a file's text is printed.
use std::{io, str};

/// A text with more bytes than this is printed as its beginning, its length and its hash.
const SHORT: usize = 4_000;

/// The length of that beginning.
const BEGINNING: usize = 1_000;

// The FNV-1a hash of 64 bits.
fn hash(bytes: &[u8]) -> u64 {
    let mut hash = 0xcbf2_9ce4_8422_2325u64;
    for byte in bytes {
        hash = (hash ^ u64::from(*byte)).wrapping_mul(0x0100_0000_01b3);
    }
    hash
}

fn print_bytes(rt: &impl Print, bytes: &[u8]) -> Result<(), io::Error> {
    print!(rt; "{}", str::from_utf8(bytes).unwrap_or("?"))
}

/// Prints a text.
pub(crate) fn print_text(rt: &impl Print, text: &[u8]) -> Result<(), io::Error> {
    if text.len() > SHORT {
        let (beginning, _) = text.split_at(BEGINNING);
        print_bytes(rt, beginning)?;
        print!(rt; " .. {} bytes, {:016x}", text.len(), hash(text))
    } else {
        print_bytes(rt, text)
    }
}
