// What the bytes at hand begin with.
ghost use Rattle.std.specs.Prelude.{◌≡◌, ◌≤◌, length};
ghost use Rattle.prof_lines.specs.Words.{len_before, after_spaces};

// How many bytes stand before the first that is `stop`.
pub(crate) fn len_before(stop: u8, bytes: &[u8]) -> usize
    ensures len { result ≡ len_before stop bytes.now }
    ensures bound { result ≤ length bytes.now }
{
    let mut len = 0usize;
    let mut rest = bytes;
    while let [byte, after @ ..] = rest {
        if *byte == stop {
            break;
        }
        len += 1;
        rest = after;
    }
    len
}

// The bytes from the first on that is no space.
pub(crate) fn after_spaces(bytes: &[u8]) -> &[u8]
    ensures { result.now ≡ after_spaces bytes.now }
{
    let mut rest = bytes;
    while let [b' ', after @ ..] = rest {
        rest = after;
    }
    rest
}
