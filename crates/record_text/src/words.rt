// Words and numbers that stand in the texts of several records.
ghost use Rattle.std.specs.Prelude.{◌≡◌, ◌≤◌, ◌++◌, ◌∷◌, OnOk, IfOk, decimal};
ghost use Rattle.prof_lines.specs.Answers.{Gives};
ghost use Rattle.record_text.specs.Words.{mode_of, bound_of, session_at, time_at, mode_word, max_word};

use crate::rule::Rule;
use code_event::Mode;
use prof_base::{Memory, Micros, put_decimal};
use prof_lines::{Cause, LineFault, number, number_of};

/// Returns the mode that a word names: `leaf` or `caller`.
pub fn mode_of(word: &[u8]) -> Result<Mode, LineFault<Rule>>
    ensures mode { Gives (λ mode. mode) result (mode_of word.now) }
{
    if word == b"leaf".as_slice() {
        Ok(Mode::Leaf)
    } else if word == b"caller".as_slice() {
        Ok(Mode::Caller)
    } else {
        Err(LineFault::At(Cause::Word))
    }
}

/// Returns the bound that a word gives: none for `all`, else a number from `least` on.
pub fn bound_of(word: &[u8], least: u64) -> Result<Option<u32>, LineFault<Rule>>
    ensures bound { Gives (λ bound. bound) result (bound_of least word.now) }
{
    if word == b"all".as_slice() {
        return Ok(None);
    }
    let most = number_of(word, least, 4_294_967_295)?;
    Ok(Some(most as u32))
}

/// Returns the number of the session that comes next, and the bytes after it.
pub fn session(bytes: &[u8]) -> Result<(u32, &[u8]), LineFault<Rule>>
    ensures session { Gives (λ x. (x.0, x.1.now)) result (session_at bytes.now) }
{
    let (session, rest) = number(bytes, 1, 4_294_967_295)?;
    Ok((session as u32, rest))
}

/// Returns the time that comes next, in microseconds, and the bytes after it.
pub fn time(bytes: &[u8]) -> Result<(u64, &[u8]), LineFault<Rule>>
    ensures time { Gives (λ x. (x.0, x.1.now)) result (time_at bytes.now) }
    ensures bound { IfOk result (λ x. x.0 ≤ Micros.MAX) }
{
    let (time, rest) = number(bytes, 0, Micros::MAX)?;
    Ok((time, rest))
}

/// Returns the word for a mode.
pub fn mode_word(mode: Mode) -> &'static [u8]
    ensures word { result.now ≡ mode_word mode }
{
    match mode {
        Mode::Leaf => b"leaf",
        Mode::Caller => b"caller",
    }
}

/// Appends a space and the word. When out of memory, `out` may have got a prefix of them.
pub fn put_word(out: &mut Vec<u8>, word: &[u8]) -> Result<(), Memory>
    ensures text { OnOk result (out.new.items ≡ out.old.items ++ 32 ∷ word.now) }
{
    out.push(b' ')?;
    out.extend_from_slice(word)?;
    Ok(())
}

/// Appends a space and the number in decimal digits. When out of memory, `out` may have got a prefix of them.
pub fn put_number(out: &mut Vec<u8>, number: u64) -> Result<(), Memory>
    ensures text { OnOk result (out.new.items ≡ out.old.items ++ 32 ∷ decimal number) }
{
    out.push(b' ')?;
    put_decimal(out, number)?;
    Ok(())
}

/// Appends a space and the word for a bound. When out of memory, `out` may have got a prefix of them.
pub fn put_max(out: &mut Vec<u8>, max: Option<u32>) -> Result<(), Memory>
    ensures text { OnOk result (out.new.items ≡ out.old.items ++ 32 ∷ max_word max) }
{
    match max {
        None => put_word(out, b"all"),
        Some(most) => put_number(out, u64::from(most)),
    }
}
