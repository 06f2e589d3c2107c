// The causes that only the text of a program has.

/// A rule of programs that a line or the end of a text breaks.
#[derive(Clone, Copy, Debug, PartialEq, Eq)]
pub enum Rule {
    UnknownName,
    Twice,
    Limit,
    NoMain,
}
