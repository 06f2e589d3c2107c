// How a guest ends.

/// How a guest program ends by itself.
#[derive(Clone, Copy, Debug, PartialEq, Eq)]
pub enum Ended {
    /// It halted, or its first frame returned.
    Halt,
    /// A call found 255 frames.
    Overflow,
    /// It ran past the end of a function's body.
    OffEnd,
}
