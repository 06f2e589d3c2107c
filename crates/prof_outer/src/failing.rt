// Puts that fail.
ghost use Rattle.std.specs.Prelude.{◌≡◌};
ghost use Rattle.prof_outer.specs.FailingPuts.{left_by};

/// What a failed put leaves under its name.
#[derive(Clone, Copy, Debug, PartialEq, Eq)]
pub enum Left {
    /// What was there before, if anything.
    OldBytes,
    /// The bytes that were to be put.
    NewBytes,
    /// No file.
    Nothing,
}

/// A call of `put` that fails.
#[derive(Clone, Copy, Debug, PartialEq, Eq)]
pub struct FailingPut {
    /// The number of the call; the first call has number 1.
    pub call: u64,
    /// What it leaves under its name.
    pub left: Left,
}

// Returns what the call with this number leaves, where it is to fail.
pub(crate) fn left_by(puts: &[FailingPut], call: u64) -> Option<Left>
    ensures { result ≡ left_by puts.now call }
{
    puts.iter().find(|put| put.call == call).map(|put| put.left)
}
