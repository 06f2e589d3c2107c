// What a turn of an isolate comes to.
use run_schedule::EndCause;

/// What a turn came to.
#[derive(Clone, Copy, Debug, PartialEq, Eq)]
pub enum IsoTurn {
    /// The isolate goes on.
    Ran,
    /// It has ended.
    Ended(EndCause),
}
