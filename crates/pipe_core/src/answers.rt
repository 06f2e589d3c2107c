// What the ends of queues and rings answer.
use crate::stamp::Stamp;
use code_event::Tick;

/// The answer to a tick that is offered to a ring.
#[derive(Debug, Drop)]
pub enum Offered {
    /// The tick is in.
    In,
    /// The tick's slot was still full. The tick comes back.
    Full(Tick),
}

/// What is at the front of a ring.
#[derive(Clone, Copy, Debug, PartialEq, Eq)]
pub enum Front {
    /// A tick with this stamp, which is held from now on.
    Tick(Stamp),
    /// No tick.
    Empty,
}

/// Out of memory: an item was not put in, and comes back.
#[derive(Debug, Drop)]
pub struct NoRoom<T>(pub T);
