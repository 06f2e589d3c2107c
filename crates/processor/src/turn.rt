// What a turn answers, and how the delivery went.
use prof_base::{Micros, SessionId};

/// How the delivery of the files so far went.
#[derive(Clone, Copy, Debug, PartialEq, Eq)]
pub enum Delivery {
    /// The stream refused nothing.
    Fine,
    /// The stream aborted.
    Aborted,
    /// The stream failed.
    Failed,
}

/// What a processor did in a turn.
#[derive(Clone, Copy, Debug, PartialEq, Eq)]
pub enum ProcTurn {
    /// It took an event that ends no session.
    TookEvent,
    /// It took a tick.
    TookTick,
    /// It ended this session, and did with its file what there was to do.
    Finished(SessionId),
    /// No queue showed the next item.
    Nothing,
    /// A finish was taken, and no session waits for its file.
    Over,
    /// Out of memory. No tick is attributed from now on, and each later file is lost.
    Memory,
}

/// What a processor waits for.
#[derive(Clone, Copy, Debug, PartialEq, Eq)]
pub enum Phase {
    /// The next item.
    Open,
    /// The files of the running sessions, which a finish ended at this time.
    Finishing { time: Micros },
    /// Nothing: a finish without files was taken.
    Closed,
}
