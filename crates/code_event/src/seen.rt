// What sessions see of a run, apart from addresses.
ghost use Rattle.std.specs.Prelude.{◌≡◌, IfOk};

use crate::entry::Entry;
use crate::event::Options;
use prof_base::{Memory, Micros, Sequence, SessionId, Text};

/// A frame of the guest's stack, resolved to its function and the line at which that was. One
/// address of code with inlined functions resolves to several frames.
#[derive(Debug, Drop)]
pub struct ResolvedFrame {
    pub entry: Entry,
    pub line: u32,
}

/// A tick with its resolved frames.
#[derive(Debug, Drop)]
pub struct ResolvedTick {
    pub time: Micros,
    /// The source interval at which it was asked for, in microseconds, or 0.
    pub interval: u32,
    /// Whether it counts as a hit.
    pub hit: bool,
    /// The one session that it is for, or none where it is for all.
    pub only: Option<SessionId>,
    /// The functions, oldest first.
    pub frames: Sequence<ResolvedFrame>,
}

/// Why a function is not optimised.
#[derive(Debug, Drop)]
pub struct DeoptReason {
    pub entry: Entry,
    pub reason: Text,
}

/// A mark of a session, or a tick. The reasons are those at that moment, the latest first: the
/// first of an entry counts.
#[derive(Debug, Drop)]
pub enum Seen {
    Started {
        session: SessionId,
        options: Options,
        time: Micros,
    },
    Stopped {
        session: SessionId,
        time: Micros,
        reasons: Sequence<DeoptReason>,
    },
    Finished {
        time: Micros,
        files: bool,
        reasons: Sequence<DeoptReason>,
    },
    Ticked(ResolvedTick),
}

impl ResolvedFrame {
    /// Makes an equal frame, which shares its texts.
    pub fn copy(&self) -> Result<ResolvedFrame, Memory>
        ensures { IfOk result (λ copy. copy ≡ self.now) }
    {
        Ok(ResolvedFrame {
            entry: self.entry.copy()?,
            line: self.line,
        })
    }
}

impl DeoptReason {
    /// Makes an equal reason, which shares its texts.
    pub fn copy(&self) -> Result<DeoptReason, Memory>
        ensures { IfOk result (λ copy. copy ≡ self.now) }
    {
        Ok(DeoptReason {
            entry: self.entry.copy()?,
            reason: self.reason.copy()?,
        })
    }
}
