// The lines of an item list's text, as values.
use code_event::{Frames, Mode, Slot, Unit, VmState};
use prof_base::{Micros, SessionId, Text};

/// An event that takes one line: every event but the creation of code.
#[derive(Debug, Drop)]
pub enum LineEvent {
    Move {
        from: u32,
        to: u32,
    },
    NoOpt {
        start: u32,
        reason: Text,
    },
    Deopt {
        start: u32,
        reason: Text,
    },
    Delete {
        start: u32,
    },
    Start {
        session: SessionId,
        port: u8,
        interval: u32,
        mode: Mode,
        max_samples: Option<u32>,
        time: Micros,
    },
    Stop {
        session: SessionId,
        time: Micros,
    },
    Finish {
        time: Micros,
        files: bool,
    },
}

/// A tick without its stamps, which the text does not have.
#[derive(Debug, Drop)]
pub struct TickLine {
    pub time: Micros,
    pub interval: u32,
    pub state: VmState,
    pub hit: bool,
    pub only: Option<SessionId>,
    pub frames: Frames,
}

/// A line after the first.
#[derive(Debug, Drop)]
pub enum ItemLine {
    /// The creation of code at this address. Its units follow, and then its slots.
    Create(u32),
    Unit(Unit),
    Slot(Slot),
    Event(LineEvent),
    Tick(TickLine),
}

/// A line of the text.
#[derive(Debug, Drop)]
pub enum TextLine {
    /// The first line, with the base.
    Head(u32),
    Body(ItemLine),
}
