// Stamps of events and ticks.
ghost use Rattle.std.specs.Prelude.{◌≡◌};
ghost use Rattle.pipe_core.specs.declared.stamp.Stamp.{Stamp};
ghost use Rattle.pipe_core.specs.Stamps.{event_stamp, tick_stamp};

use code_event::{EventRecord, Tick};

/// The two numbers that put an event or a tick into the one order of all items.
#[derive(Clone, Copy, Debug, PartialEq, Eq)]
pub struct Stamp {
    /// Of an event its number, from 1; of a tick the number of events before it.
    pub event: u64,
    /// Of an event the number of undropped ticks before it; of a tick its number, from 1.
    pub tick: u64,
}

/// What has a stamp.
pub trait Stamped {
    /// The stamp.
    ghost stamp_of: { Self → Stamp };

    /// Returns the stamp.
    fn stamp(&self) -> Stamp
        ensures stamp { result ≡ stamp_of self.now };
}

impl Stamped for EventRecord {
    ghost stamp_of = { event_stamp };

    fn stamp(&self) -> Stamp {
        Stamp {
            event: self.number,
            tick: self.ticks_before,
        }
    }
}

impl Stamped for Tick {
    ghost stamp_of = { tick_stamp };

    fn stamp(&self) -> Stamp {
        Stamp {
            event: self.order,
            tick: self.tick_number,
        }
    }
}
