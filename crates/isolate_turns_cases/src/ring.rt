// A ring that counts the ticks that it refuses.
ghost use Rattle.std.specs.Prelude.{[], None};

use code_event::Tick;
use pipe_core::{Front, Fronted, Offer, Offered, PlainRing};

/// A ring, with the number of ticks that found it full.
#[derive(Drop)]
pub(crate) struct CountingRing {
    ring: PlainRing,
    fulls: u64,
}

impl CountingRing {
    /// Makes a ring that has refused nothing.
    pub(crate) fn new(ring: PlainRing) -> CountingRing {
        CountingRing { ring, fulls: 0 }
    }

    /// Returns the number of ticks that were refused.
    pub(crate) fn fulls(&self) -> u64 {
        self.fulls
    }

    /// Takes the oldest tick out.
    pub(crate) fn take(&mut self) -> Option<Tick> {
        match self.ring.front() {
            Front::Tick(_) => self.ring.remove(),
            Front::Empty => None,
        }
    }
}

impl Offer for CountingRing {
    ghost passed = { λ _. None };

    ghost holds = { λ _. None };

    ghost fulls = { λ r. r.fulls };

    ghost home = { λ _. [] };

    fn offer(&mut self, tick: Tick) -> Offered {
        match self.ring.offer(tick) {
            Offered::In => Offered::In,
            Offered::Full(tick) => {
                self.fulls = self.fulls.saturating_add(1);
                Offered::Full(tick)
            }
        }
    }
}
