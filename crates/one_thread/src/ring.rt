// The ring of one thread.
ghost use Rattle.std.specs.Prelude.{[], ◌∷◌, Some, if◌then◌else◌};
ghost use Rattle.one_thread.specs.Rings.{fulls_now, passed_now};

use code_event::Tick;
use history::History;
use pipe_core::{Offer, Offered, PlainRing};

/// The number of places of each ring of one thread: more than a turn takes samples.
pub const PLACES: u32 = 2;

/// The ring at which an isolate offers its samples, where the processor empties it after each turn. It
/// takes each sample of a turn, or refuses each.
#[derive(Drop)]
pub struct TurnRing {
    pub ring: PlainRing,
    /// Whether it refuses each sample, as if its slot were still full.
    pub refuses: bool,
    /// The samples that it has refused so. Only proofs read them.
    pub refused: History<Tick>,
}

impl Offer for TurnRing {
    ghost passed = { λ r. passed_now r.refuses };

    ghost holds = { λ r. Some r.ring.items };

    ghost fulls = { λ r. fulls_now r.refuses r.ring r.refused.items };

    ghost home = { λ r. r.ring.places ∷ (if r.refuses then 1 else 0) ∷ [] };

    fn offer(&mut self, tick: Tick) -> Offered {
        if self.refuses {
            self.refused = self.refused.with(&tick);
            return Offered::Full(tick);
        }
        self.ring.offer(tick)
    }
}
