// The ends of the queues between an isolate and its processor.
ghost use Rattle.std.specs.Prelude.{◌≡◌, ◌<◌, ◌≤◌, ◌+◌, ℕ, List, Option, Some, None, OnOk, IfErr};
ghost use Rattle.prof_base.specs.Causes.{Rose};
ghost use Rattle.code_event.specs.declared.tick.Tick.{Tick};
ghost use Rattle.pipe_core.specs.declared.stamp.Stamp.{Stamp};
ghost use Rattle.pipe_core.specs.Stamps.{tick_stamp};
ghost use Rattle.pipe_core.specs.Observed.{appended, IsObserved, LostFirst, HasFirst, ShowsFirst, IfThere, MatchOffered, MatchFront, fulls_after};

use crate::answers::{Front, NoRoom, Offered};
use crate::stamp::{Stamp, Stamped};
use code_event::Tick;
use std::alloc::Global;

/// The end of a queue at which items are put in. A queue keeps a spare place, for an item that must
/// go in when memory is short.
pub trait Tail<T> {
    /// All that was put in through this end, in order, where it can be observed.
    ghost passed: { Self → Option (List T) };

    /// What the queue holds now, the oldest first, where it can be observed.
    ghost holds: { Self → Option (List T) };

    /// The number of spare places.
    ghost spare: { Self → ℕ };

    /// The queue to which the end belongs. No call changes it.
    ghost home: { Self → List ℕ };

    /// Puts an item in, and leaves the spare place unused. When out of memory, it leaves the queue
    /// unchanged and returns the item.
    fn put(&mut self, alloc: Global, item: T) -> Result<(), NoRoom<T>>
        ensures home { home self.new ≡ home self.old }
        ensures passed { OnOk result (passed self.new ≡ appended (passed self.old) item) }
        ensures holds { OnOk result (holds self.new ≡ appended (holds self.old) item) }
        ensures refused { IfErr result (λ e. e.0 ≡ item) }
        ensures passed_nothing { IfErr result (λ _. passed self.new ≡ passed self.old) }
        ensures holds_the_same { IfErr result (λ _. holds self.new ≡ holds self.old) }
        ensures spare { spare self.new ≡ spare self.old };

    /// Puts an item in at the spare place, which is then used up. It takes no memory.
    fn put_last(&mut self, item: T)
        requires has_spare { 0 < spare self.old }
        ensures home { home self.new ≡ home self.old }
        ensures passed { passed self.new ≡ appended (passed self.old) item }
        ensures holds { holds self.new ≡ appended (holds self.old) item }
        ensures spare { spare self.new + 1 ≡ spare self.old };
}

/// The end of a queue at which items are taken out.
pub trait Head<T: Stamped> {
    /// All that was taken out through this end, in order, where it can be observed.
    ghost passed: { Self → Option (List T) };

    /// What the queue holds now, the oldest first, where it can be observed.
    ghost holds: { Self → Option (List T) };

    /// The number of looks: a look finds nothing only where this count rose.
    ghost looks: { Self → ℕ };

    /// The stamp that the last look showed; none before the first look and after `take`.
    ghost shown: { Self → Option Stamp };

    /// The queue to which the end belongs. No call changes it.
    ghost home: { Self → List ℕ };

    /// Looks at the oldest item and returns its stamp. While a stamp is shown, it returns that one again.
    fn peek(&mut self) -> Option<Stamp>
        ensures home { home self.new ≡ home self.old }
        ensures passed { passed self.new ≡ passed self.old }
        ensures holds { holds self.new ≡ holds self.old }
        ensures shown { shown self.new ≡ result }
        ensures again { IfThere (shown self.old) (Unit {0}) (λ s. result ≡ Some s) }
        ensures first { ShowsFirst T.stamp_of (holds self.old) result }
        ensures looks { Rose (looks self.old) (looks self.new) };

    /// Takes the oldest item out. While a stamp is shown, that is the item that has it. It takes no
    /// memory.
    fn take(&mut self) -> Option<T>
        ensures home { home self.new ≡ home self.old }
        ensures passed { IfThere result (passed self.new ≡ passed self.old) (λ x. passed self.new ≡ appended (passed self.old) x) }
        ensures holds { IfThere result (holds self.new ≡ holds self.old) (λ x. LostFirst (holds self.old) (holds self.new) x) }
        ensures first { HasFirst (holds self.old) result }
        ensures was_shown { IfThere (shown self.old) (Unit {0}) (λ s. IfThere result (Unit {0} → ⊥) (λ x. T.stamp_of x ≡ s)) }
        ensures shown { shown self.new ≡ None }
        ensures looks { looks self.new ≡ looks self.old };
}

/// The end of a ring at which ticks are offered. It neither waits nor takes memory.
pub trait Offer {
    /// All that went in through this end, in order, where it can be observed.
    ghost passed: { Self → Option (List Tick) };

    /// What the ring holds now, the oldest first, where it can be observed.
    ghost holds: { Self → Option (List Tick) };

    /// The number of answers `Full`: a tick is refused only where this count rose.
    ghost fulls: { Self → ℕ };

    /// The ring to which the end belongs. No call changes it.
    ghost home: { Self → List ℕ };

    /// Puts a tick in, unless its slot is still full: then it returns the tick. Where `passed` can be
    /// observed, `fulls` counts just the refused ticks.
    fn offer(&mut self, tick: Tick) -> Offered
        ensures home { home self.new ≡ home self.old }
        ensures passed { MatchOffered result (passed self.new ≡ appended (passed self.old) tick) (λ _. passed self.new ≡ passed self.old) }
        ensures holds { MatchOffered result (holds self.new ≡ appended (holds self.old) tick) (λ _. holds self.new ≡ holds self.old) }
        ensures back { MatchOffered result (Unit {0}) (λ t. t ≡ tick) }
        ensures cause { MatchOffered result (fulls self.old ≤ fulls self.new) (λ _. Rose (fulls self.old) (fulls self.new)) }
        ensures counted { IsObserved (passed self.old) → fulls self.new ≡ fulls_after (fulls self.old) result };
}

/// The end of a ring at which ticks are taken out. It neither waits nor takes memory.
pub trait Fronted {
    /// All that was removed through this end, in order, where it can be observed.
    ghost passed: { Self → Option (List Tick) };

    /// What the ring holds now, the oldest first, a held tick included, where it can be observed.
    ghost holds: { Self → Option (List Tick) };

    /// The tick that the last look moved out of its slot and that is not yet removed.
    ghost held_tick: { Self → Option Tick };

    /// The number of answers `Empty`: a look finds no tick only where this count rose.
    ghost empties: { Self → ℕ };

    /// The ring to which the end belongs. No call changes it.
    ghost home: { Self → List ℕ };

    /// Looks at the oldest tick, moves it out of its slot and returns its stamp: from now on the tick is
    /// held. While a tick is held, it returns the stamp of that one.
    fn front(&mut self) -> Front
        ensures home { home self.new ≡ home self.old }
        ensures passed { passed self.new ≡ passed self.old }
        ensures holds { holds self.new ≡ holds self.old }
        ensures shown { MatchFront result (λ s. IfThere (held_tick self.new) (Unit {0} → ⊥) (λ t. s ≡ tick_stamp t)) (held_tick self.new ≡ None) }
        ensures again { IfThere (held_tick self.old) (Unit {0}) (λ t. held_tick self.new ≡ Some t) }
        ensures first { HasFirst (holds self.old) (held_tick self.new) }
        ensures cause { MatchFront result (λ _. empties self.old ≤ empties self.new) (Rose (empties self.old) (empties self.new)) };

    /// Returns the held tick, and None exactly where no tick is held.
    fn held(&self) -> Option<&Tick>
        ensures held { IfThere (held_tick self.now) (result ≡ None) (λ t. IfThere result (Unit {0} → ⊥) (λ r. r.now ≡ t)) };

    /// Returns the held tick and marks its slot empty; None exactly where no tick is held.
    fn remove(&mut self) -> Option<Tick>
        ensures home { home self.new ≡ home self.old }
        ensures value { result ≡ held_tick self.old }
        ensures held { held_tick self.new ≡ None }
        ensures passed { IfThere result (passed self.new ≡ passed self.old) (λ t. passed self.new ≡ appended (passed self.old) t) }
        ensures holds { IfThere result (holds self.new ≡ holds self.old) (λ t. LostFirst (holds self.old) (holds self.new) t) }
        ensures empties { empties self.new ≡ empties self.old };
}
