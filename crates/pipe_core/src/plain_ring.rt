// The ring of one thread.
ghost use Rattle.std.specs.Prelude.{◌≡◌, ℕ, ◌+◌, ◌<◌, ◌≤◌, ◌++◌, ◌∷◌, List, [], length, true, false, Option, Some, None, is_some, option_map, IfOk};
ghost use Rattle.prof_base.specs.Causes.{Rose};
ghost use Rattle.pipe_core.specs.Plain.{RingValue, held_of};
ghost use Rattle.pipe_core.specs.Stamps.{tick_stamp};
ghost use Rattle.pipe_core.specs.Observed.{first_of, MatchFront, MatchOffered};
ghost use Rattle.code_event.specs.declared.tick.Tick.{Tick};

use crate::answers::{Front, Offered};
use crate::ends::{Fronted, Offer};
use crate::stamp::Stamped;
use crate::world::MAX_RING;
use code_event::Tick;
use prof_base::Memory;
use std::alloc::Global;
use std::collections::VecDeque;
use std::marker::Model;

/// A ring in memory, with both ends for one thread: an array of places with two counts, so that no tick
/// is moved for another one.
#[derive(Drop)]
pub struct PlainRing {
    items: VecDeque<Tick>,
    places: usize,
    is_held: bool,
    fulls: u64,
    empties: u64,
}

impl Model for PlainRing {
    ghost use Rattle.std.specs.Prelude.{◌≡◌, ◌<◌, ◌≤◌, length, true};
    ghost use Rattle.std.specs.VecDeque.{deque_capacity};
    ghost use Rattle.pipe_core.specs.Plain.{RingValue};

    ghost Value = { RingValue };

    ghost view = { λ r. record { items = r.items.items; places = r.places; is_held = r.is_held; fulls = r.fulls; empties = r.empties } };

    ghost invariant = { λ r. (length r.items.items ≤ r.places) × (r.places ≤ deque_capacity r.items) × (r.is_held ≡ true → 0 < length r.items.items) };
}

impl PlainRing {
    /// Makes a ring of 1 to 1,024 places that holds nothing.
    pub fn new(alloc: Global, ring: u32) -> Result<PlainRing, Memory>
        requires some { 1 ≤ ring }
        requires few { ring ≤ MAX_RING }
        ensures empty { IfOk result (λ r. r ≡ record { items = []; places = ring; is_held = false; fulls = 0; empties = 0 }) }
    {
        let places = ring as usize;
        Ok(PlainRing {
            items: VecDeque::with_capacity(alloc, places)?,
            places,
            is_held: false,
            fulls: 0,
            empties: 0,
        })
    }
}

impl Offer for PlainRing {
    ghost passed = { λ _. None };

    ghost holds = { λ r. Some r.items };

    ghost fulls = { λ r. r.fulls };

    ghost home = { λ r. r.places ∷ [] };

    fn offer(&mut self, tick: Tick) -> Offered
        ensures went_in { MatchOffered result (self.new ≡ record self.old { items = self.old.items ++ tick ∷ [] }) (λ t. t ≡ tick) }
        ensures had_room { MatchOffered result (length self.old.items < self.old.places) (λ _. length self.old.items ≡ self.old.places) }
        ensures refused { MatchOffered result (Unit {0}) (λ _. Rose self.old.fulls self.new.fulls × (self.new ≡ record self.old { fulls = self.new.fulls })) }
    {
        if self.items.len() == self.places {
            self.fulls = self.fulls.saturating_add(1);
            return Offered::Full(tick);
        }
        self.items.push_back_reserved(tick);
        Offered::In
    }
}

impl Fronted for PlainRing {
    ghost passed = { λ _. None };

    ghost holds = { λ r. Some r.items };

    ghost held_tick = { held_of };

    ghost empties = { λ r. r.empties };

    ghost home = { λ r. r.places ∷ [] };

    fn front(&mut self) -> Front
        ensures shown { MatchFront result (λ s. option_map tick_stamp (first_of self.old.items) ≡ Some s) (self.old.items ≡ []) }
        ensures held { self.new.is_held ≡ is_some (first_of self.old.items) }
        ensures same { self.new ≡ record self.old { is_held = self.new.is_held; empties = self.new.empties } }
        ensures empties { MatchFront result (λ _. self.new.empties ≡ self.old.empties) (Rose self.old.empties self.new.empties) }
    {
        match self.items.front() {
            Some(tick) => {
                self.is_held = true;
                Front::Tick(tick.stamp())
            }
            None => {
                self.empties = self.empties.saturating_add(1);
                Front::Empty
            }
        }
    }

    fn held(&self) -> Option<&Tick> {
        if self.is_held {
            self.items.front()
        } else {
            None
        }
    }

    fn remove(&mut self) -> Option<Tick>
        ensures tick { result ≡ held_of self.old }
        ensures none { result ≡ None → self.new ≡ self.old }
        ensures some { (t : Tick) → result ≡ Some t → self.old.items ≡ t ∷ self.new.items }
        ensures same { self.new ≡ record self.old { items = self.new.items; is_held = false } }
    {
        if !self.is_held {
            return None;
        }
        self.is_held = false;
        self.items.pop_front()
    }
}
