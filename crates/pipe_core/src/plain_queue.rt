// The queue of one thread.
ghost use Rattle.std.specs.Prelude.{◌≡◌, ℕ, ◌+◌, ◌-◌, ◌<◌, ◌≤◌, ◌++◌, ◌∷◌, List, [], length, true, false, if◌then◌else◌, Option, Some, None, is_some, option_map, IfOk, OnOk, IfErr};
ghost use Rattle.prof_base.specs.Causes.{Rose};
ghost use Rattle.pipe_core.specs.Plain.{QueueValue, shown_of};
ghost use Rattle.pipe_core.specs.Observed.{first_of};

use crate::answers::NoRoom;
use crate::ends::{Head, Tail};
use crate::stamp::{Stamp, Stamped};
use prof_base::Memory;
use std::alloc::Global;
use std::collections::VecDeque;
use std::marker::Model;

/// A queue in memory, with both ends for one thread. It takes an item out in constant time.
#[derive(Drop)]
pub struct PlainQueue<T> {
    items: VecDeque<T>,
    spare: usize,
    is_shown: bool,
    looks: u64,
}

impl<T> Model for PlainQueue<T> {
    ghost use Rattle.std.specs.Prelude.{◌≡◌, ◌+◌, ◌<◌, ◌≤◌, length, true};
    ghost use Rattle.std.specs.VecDeque.{deque_capacity};
    ghost use Rattle.pipe_core.specs.Plain.{QueueValue};

    ghost Value = { QueueValue T };

    ghost view = { λ q. record { items = q.items.items; spare = q.spare; is_shown = q.is_shown; looks = q.looks } };

    ghost invariant = { λ q. (length q.items.items + q.spare ≤ deque_capacity q.items) × (q.spare ≤ 1) × (q.is_shown ≡ true → 0 < length q.items.items) };
}

impl<T> PlainQueue<T> {
    /// Makes a queue that holds nothing and has its spare place.
    pub fn new(alloc: Global) -> Result<PlainQueue<T>, Memory>
        ensures empty { IfOk result (λ q. q ≡ record { items = []; spare = 1; is_shown = false; looks = 0 }) }
    {
        Ok(PlainQueue {
            items: VecDeque::with_capacity(alloc, 1)?,
            spare: 1,
            is_shown: false,
            looks: 0,
        })
    }
}

impl<T> Tail<T> for PlainQueue<T> {
    ghost passed = { λ _. None };

    ghost holds = { λ q. Some q.items };

    ghost spare = { λ q. q.spare };

    ghost home = { λ _. [] };

    fn put(&mut self, _alloc: Global, item: T) -> Result<(), NoRoom<T>>
        ensures ok { OnOk result (self.new ≡ record self.old { items = self.old.items ++ item ∷ [] }) }
        ensures err { IfErr result (λ e. (e.0 ≡ item) × (self.new ≡ self.old)) }
    {
        if self.items.reserve(1 + self.spare).is_err() {
            return Err(NoRoom(item));
        }
        self.items.push_back_reserved(item);
        Ok(())
    }

    fn put_last(&mut self, item: T)
        requires has_spare { 0 < self.old.spare }
        ensures put { self.new ≡ record self.old { items = self.old.items ++ item ∷ []; spare = self.old.spare - 1 } }
    {
        self.spare -= 1;
        self.items.push_back_reserved(item);
    }
}

impl<T: Stamped> Head<T> for PlainQueue<T> {
    ghost passed = { λ _. None };

    ghost holds = { λ q. Some q.items };

    ghost looks = { λ q. q.looks };

    ghost shown = { shown_of T.stamp_of };

    ghost home = { λ q. q.spare ∷ [] };

    fn peek(&mut self) -> Option<Stamp>
        ensures shown { result ≡ option_map T.stamp_of (first_of self.old.items) }
        ensures is_shown { self.new.is_shown ≡ is_some result }
        ensures same { self.new ≡ record self.old { is_shown = self.new.is_shown; looks = self.new.looks } }
        ensures looks { Rose self.old.looks self.new.looks }
    {
        self.looks = self.looks.saturating_add(1);
        match self.items.front() {
            Some(item) => {
                self.is_shown = true;
                Some(item.stamp())
            }
            None => None,
        }
    }

    fn take(&mut self) -> Option<T>
        ensures item { result ≡ first_of self.old.items }
        ensures spare { self.new.spare ≡ self.old.spare }
        ensures looks { self.new.looks ≡ self.old.looks }
        ensures shown { self.new.is_shown ≡ false }
        ensures none { result ≡ None → self.new.items ≡ self.old.items }
        ensures some { (x : T) → result ≡ Some x → self.old.items ≡ x ∷ self.new.items }
    {
        self.is_shown = false;
        self.items.pop_front()
    }
}
