// The queues of a world.
ghost use Rattle.std.specs.Prelude.{◌≡◌, [], ◌∷◌, ◌++◌, OnOk, OnErr};
ghost use Rattle.std.specs.Option.{option_to_list};
ghost use Rattle.pipe_core.specs.Observed.{first_of, IfThere};

use prof_base::Memory;
use std::alloc::Global;
use std::collections::VecDeque;
use std::marker::Model;

/// A queue that contracts see as the list of its items, the oldest first: what was put in and is not yet
/// taken.
#[derive(Debug, Drop)]
pub struct Backlog<T> {
    items: VecDeque<T>,
}

impl<T> Model for Backlog<T> {
    ghost use Rattle.std.specs.Prelude.{List};
    ghost use Rattle.std.specs.Coded.{coded_list};

    ghost Value = { List T };

    ghost coded = { coded_list T.code };

    ghost view = { λ b. b.items.items };
}

impl<T> Backlog<T> {
    /// Makes an empty queue. It allocates nothing.
    pub fn new(alloc: Global) -> Backlog<T>
        ensures empty { result ≡ [] }
    {
        Backlog {
            items: VecDeque::new(alloc),
        }
    }

    /// Returns the oldest item.
    pub fn first(&self) -> Option<&T>
        ensures first { IfThere result (self.now ≡ []) (λ r. first_of self.now ≡ Some r.now) }
    {
        self.items.front()
    }

    /// Takes the oldest item out, in constant time.
    pub fn take(&mut self) -> Option<T>
        ensures rest { self.old ≡ option_to_list result ++ self.new }
        ensures first { result ≡ first_of self.old }
    {
        self.items.pop_front()
    }
}

impl<T: Drop> Backlog<T> {
    /// Adds an item at the end. When out of memory, it leaves the queue unchanged and drops the item.
    pub fn put(&mut self, item: T) -> Result<(), Memory>
        ensures ok { OnOk result (self.new ≡ self.old ++ item ∷ []) }
        ensures err { OnErr result (self.new ≡ self.old) }
    {
        self.items.push_back(item)?;
        Ok(())
    }
}
