// A queue that refuses items by their numbers.
ghost use Rattle.std.specs.Prelude.{◌≡◌, [], None, ◌≤◌, IfOk};

use pipe_core::{Head, NoRoom, PlainQueue, Stamped, Tail};
use prof_base::Memory;
use std::alloc::Global;

/// A queue, with the numbers of the items, from 1, that it refuses as if out of memory.
#[derive(Drop)]
pub(crate) struct RefusingQueue<T> {
    queue: PlainQueue<T>,
    refused: Vec<u64>,
    puts: u64,
}

impl<T> RefusingQueue<T> {
    /// Makes a queue that holds nothing.
    pub(crate) fn new(alloc: Global, refused: Vec<u64>) -> Result<RefusingQueue<T>, Memory>
        ensures spare { IfOk result (λ q. 1 ≤ q.queue.spare) }
    {
        Ok(RefusingQueue {
            queue: PlainQueue::new(alloc)?,
            refused,
            puts: 0,
        })
    }
}

impl<T: Stamped> RefusingQueue<T> {
    /// Takes the oldest item out.
    pub(crate) fn take(&mut self) -> Option<T>
        ensures spare { self.new.queue.spare ≡ self.old.queue.spare }
    {
        self.queue.take()
    }
}

impl<T> Tail<T> for RefusingQueue<T> {
    ghost passed = { λ _. None };

    ghost holds = { λ _. None };

    ghost spare = { λ q. q.queue.spare };

    ghost home = { λ _. [] };

    fn put(&mut self, alloc: Global, item: T) -> Result<(), NoRoom<T>> {
        self.puts = self.puts.saturating_add(1);
        if self.refused.as_slice().contains(&self.puts) {
            return Err(NoRoom(item));
        }
        self.queue.put(alloc, item)
    }

    fn put_last(&mut self, item: T) {
        self.queue.put_last(item);
    }
}
