// What a queue answers.
use crate::items::tick;
use crate::out_of_memory;
use code_event::Tick;
use pipe_core::{Head, NoRoom, PlainQueue, Tail};
use prof_base::Memory;
use std::alloc::Global;
use std::io;

// Puts in ticks from number 2 on, and returns how many there then are.
fn fill<Q: Tail<Tick>>(alloc: Global, queue: &mut Q, count: u32) -> Result<(), Memory> {
    for number in 0..count {
        if let Err(NoRoom(_)) = queue.put(alloc, tick(u64::from(number) + 2, 0)) {
            return Err(Memory);
        }
    }
    Ok(())
}

// Looks twice at the first item, and takes it.
fn take_shown<Q: Head<Tick>>(queue: &mut Q) -> Option<u64> {
    let shown = queue.peek()?;
    let again = queue.peek()?;
    let taken = queue.take()?;
    if shown == again && shown.tick == taken.tick_number {
        Some(taken.tick_number)
    } else {
        None
    }
}

// Takes all out, and counts those that come in order, from number 1 on.
fn drained<Q: Head<Tick>>(queue: &mut Q) -> u64 {
    let mut count = 0u64;
    for _ in 0..2_000u32 {
        if let Some(number) = take_shown(queue) {
            if count.checked_add(1) == Some(number) {
                count = number;
            }
        }
    }
    count
}

pub(crate) fn answers(alloc: Global, count: u32) -> Result<String, io::Error> {
    let mut queue = PlainQueue::new(alloc).map_err(out_of_memory)?;
    queue.put_last(tick(1, 0));
    fill(alloc, &mut queue, count).map_err(out_of_memory)?;
    let taken = drained(&mut queue);
    let left = queue.take().is_some();
    Ok(format!(in alloc; "taken in order {taken}, something left {left}\n")?)
}
