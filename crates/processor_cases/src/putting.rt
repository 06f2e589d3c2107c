// Putting copies of items into queues.
use code_event::{EventRecord, Tick};
use pipe_core::{NoRoom, Offer, Offered, PlainQueue, PlainRing, Tail};
use prof_base::Memory;
use std::alloc::Global;

/// Puts a copy of an event into its queue.
pub(crate) fn put_event(
    alloc: Global,
    events: &mut PlainQueue<EventRecord>,
    record: &EventRecord,
) -> Result<(), Memory> {
    let copy = EventRecord {
        number: record.number,
        ticks_before: record.ticks_before,
        event: record.event.copy()?,
    };
    match events.put(alloc, copy) {
        Ok(()) => Ok(()),
        Err(NoRoom(_)) => Err(Memory),
    }
}

/// Puts a copy of a tick into the engine's queue.
pub(crate) fn put_vm_tick(
    alloc: Global,
    vm_ticks: &mut PlainQueue<Tick>,
    tick: &Tick,
) -> Result<(), Memory> {
    match vm_ticks.put(alloc, tick.copy()) {
        Ok(()) => Ok(()),
        Err(NoRoom(_)) => Err(Memory),
    }
}

/// Offers a copy of a tick to the ring, and returns whether it went in.
pub(crate) fn offer_sample(ring: &mut PlainRing, tick: &Tick) -> bool {
    match ring.offer(tick.copy()) {
        Offered::In => true,
        Offered::Full(_) => false,
    }
}
