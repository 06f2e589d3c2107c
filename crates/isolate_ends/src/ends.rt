// The ends of an isolate's queues.
ghost use Rattle.std.specs.Prelude.{◌≡◌, ◌+◌, ◌<◌, ◌≤◌, ◌^◌, ◌-◌, ℕ, [], ◌∷◌, length, take, true, false, OnOk, OnErr, IfOk, IfErr, if◌then◌else◌};
ghost use Rattle.prof_base.specs.Causes.{Rose};
ghost use Rattle.code_event.specs.declared.tick.Item.TheVariants as item;
ghost use Rattle.pipe_core.specs.Observed.{IsObserved};
ghost use Rattle.isolate_acts.specs.Acts.{numbered};
ghost use Rattle.isolate_ends.specs.Queues.{HaveMore, shown};

use code_event::{CodeEvent, EventRecord, Tick};
use pipe_core::{Offer, Offered, Tail};
use prof_base::{Memory, Sequence};
use std::alloc::Global;

/// The ends at which an isolate puts in what it raises: code events, ticks of the engine, and samples.
#[derive(Drop)]
pub struct Ends<E, V, O> {
    pub events: E,
    pub vm_ticks: V,
    pub ring: O,
}

impl<E: Tail<EventRecord>, V: Tail<Tick>, O: Offer> Ends<E, V, O> {
    // Puts an event in. When out of memory, it leaves the queues unchanged.
    pub fn put_event(&mut self, alloc: Global, event: EventRecord) -> Result<(), Memory>
        ensures ok { OnOk result (HaveMore (shown E.passed V.passed O.passed E.holds V.holds O.holds self.old) (shown E.passed V.passed O.passed E.holds V.holds O.holds self.new) (item.Event event ∷ [])) }
        ensures err { OnErr result (shown E.passed V.passed O.passed E.holds V.holds O.holds self.new ≡ shown E.passed V.passed O.passed E.holds V.holds O.holds self.old) }
        ensures spare { E.spare self.new.events ≡ E.spare self.old.events }
        ensures home { E.home self.new.events ≡ E.home self.old.events }
        ensures vm_ticks { self.new.vm_ticks ≡ self.old.vm_ticks }
        ensures ring { self.new.ring ≡ self.old.ring }
    {
        match self.events.put(alloc, event) {
            Ok(()) => Ok(()),
            Err(_) => Err(Memory),
        }
    }

    // Puts in events with their stamps, after `before` events and `ticks` ticks, and returns their
    // number. Out of memory, it returns how many of them are in.
    pub fn put_events(
        &mut self,
        alloc: Global,
        events: Sequence<CodeEvent>,
        before: u64,
        ticks: u64,
    ) -> Result<u32, u32>
        requires room { before < 2 ^ 63 }
        ensures ok { IfOk result (λ count. (count ≡ length events)
            × HaveMore (shown E.passed V.passed O.passed E.holds V.holds O.holds self.old) (shown E.passed V.passed O.passed E.holds V.holds O.holds self.new) (numbered before ticks events)) }
        ensures err { IfErr result (λ count. (count ≤ length events)
            × HaveMore (shown E.passed V.passed O.passed E.holds V.holds O.holds self.old) (shown E.passed V.passed O.passed E.holds V.holds O.holds self.new) (numbered before ticks (take count events))) }
        ensures spare { E.spare self.new.events ≡ E.spare self.old.events }
        ensures home { E.home self.new.events ≡ E.home self.old.events }
        ensures vm_ticks { self.new.vm_ticks ≡ self.old.vm_ticks }
        ensures ring { self.new.ring ≡ self.old.ring }
    {
        if events.len() > u32::MAX as usize {
            return Err(0);
        }
        let mut count = 0u32;
        for event in events.into_vec() {
            let record = EventRecord {
                number: before + u64::from(count) + 1,
                ticks_before: ticks,
                event,
            };
            if self.put_event(alloc, record).is_err() {
                return Err(count);
            }
            count += 1;
        }
        Ok(count)
    }

    // Puts in the event of the end, for which there is a spare place. It takes no memory.
    pub fn put_last(&mut self, event: EventRecord)
        requires has_spare { 0 < E.spare self.old.events }
        ensures more { HaveMore (shown E.passed V.passed O.passed E.holds V.holds O.holds self.old) (shown E.passed V.passed O.passed E.holds V.holds O.holds self.new) (item.Event event ∷ []) }
        ensures home { E.home self.new.events ≡ E.home self.old.events }
        ensures vm_ticks { self.new.vm_ticks ≡ self.old.vm_ticks }
        ensures ring { self.new.ring ≡ self.old.ring }
    {
        self.events.put_last(event);
    }

    // Puts in a tick of the engine. When out of memory, it leaves the queues unchanged.
    pub fn put_tick(&mut self, alloc: Global, tick: Tick) -> Result<(), Memory>
        requires no_hit { tick.hit ≡ false }
        ensures ok { OnOk result (HaveMore (shown E.passed V.passed O.passed E.holds V.holds O.holds self.old) (shown E.passed V.passed O.passed E.holds V.holds O.holds self.new) (item.Tick tick ∷ [])) }
        ensures err { OnErr result (shown E.passed V.passed O.passed E.holds V.holds O.holds self.new ≡ shown E.passed V.passed O.passed E.holds V.holds O.holds self.old) }
        ensures home { V.home self.new.vm_ticks ≡ V.home self.old.vm_ticks }
        ensures events { self.new.events ≡ self.old.events }
        ensures ring { self.new.ring ≡ self.old.ring }
    {
        match self.vm_ticks.put(alloc, tick) {
            Ok(()) => Ok(()),
            Err(_) => Err(Memory),
        }
    }

    // Offers a sample to the ring, and returns whether it is in. It takes no memory and does not wait.
    pub fn offer(&mut self, tick: Tick) -> bool
        requires hit { tick.hit ≡ true }
        ensures more { HaveMore (shown E.passed V.passed O.passed E.holds V.holds O.holds self.old) (shown E.passed V.passed O.passed E.holds V.holds O.holds self.new) (if result then item.Tick tick ∷ [] else []) }
        ensures home { O.home self.new.ring ≡ O.home self.old.ring }
        ensures events { self.new.events ≡ self.old.events }
        ensures vm_ticks { self.new.vm_ticks ≡ self.old.vm_ticks }
        ensures dropped { result ≡ false → Rose (O.fulls self.old.ring) (O.fulls self.new.ring) }
        ensures counted { IsObserved (O.passed self.old.ring) → O.fulls self.new.ring ≡ O.fulls self.old.ring + (if result then 0 else 1) }
    {
        match self.ring.offer(tick) {
            Offered::In => true,
            Offered::Full(_) => false,
        }
    }
}
