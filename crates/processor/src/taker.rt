// What takes the next item from three queues.
ghost use Rattle.std.specs.Prelude.{◌≡◌, ◌<◌, ℕ, suc, List, true, false, Option, Some, None, option_map};
ghost use Rattle.prof_base.specs.Causes.{Rose};
ghost use Rattle.code_event.specs.declared.event.EventRecord.{EventRecord};
ghost use Rattle.code_event.specs.declared.tick.Item.{Item};
ghost use Rattle.code_event.specs.declared.tick.Item.TheVariants as item;
ghost use Rattle.code_event.specs.declared.tick.Tick.{Tick};
ghost use Rattle.pipe_core.specs.Next.{is_event_next, is_tick_next, is_shown};
ghost use Rattle.pipe_core.specs.Observed.{appended, IfThere, HasFirst, LostFirst, ShowsFirst};
ghost use Rattle.pipe_core.specs.Stamps.{event_stamp, tick_stamp};
ghost use Rattle.processor.specs.Taking.{is_next, applied_with, ticked_with, events_with, HavePassed, LosesEvent, LosesTick, ShowsNoNext};

use code_event::{EventRecord, Item, Tick};
use pipe_core::{Front, Fronted, Head, Stamp};

/// Three queues of which each shows its oldest item, and how many events and ticks were taken from
/// them.
#[derive(Drop)]
pub struct Taker<E, V, F> {
    /// The queue of events.
    pub events: E,
    /// The queue of the ticks that no sampling made.
    pub vm_ticks: V,
    /// The ring of samples.
    pub ring: F,
    /// The number of events taken.
    pub applied: u64,
    /// The number of ticks taken.
    pub ticked: u64,
}

// Whether the event with this stamp is next.
fn is_event(shown: Option<Stamp>, applied: u64, ticked: u64) -> bool
    ensures { result ≡ is_shown (is_event_next applied ticked) shown }
{
    match shown {
        Some(stamp) => stamp.event.checked_sub(1) == Some(applied) && stamp.tick == ticked,
        None => false,
    }
}

// Whether the tick with this stamp is next.
fn is_tick(shown: Option<Stamp>, applied: u64, ticked: u64) -> bool
    ensures { result ≡ is_shown (is_tick_next applied ticked) shown }
{
    match shown {
        Some(stamp) => stamp.event == applied && stamp.tick.checked_sub(1) == Some(ticked),
        None => false,
    }
}

impl<E: Head<EventRecord>, V: Head<Tick>, F: Fronted> Taker<E, V, F> {
    /// Makes the taker of three queues from which nothing was taken.
    pub fn new(events: E, vm_ticks: V, ring: F) -> Taker<E, V, F>
        ensures { result ≡ record { events = events; vm_ticks = vm_ticks; ring = ring; applied = 0; ticked = 0 } }
    {
        Taker {
            events,
            vm_ticks,
            ring,
            applied: 0,
            ticked: 0,
        }
    }

    // Takes the event that is next, if its queue shows it.
    fn take_event(&mut self) -> Option<EventRecord>
        ensures home { E.home self.new.events ≡ E.home self.old.events }
        ensures vm_ticks { self.new.vm_ticks ≡ self.old.vm_ticks }
        ensures ring { self.new.ring ≡ self.old.ring }
        ensures ticked { self.new.ticked ≡ self.old.ticked }
        ensures next { IfThere result (Unit {0}) (λ e. is_event_next self.old.applied self.old.ticked (event_stamp e) ≡ true) }
        ensures applied { IfThere result (self.new.applied ≡ self.old.applied) (λ _. self.new.applied ≡ suc self.old.applied) }
        ensures passed { IfThere result (E.passed self.new.events ≡ E.passed self.old.events) (λ e. E.passed self.new.events ≡ appended (E.passed self.old.events) e) }
        ensures holds { IfThere result (E.holds self.new.events ≡ E.holds self.old.events) (λ e. LostFirst (E.holds self.old.events) (E.holds self.new.events) e) }
        ensures looked { IfThere result (Rose (E.looks self.old.events) (E.looks self.new.events)) (λ _. Unit {0}) }
        ensures no_next { IfThere result (is_shown (is_event_next self.old.applied self.old.ticked) (E.shown self.new.events) ≡ false) (λ _. Unit {0}) }
        ensures shown { IfThere result (ShowsFirst event_stamp (E.holds self.old.events) (E.shown self.new.events)) (λ _. Unit {0}) }
    {
        if !is_event(self.events.peek(), self.applied, self.ticked) {
            return None;
        }
        let applied = self.applied.checked_add(1)?;
        let event = self.events.take()?;
        self.applied = applied;
        Some(event)
    }

    // Takes the tick that is next, if the queue of the ticks that no sampling made shows it.
    fn take_vm_tick(&mut self) -> Option<Tick>
        ensures home { V.home self.new.vm_ticks ≡ V.home self.old.vm_ticks }
        ensures events { self.new.events ≡ self.old.events }
        ensures ring { self.new.ring ≡ self.old.ring }
        ensures applied { self.new.applied ≡ self.old.applied }
        ensures next { IfThere result (Unit {0}) (λ t. is_tick_next self.old.applied self.old.ticked (tick_stamp t) ≡ true) }
        ensures ticked { IfThere result (self.new.ticked ≡ self.old.ticked) (λ _. self.new.ticked ≡ suc self.old.ticked) }
        ensures passed { IfThere result (V.passed self.new.vm_ticks ≡ V.passed self.old.vm_ticks) (λ t. V.passed self.new.vm_ticks ≡ appended (V.passed self.old.vm_ticks) t) }
        ensures holds { IfThere result (V.holds self.new.vm_ticks ≡ V.holds self.old.vm_ticks) (λ t. LostFirst (V.holds self.old.vm_ticks) (V.holds self.new.vm_ticks) t) }
        ensures looked { IfThere result (Rose (V.looks self.old.vm_ticks) (V.looks self.new.vm_ticks)) (λ _. Unit {0}) }
        ensures no_next { IfThere result (is_shown (is_tick_next self.old.applied self.old.ticked) (V.shown self.new.vm_ticks) ≡ false) (λ _. Unit {0}) }
        ensures shown { IfThere result (ShowsFirst tick_stamp (V.holds self.old.vm_ticks) (V.shown self.new.vm_ticks)) (λ _. Unit {0}) }
    {
        if !is_tick(self.vm_ticks.peek(), self.applied, self.ticked) {
            return None;
        }
        let ticked = self.ticked.checked_add(1)?;
        let tick = self.vm_ticks.take()?;
        self.ticked = ticked;
        Some(tick)
    }

    // Takes the tick at the front of the ring, if it is next.
    fn take_sample(&mut self) -> Option<Tick>
        ensures home { F.home self.new.ring ≡ F.home self.old.ring }
        ensures events { self.new.events ≡ self.old.events }
        ensures vm_ticks { self.new.vm_ticks ≡ self.old.vm_ticks }
        ensures applied { self.new.applied ≡ self.old.applied }
        ensures next { IfThere result (Unit {0}) (λ t. is_tick_next self.old.applied self.old.ticked (tick_stamp t) ≡ true) }
        ensures ticked { IfThere result (self.new.ticked ≡ self.old.ticked) (λ _. self.new.ticked ≡ suc self.old.ticked) }
        ensures passed { IfThere result (F.passed self.new.ring ≡ F.passed self.old.ring) (λ t. F.passed self.new.ring ≡ appended (F.passed self.old.ring) t) }
        ensures holds { IfThere result (F.holds self.new.ring ≡ F.holds self.old.ring) (λ t. LostFirst (F.holds self.old.ring) (F.holds self.new.ring) t) }
        ensures looked { IfThere result (IfThere (F.held_tick self.new.ring) (Rose (F.empties self.old.ring) (F.empties self.new.ring)) (λ _. Unit {0})) (λ _. Unit {0}) }
        ensures no_next { IfThere result (is_shown (is_tick_next self.old.applied self.old.ticked) (option_map tick_stamp (F.held_tick self.new.ring)) ≡ false) (λ _. Unit {0}) }
        ensures shown { IfThere result (HasFirst (F.holds self.old.ring) (F.held_tick self.new.ring)) (λ _. Unit {0}) }
    {
        match self.ring.front() {
            Front::Tick(stamp) => {
                if !is_tick(Some(stamp), self.applied, self.ticked) {
                    return None;
                }
                let ticked = self.ticked.checked_add(1)?;
                let tick = self.ring.remove()?;
                self.ticked = ticked;
                Some(tick)
            }
            Front::Empty => None,
        }
    }

    /// Takes the next item, if one of the queues shows it.
    pub fn take(&mut self) -> Option<Item>
        ensures events_home { E.home self.new.events ≡ E.home self.old.events }
        ensures vm_ticks_home { V.home self.new.vm_ticks ≡ V.home self.old.vm_ticks }
        ensures ring_home { F.home self.new.ring ≡ F.home self.old.ring }

        // The item was next, and is counted.
        ensures next { IfThere result (Unit {0}) (λ x. is_next self.old.applied self.old.ticked x ≡ true) }
        ensures applied { IfThere result (self.new.applied ≡ self.old.applied) (λ x. self.new.applied ≡ applied_with self.old.applied x) }
        ensures ticked { IfThere result (self.new.ticked ≡ self.old.ticked) (λ x. self.new.ticked ≡ ticked_with self.old.ticked x) }

        // It has passed through one of the ends.
        ensures events_passed { IfThere result (E.passed self.new.events ≡ E.passed self.old.events) (λ x. E.passed self.new.events ≡ events_with (E.passed self.old.events) x) }
        ensures ticks_passed { IfThere result (Unit {0}) (λ x. HavePassed (V.passed self.old.vm_ticks) (V.passed self.new.vm_ticks) (F.passed self.old.ring) (F.passed self.new.ring) x) }
        ensures no_vm_tick_passed { IfThere result (V.passed self.new.vm_ticks ≡ V.passed self.old.vm_ticks) (λ _. Unit {0}) }
        ensures no_sample_passed { IfThere result (F.passed self.new.ring ≡ F.passed self.old.ring) (λ _. Unit {0}) }

        // One of the queues holds it no more.
        ensures events_held { IfThere result (E.holds self.new.events ≡ E.holds self.old.events) (λ x. LosesEvent (E.holds self.old.events) (E.holds self.new.events) x) }
        ensures ticks_held { IfThere result (Unit {0}) (λ x. LosesTick (V.holds self.old.vm_ticks) (V.holds self.new.vm_ticks) (F.holds self.old.ring) (F.holds self.new.ring) x) }
        ensures vm_ticks_held { IfThere result (V.holds self.new.vm_ticks ≡ V.holds self.old.vm_ticks) (λ _. Unit {0}) }
        ensures samples_held { IfThere result (F.holds self.new.ring ≡ F.holds self.old.ring) (λ _. Unit {0}) }

        // Nothing is taken only where this call looked at each queue and none shows the next item.
        ensures events_looked { IfThere result (Rose (E.looks self.old.events) (E.looks self.new.events)) (λ _. Unit {0}) }
        ensures vm_ticks_looked { IfThere result (Rose (V.looks self.old.vm_ticks) (V.looks self.new.vm_ticks)) (λ _. Unit {0}) }
        ensures ring_looked { IfThere result (IfThere (F.held_tick self.new.ring) (Rose (F.empties self.old.ring) (F.empties self.new.ring)) (λ _. Unit {0})) (λ _. Unit {0}) }
        ensures no_next { IfThere result (ShowsNoNext self.old.applied self.old.ticked (E.shown self.new.events) (V.shown self.new.vm_ticks) (option_map tick_stamp (F.held_tick self.new.ring))) (λ _. Unit {0}) }
        ensures event_shown { IfThere result (ShowsFirst event_stamp (E.holds self.old.events) (E.shown self.new.events)) (λ _. Unit {0}) }
        ensures vm_tick_shown { IfThere result (ShowsFirst tick_stamp (V.holds self.old.vm_ticks) (V.shown self.new.vm_ticks)) (λ _. Unit {0}) }
        ensures sample_shown { IfThere result (HasFirst (F.holds self.old.ring) (F.held_tick self.new.ring)) (λ _. Unit {0}) }
    {
        if let Some(event) = self.take_event() {
            return Some(Item::Event(event));
        }
        if let Some(tick) = self.take_vm_tick() {
            return Some(Item::Tick(tick));
        }
        match self.take_sample() {
            Some(tick) => Some(Item::Tick(tick)),
            None => None,
        }
    }
}
