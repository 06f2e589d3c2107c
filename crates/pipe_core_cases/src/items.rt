// Ticks and events to raise, and the text of what was raised.
use code_event::{CodeEvent, EventRecord, Frames, Item, Tick, VmState};
use pipe_core::Stamped;
use prof_base::Micros;
use std::alloc::Global;
use std::io;

// Makes a tick of this number, with a time by which it is known.
pub(crate) fn tick(tick_number: u64, time: u32) -> Tick {
    Tick {
        order: 0,
        tick_number,
        time: Micros::new(u64::from(time)),
        interval: 1000,
        state: VmState::Js,
        hit: true,
        only: None,
        frames: Frames::new(),
    }
}

// Makes an event with an address by which it is known.
pub(crate) fn event(start: u32) -> CodeEvent {
    CodeEvent::Delete { start }
}

fn is_same_event(one: &EventRecord, other: &EventRecord) -> bool {
    match (&one.event, &other.event) {
        (CodeEvent::Delete { start: a }, CodeEvent::Delete { start: b }) => {
            a == b && one.stamp() == other.stamp()
        }
        _ => false,
    }
}

fn is_same(one: &Item, other: &Item) -> bool {
    match (one, other) {
        (Item::Event(a), Item::Event(b)) => is_same_event(a, b),
        (Item::Tick(a), Item::Tick(b)) => a.time == b.time && a.stamp() == b.stamp(),
        _ => false,
    }
}

// Tells whether the two lists have the same items.
pub(crate) fn are_same(one: &[Item], other: &[Item]) -> bool {
    if one.len() != other.len() {
        return false;
    }
    for (a, b) in one.iter().zip(other.iter()) {
        if !is_same(a, b) {
            return false;
        }
    }
    true
}

// Prints the items with their stamps.
pub(crate) fn items_line(alloc: Global, word: &str, items: &[Item]) -> Result<String, io::Error> {
    let mut text = String::from_str(alloc, word)?;
    for item in items {
        match item {
            Item::Event(event) => {
                let stamp = event.stamp();
                text.push_str(&format!(in alloc; " event {}:{}", stamp.event, stamp.tick)?)?;
            }
            Item::Tick(tick) => {
                let stamp = tick.stamp();
                text.push_str(&format!(in alloc; " tick {}:{}", stamp.event, stamp.tick)?)?;
            }
        }
    }
    text.push('\n')?;
    Ok(text)
}
