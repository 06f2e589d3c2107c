// The order in which items are taken.
use crate::arrival::Step;
use crate::heading::Heading;
use crate::out_of_memory;
use crate::putting::{offer_sample, put_event, put_vm_tick};
use code_event::{EventRecord, Item, Tick};
use item_text::ItemList;
use pipe_core::{PlainQueue, PlainRing};
use processor::{Taker, take_plain};
use prof_base::Memory;
use std::alloc::{AllocError, Global};
use std::io;

/// The greatest number of items that are taken at once.
const MOST_ITEMS: u32 = 10_000;

type MemoryTaker = Taker<PlainQueue<EventRecord>, PlainQueue<Tick>, PlainRing>;

fn begun(alloc: Global, heading: &Heading) -> Result<MemoryTaker, Memory> {
    Ok(Taker::new(
        PlainQueue::new(alloc)?,
        PlainQueue::new(alloc)?,
        PlainRing::new(alloc, heading.places)?,
    ))
}

fn put(
    alloc: Global,
    taker: &mut MemoryTaker,
    heading: &Heading,
    item: &Item,
) -> Result<(), Memory> {
    match item {
        Item::Event(record) => put_event(alloc, &mut taker.events, record),
        Item::Tick(tick) => {
            if !heading.is_sample(tick) {
                return put_vm_tick(alloc, &mut taker.vm_ticks, tick);
            }
            offer_sample(&mut taker.ring, tick);
            Ok(())
        }
    }
}

// Adds the names of the items that are taken until there is no next one.
fn push_taken(alloc: Global, taker: &mut MemoryTaker, text: &mut String) -> Result<(), AllocError> {
    for _ in 0..MOST_ITEMS {
        let Some(item) = take_plain(taker) else {
            break;
        };
        let name = match item {
            Item::Event(record) => format!(in alloc; " event {},", record.number)?,
            Item::Tick(tick) => format!(in alloc; " tick {},", tick.tick_number)?,
        };
        text.push_str(name.as_str())?;
    }
    text.push_str(" nothing;")
}

/// Prints the items that are taken, in order, where they arrive as the steps say.
pub(crate) fn print_taken(
    rt: &impl Print,
    alloc: Global,
    heading: &Heading,
    list: &ItemList,
    steps: &[Step],
) -> Result<(), io::Error> {
    let mut taker = begun(alloc, heading).map_err(out_of_memory)?;
    let mut text = String::new(alloc);
    for step in steps {
        match step {
            Step::Put(at) => {
                if let Some(item) = list.items.as_slice().get(*at) {
                    put(alloc, &mut taker, heading, item).map_err(out_of_memory)?;
                }
            }
            Step::Turn => push_taken(alloc, &mut taker, &mut text)?,
        }
    }
    println!(rt; "takes{text}")
}
