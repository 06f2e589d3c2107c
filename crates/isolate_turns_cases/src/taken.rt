// What is taken out of an isolate's queues.
ghost use Rattle.std.specs.Prelude.{◌≡◌};

use crate::queue::RefusingQueue;
use crate::ring::CountingRing;
use code_event::{EventRecord, Tick};
use isolate_turns::Ends;
use std::alloc::{AllocError, Global};

/// The ends of the queues of a case.
pub(crate) type CaseEnds = Ends<RefusingQueue<EventRecord>, RefusingQueue<Tick>, CountingRing>;

/// What was taken out, queue by queue.
#[derive(Drop)]
pub(crate) struct Taken {
    pub(crate) events: Vec<EventRecord>,
    pub(crate) vm_ticks: Vec<Tick>,
    pub(crate) samples: Vec<Tick>,
}

// The greatest number of items that are taken out of a queue at once.
const MOST_ITEMS: u32 = 10_000_000;

// Takes all items out of a queue.
fn take_events(
    queue: &mut RefusingQueue<EventRecord>,
    events: &mut Vec<EventRecord>,
) -> Result<(), AllocError>
    ensures spare { queue.new.queue.spare ≡ queue.old.queue.spare }
{
    for _ in 0..MOST_ITEMS {
        match queue.take() {
            Some(event) => events.push(event)?,
            None => return Ok(()),
        }
    }
    Ok(())
}

fn take_ticks(queue: &mut RefusingQueue<Tick>, ticks: &mut Vec<Tick>) -> Result<(), AllocError> {
    for _ in 0..MOST_ITEMS {
        match queue.take() {
            Some(tick) => ticks.push(tick)?,
            None => return Ok(()),
        }
    }
    Ok(())
}

fn take_samples(ring: &mut CountingRing, ticks: &mut Vec<Tick>) -> Result<(), AllocError> {
    for _ in 0..MOST_ITEMS {
        match ring.take() {
            Some(tick) => ticks.push(tick)?,
            None => return Ok(()),
        }
    }
    Ok(())
}

impl Taken {
    /// Makes it before anything is taken.
    pub(crate) fn new(alloc: Global) -> Taken {
        Taken {
            events: Vec::new(alloc),
            vm_ticks: Vec::new(alloc),
            samples: Vec::new(alloc),
        }
    }

    /// Takes out all that the queues hold.
    pub(crate) fn take_all(&mut self, ends: &mut CaseEnds) -> Result<(), AllocError>
        ensures spare { ends.new.events.queue.spare ≡ ends.old.events.queue.spare }
    {
        take_events(&mut ends.events, &mut self.events)?;
        take_ticks(&mut ends.vm_ticks, &mut self.vm_ticks)?;
        take_samples(&mut ends.ring, &mut self.samples)
    }
}
