// A processor that items arrive at.
use crate::arrival::Step;
use crate::heading::Heading;
use crate::putting::{offer_sample, put_event, put_vm_tick};
use code_event::{EventRecord, Item, Tick};
use item_text::ItemList;
use out_stream::MemoryStream;
use pipe_core::{PlainQueue, PlainRing};
use processor::{ProcTurn, Processor, SurePorts, turn_plain, turns_plain};
use prof_base::{MAX_INTERVAL, Memory};
use std::alloc::Global;

/// The greatest number of turns at once.
const MOST_TURNS: u32 = 10_000;

/// A processor over queues and a stream in memory.
pub(crate) type MemoryProcessor = Processor<
    PlainQueue<EventRecord>,
    PlainQueue<Tick>,
    PlainRing,
    MemoryStream,
>;

/// A processor and its ports, and what its turns answered.
#[derive(Drop)]
pub(crate) struct Run {
    pub(crate) processor: MemoryProcessor,
    pub(crate) ports: SurePorts,
    pub(crate) answers: Vec<ProcTurn>,
    /// The number of ticks that the ring did not take.
    pub(crate) dropped: u64,
}

/// Makes a processor for a list, before any item.
pub(crate) fn begun(alloc: Global, heading: &Heading, list: &ItemList) -> Result<Run, Memory> {
    let failing = heading.failing.as_slice().to_vec(alloc)?;
    let aborting = heading.aborting.as_slice().to_vec(alloc)?;
    let made = Processor::new(
        alloc,
        list.base.clamp(1, MAX_INTERVAL),
        PlainQueue::new(alloc)?,
        PlainQueue::new(alloc)?,
        PlainRing::new(alloc, heading.places)?,
        MemoryStream::new(alloc, heading.chunk, failing, aborting),
    );
    match made {
        Ok(processor) => Ok(Run {
            processor,
            ports: SurePorts::new(alloc),
            answers: Vec::new(alloc),
            dropped: 0,
        }),
        Err(_) => Err(Memory),
    }
}

impl Run {
    // Lets an item arrive.
    fn put(&mut self, alloc: Global, heading: &Heading, item: &Item) -> Result<(), Memory> {
        match item {
            Item::Event(record) => put_event(alloc, self.processor.events(), record),
            Item::Tick(tick) => {
                if !heading.is_sample(tick) {
                    return put_vm_tick(alloc, self.processor.vm_ticks(), tick);
                }
                if !offer_sample(self.processor.ring(), tick) {
                    self.dropped = self.dropped.saturating_add(1);
                }
                Ok(())
            }
        }
    }

    // Turns the processor until it answers Nothing or Over, and keeps the answers.
    fn turn(&mut self) -> Result<(), Memory> {
        for _ in 0..MOST_TURNS {
            let answer = turn_plain(&mut self.processor, &mut self.ports);
            self.answers.push(answer)?;
            if answer == ProcTurn::Nothing || answer == ProcTurn::Over {
                return Ok(());
            }
        }
        Ok(())
    }

    // Does the same in one call, and keeps the last answer.
    fn turn_at_once(&mut self) -> Result<(), Memory> {
        match turns_plain(&mut self.processor, &mut self.ports, MOST_TURNS) {
            Some(answer) => {
                self.answers.push(answer)?;
                Ok(())
            }
            None => Ok(()),
        }
    }

    // Does a step.
    fn step(
        &mut self,
        alloc: Global,
        heading: &Heading,
        items: &[Item],
        step: Step,
        at_once: bool,
    ) -> Result<(), Memory> {
        match step {
            Step::Put(at) => match items.get(at) {
                Some(item) => self.put(alloc, heading, item),
                None => Ok(()),
            },
            Step::Turn => {
                if at_once {
                    self.turn_at_once()
                } else {
                    self.turn()
                }
            }
        }
    }

    /// Does the steps. If `at_once`, only the last answer of turns that follow one another is kept.
    pub(crate) fn go(
        &mut self,
        alloc: Global,
        heading: &Heading,
        items: &[Item],
        steps: &[Step],
        at_once: bool,
    ) -> Result<(), Memory> {
        for step in steps {
            self.step(alloc, heading, items, *step, at_once)?;
        }
        Ok(())
    }
}
