// The order in which items arrive, and when the processor is turned.
use crate::heading::Heading;
use code_event::Item;
use std::alloc::{AllocError, Global};

/// What happens next.
#[derive(Clone, Copy)]
pub(crate) enum Step {
    /// The item at this place of the list, from 0, arrives.
    Put(usize),
    /// The processor is turned until it answers Nothing or Over.
    Turn,
}

/// Reads the steps that the words of a line name, for a list with this number of items.
pub(crate) fn steps_of(alloc: Global, words: &str, count: usize) -> Result<Vec<Step>, AllocError> {
    match words {
        "all" => in_list_order(alloc, count, false),
        "each" => in_list_order(alloc, count, true),
        _ => named_steps(alloc, words),
    }
}

// Makes the steps in which all items arrive in order, with turns after each or at the end alone.
fn in_list_order(alloc: Global, count: usize, is_each: bool) -> Result<Vec<Step>, AllocError> {
    let mut steps = Vec::new(alloc);
    for at in 0..count {
        steps.push(Step::Put(at))?;
        if is_each {
            steps.push(Step::Turn)?;
        }
    }
    steps.push(Step::Turn)?;
    Ok(steps)
}

// Reads a number as the arrival of the item with that number, from 1, and any other word as turns.
fn named_steps(alloc: Global, words: &str) -> Result<Vec<Step>, AllocError> {
    let mut steps = Vec::new(alloc);
    for word in words.split(' ') {
        steps.push(match word.parse::<usize>() {
            Ok(number) => Step::Put(number.saturating_sub(1)),
            Err(_) => Step::Turn,
        })?;
    }
    Ok(steps)
}

/// The queues that items go to.
#[derive(Clone, Copy, PartialEq, Eq)]
pub(crate) enum Queue {
    Events,
    VmTicks,
    Ring,
}

/// Returns the queue that each item goes to.
pub(crate) fn queues_of(
    alloc: Global,
    heading: &Heading,
    items: &[Item],
) -> Result<Vec<Queue>, AllocError> {
    let mut queues = Vec::new(alloc);
    for item in items {
        queues.push(match item {
            Item::Event(_) => Queue::Events,
            Item::Tick(tick) => {
                if heading.is_sample(tick) {
                    Queue::Ring
                } else {
                    Queue::VmTicks
                }
            }
        })?;
    }
    Ok(queues)
}

// Returns the place of the first item of a queue that has not arrived.
fn first_left(queues: &[Queue], order: &[usize], queue: Queue) -> Option<usize> {
    for (at, other) in queues.iter().enumerate() {
        if *other == queue && !order.contains(&at) {
            return Some(at);
        }
    }
    None
}

// Returns the places of the first items in order.
fn first_places(alloc: Global, first: usize) -> Result<Vec<usize>, AllocError> {
    let mut places = Vec::new(alloc);
    for at in 0..first {
        places.push(at)?;
    }
    Ok(places)
}

/// Returns the order of arrival with this number: its digits in the system of base 3 name the queue of
/// each next item, after the first items have arrived in the list's order. None where one of these
/// queues gets no more.
pub(crate) fn order_of(
    alloc: Global,
    queues: &[Queue],
    first: usize,
    number: u64,
) -> Result<Option<Vec<usize>>, AllocError> {
    let mut order = first_places(alloc, first)?;
    let mut rest = number;
    for _ in first..queues.len() {
        let queue = match rest % 3 {
            0 => Queue::Events,
            1 => Queue::VmTicks,
            _ => Queue::Ring,
        };
        let Some(at) = first_left(queues, &order, queue) else {
            return Ok(None);
        };
        order.push(at)?;
        rest /= 3;
    }
    Ok(Some(order))
}

/// Makes the steps of an order of arrival. The first items are taken at once, and the others after each
/// arrival or at the end.
pub(crate) fn steps_in(
    alloc: Global,
    order: &[usize],
    first: usize,
    is_each: bool,
) -> Result<Vec<Step>, AllocError> {
    let mut steps = Vec::new(alloc);
    for (place, at) in order.iter().enumerate() {
        if place == first || (is_each && place > first) {
            steps.push(Step::Turn)?;
        }
        steps.push(Step::Put(*at))?;
    }
    steps.push(Step::Turn)?;
    Ok(steps)
}
