// Every order in which items can arrive, where each queue gets its own in the list's order.
use crate::arrival::{Step, order_of, queues_of, steps_in};
use crate::heading::Heading;
use crate::out_of_memory;
use crate::reference::Reference;
use crate::running::{Run, begun};
use crate::taking::print_taken;
use code_event::PortFile;
use item_text::ItemList;
use processor::{Delivery, PortCall, ProcTurn};
use prof_base::Memory;
use std::alloc::Global;
use std::io;

// The number of ways to choose one of three queues, this many times.
fn choices(count: usize) -> u64 {
    let mut choices = 1u64;
    for _ in 0..count {
        choices = choices.saturating_mul(3);
    }
    choices
}

fn print_order(rt: &impl Print, order: &[usize], first: usize) -> Result<(), io::Error> {
    print!(rt; "arrive")?;
    for at in order.iter().skip(first) {
        print!(rt; " {}", at.saturating_add(1))?;
    }
    println!(rt; "")
}

/// Prints, for each order, what is taken where all is taken at the end, and after each arrival. The first
/// items have arrived before.
pub(crate) fn print_takes(
    rt: &impl Print,
    alloc: Global,
    heading: &Heading,
    list: &ItemList,
    first: usize,
) -> Result<(), io::Error> {
    let queues = queues_of(alloc, heading, list.items.as_slice())?;
    for number in 0..choices(queues.len().saturating_sub(first)) {
        if let Some(order) = order_of(alloc, &queues, first, number)? {
            print_order(rt, &order, first)?;
            let steps = steps_in(alloc, &order, first, false)?;
            print_taken(rt, alloc, heading, list, &steps)?;
            let steps = steps_in(alloc, &order, first, true)?;
            print_taken(rt, alloc, heading, list, &steps)?;
        }
    }
    Ok(())
}

// Returns whether the files that ports got are those of the fold.
fn are_files(calls: &[PortCall], reference: &Reference) -> bool {
    for call in calls {
        if let PortFile::File { session, bytes } = &call.file {
            if !reference.is_file(*session, bytes.as_slice()) {
                return false;
            }
        }
    }
    true
}

// Returns whether a run has delivered and given what the fold delivers, and took all.
fn is_same(run: Run, reference: &Reference) -> bool {
    let noted = run.processor.notes().len();
    let is_fine = run.processor.delivery() == Delivery::Fine;
    let ended = match run.answers.last() {
        Some(ProcTurn::Nothing | ProcTurn::Over) => true,
        _ => false,
    };
    let given = are_files(run.ports.calls(), reference);
    let (_, _, _, stream) = run.processor.release();
    let parts = stream.closed_parts();
    is_fine && ended && given && noted == parts.len() && reference.has_parts(parts)
}

// Returns whether a run with these steps is as the fold.
fn goes_as_fold(
    alloc: Global,
    heading: &Heading,
    list: &ItemList,
    reference: &Reference,
    steps: &[Step],
) -> Result<bool, Memory> {
    let mut run = begun(alloc, heading, list)?;
    run.go(alloc, heading, list.items.as_slice(), steps, true)?;
    Ok(is_same(run, reference))
}

/// Counts the orders, each with turns at the end and with turns after each arrival, and those in which
/// the files are those of the fold.
pub(crate) fn print_count(
    rt: &impl Print,
    alloc: Global,
    heading: &Heading,
    list: &ItemList,
    reference: &Reference,
    first: usize,
) -> Result<(), io::Error> {
    let queues = queues_of(alloc, heading, list.items.as_slice())?;
    let mut runs = 0u64;
    let mut same = 0u64;
    for number in 0..choices(queues.len().saturating_sub(first)).saturating_mul(2) {
        if let Some(order) = order_of(alloc, &queues, first, number / 2)? {
            let steps = steps_in(alloc, &order, first, number % 2 == 1)?;
            runs = runs.saturating_add(1);
            if goes_as_fold(alloc, heading, list, reference, &steps).map_err(out_of_memory)? {
                same = same.saturating_add(1);
            }
        }
    }
    println!(rt; "runs {runs}, same {same}")
}
