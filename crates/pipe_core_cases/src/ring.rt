// What a ring answers.
ghost use Rattle.std.specs.Prelude.{◌≤◌};

use crate::items::tick;
use crate::out_of_memory;
use pipe_core::{Front, Fronted, Offer, Offered, PlainRing};
use std::alloc::Global;
use std::io;

// Offers ticks of these numbers.
fn offer_line<R: Offer>(
    alloc: Global,
    ring: &mut R,
    first: u64,
    last: u64,
) -> Result<String, io::Error> {
    let mut went_in = 0u64;
    let mut back = String::new(alloc);
    for number in first..=last {
        match ring.offer(tick(number, 0)) {
            Offered::In => went_in = went_in.saturating_add(1),
            Offered::Full(tick) => {
                back.push_str(&format!(in alloc; " {}", tick.tick_number)?)?;
            }
        }
    }
    Ok(format!(in alloc; "in {went_in}, back{back}\n")?)
}

fn front_line<R: Fronted>(alloc: Global, ring: &mut R) -> Result<String, io::Error> {
    match ring.front() {
        Front::Tick(stamp) => Ok(format!(in alloc; "front {}:{}\n", stamp.event, stamp.tick)?),
        Front::Empty => Ok(format!(in alloc; "front is empty\n")?),
    }
}

fn held_line<R: Fronted>(alloc: Global, ring: &mut R) -> Result<String, io::Error> {
    match ring.held() {
        Some(tick) => Ok(format!(in alloc; "held {}\n", tick.tick_number)?),
        None => Ok(format!(in alloc; "none held\n")?),
    }
}

fn remove_line<R: Fronted>(alloc: Global, ring: &mut R) -> Result<String, io::Error> {
    match ring.remove() {
        Some(tick) => Ok(format!(in alloc; "removed {}\n", tick.tick_number)?),
        None => Ok(format!(in alloc; "none removed\n")?),
    }
}

// Removes all that is there.
fn drain_line<R: Fronted>(alloc: Global, ring: &mut R) -> Result<String, io::Error> {
    let mut count = 0u64;
    let mut last = 0u64;
    for _ in 0..2_000u32 {
        if let Front::Tick(_) = ring.front() {
            if let Some(tick) = ring.remove() {
                count = count.saturating_add(1);
                last = tick.tick_number;
            }
        }
    }
    Ok(format!(in alloc; "drained {count}, the last {last}\n")?)
}

// Does what a line says, through the two traits alone.
fn line_answer<R: Offer + Fronted>(
    alloc: Global,
    ring: &mut R,
    line: &str,
) -> Result<String, io::Error> {
    if let Some(numbers) = line.strip_prefix("offer ") {
        let (first, last) = numbers.split_once(' ').unwrap_or((numbers, numbers));
        let first = first.parse::<u64>().unwrap_or(0);
        let last = last.parse::<u64>().unwrap_or(0);
        return offer_line(alloc, ring, first, last);
    }
    match line {
        "front" => front_line(alloc, ring),
        "held" => held_line(alloc, ring),
        "remove" => remove_line(alloc, ring),
        _ => drain_line(alloc, ring),
    }
}

pub(crate) fn answers(alloc: Global, places: u32, lines: &str) -> Result<String, io::Error>
    requires low { 1 ≤ places }
    requires high { places ≤ 1024 }
{
    let mut ring = PlainRing::new(alloc, places).map_err(out_of_memory)?;
    let mut text = String::new(alloc);
    for line in lines.lines() {
        text.push_str(&line_answer(alloc, &mut ring, line)?)?;
    }
    Ok(text)
}
