// What is printed of a run.
use crate::out_of_memory;
use crate::running::{Outcome, cause_word};
use crate::taken::Taken;
use code_event::{CodeEvent, EventRecord, Mode, Options, PathPair, Tick, VmState};
use code_map::CodeMap;
use run_schedule::{ScheduleEntry, What};
use std::alloc::Global;
use std::{io, str};
use symbolizer::paths;

fn mode_word(mode: Mode) -> &'static str {
    match mode {
        Mode::Leaf => "leaf",
        Mode::Caller => "caller",
    }
}

fn state_word(state: VmState) -> &'static str {
    match state {
        VmState::Js => "js",
        VmState::Idle => "idle",
        VmState::Native => "native",
        VmState::Gc => "gc",
    }
}

fn print_options(rt: &impl Print, options: &Options) -> Result<(), io::Error> {
    let mode = mode_word(options.mode);
    print!(rt; "{} {} {mode} ", options.port, options.interval)?;
    match options.max_samples {
        None => print!(rt; "all"),
        Some(most) => print!(rt; "{most}"),
    }
}

fn print_entry(rt: &impl Print, entry: &ScheduleEntry) -> Result<(), io::Error> {
    print!(rt; "{} {} ", entry.step, entry.time.value())?;
    match entry.what {
        What::Sampled => println!(rt; "sampled"),
        What::Dropped => println!(rt; "dropped"),
        What::Start(options) => {
            print!(rt; "start ")?;
            print_options(rt, &options)?;
            println!(rt; "")
        }
        What::Stop { port, session } => println!(rt; "stop {port} {}", session.0),
        What::End(why) => println!(rt; "end {}", cause_word(why)),
    }
}

// Prints an event that starts, stops or finishes sessions. Those of the code are not printed.
fn print_mark(rt: &impl Print, event: &CodeEvent) -> Result<(), io::Error> {
    match event {
        CodeEvent::Start {
            session,
            options,
            time,
        } => {
            print!(rt; "start {} ", session.0)?;
            print_options(rt, options)?;
            println!(rt; " {}", time.value())
        }
        CodeEvent::Stop { session, time } => println!(rt; "stop {} {}", session.0, time.value()),
        CodeEvent::Finish { time, files } => {
            let word = if *files { "files" } else { "none" };
            println!(rt; "finish {} {word}", time.value())
        }
        _ => Ok(()),
    }
}

// Prints the functions of a tick, oldest first, each with its line.
fn print_steps(rt: &impl Print, paths: &PathPair) -> Result<(), io::Error> {
    let steps = paths.caller.as_slice();
    for (at, step) in steps.iter().enumerate() {
        let line = match steps.get(at.saturating_add(1)) {
            Some(next) => next.call_line,
            None => paths.leaf_line,
        };
        print!(rt; " {}:{line}", step.entry.name.as_str())?;
    }
    println!(rt; "")
}

fn print_tick(rt: &impl Print, tick: &Tick, paths: &PathPair) -> Result<(), io::Error> {
    let state = state_word(tick.state);
    let hit = if tick.hit { "hit" } else { "nohit" };
    print!(rt;
        "tick {} {} {state} {hit} ",
        tick.time.value(),
        tick.interval
    )?;
    match tick.only {
        None => print!(rt; "all")?,
        Some(session) => print!(rt; "{}", session.0)?,
    }
    print_steps(rt, paths)
}

// How many items of each queue were put into the one order.
#[derive(Drop)]
struct Places {
    events: usize,
    vm_ticks: usize,
    samples: usize,
}

impl Places {
    fn ticks(&self) -> usize {
        self.vm_ticks.saturating_add(self.samples)
    }

    // Returns the event that is next by its stamps.
    fn next_event<'a>(&self, taken: &'a Taken) -> Option<&'a EventRecord> {
        let event = taken.events.get(self.events)?;
        let is_next = event.number == (self.events as u64).saturating_add(1)
            && event.ticks_before == self.ticks() as u64;
        if is_next { Some(event) } else { None }
    }

    // Returns the first tick of a queue that is left, where it is next by its stamps.
    fn next_tick<'a>(&self, ticks: &'a [Tick], place: usize) -> Option<&'a Tick> {
        let tick = ticks.get(place)?;
        let is_next = tick.tick_number == (self.ticks() as u64).saturating_add(1)
            && tick.order == self.events as u64;
        if is_next { Some(tick) } else { None }
    }

    // Returns whether all items were put into the order.
    fn is_all(&self, taken: &Taken) -> bool {
        self.events == taken.events.len()
            && self.vm_ticks == taken.vm_ticks.len()
            && self.samples == taken.samples.len()
    }
}

// Prints the functions of a tick by the code that there then is.
fn print_seen(
    rt: &impl Print,
    alloc: Global,
    map: &mut CodeMap,
    tick: &Tick,
) -> Result<(), io::Error> {
    let paths = paths(alloc, map, tick).map_err(out_of_memory)?;
    print_tick(rt, tick, &paths)
}

// Prints the item that is next by its stamps, and returns whether there is one.
fn print_next(
    rt: &impl Print,
    alloc: Global,
    taken: &Taken,
    map: &mut CodeMap,
    places: &mut Places,
) -> Result<bool, io::Error> {
    if let Some(event) = places.next_event(taken) {
        print_mark(rt, &event.event)?;
        map.apply(&event.event).map_err(out_of_memory)?;
        places.events = places.events.saturating_add(1);
        return Ok(true);
    }
    if let Some(tick) = places.next_tick(taken.vm_ticks.as_slice(), places.vm_ticks) {
        print_seen(rt, alloc, map, tick)?;
        places.vm_ticks = places.vm_ticks.saturating_add(1);
        return Ok(true);
    }
    if let Some(tick) = places.next_tick(taken.samples.as_slice(), places.samples) {
        print_seen(rt, alloc, map, tick)?;
        places.samples = places.samples.saturating_add(1);
        return Ok(true);
    }
    Ok(false)
}

// Prints the items in the order of their stamps, and whether these number all of them.
fn print_items(rt: &impl Print, alloc: Global, taken: &Taken) -> Result<(), io::Error> {
    let mut map = CodeMap::new(alloc);
    let mut places = Places {
        events: 0,
        vm_ticks: 0,
        samples: 0,
    };
    for _ in 0..u32::MAX {
        if !print_next(rt, alloc, taken, &mut map, &mut places)? {
            break;
        }
    }
    let word = if places.is_all(taken) { "yes" } else { "no" };
    println!(rt; "stamped {word}")
}

// Prints what the program printed, each line end as a bar.
fn print_printed(rt: &impl Print, printed: &[u8]) -> Result<(), io::Error> {
    print!(rt; "printed ")?;
    for line in str::from_utf8(printed).unwrap_or("?").split('\n') {
        print!(rt; "{line}|")?;
    }
    println!(rt; "")
}

/// Prints what a run leaves.
pub(crate) fn print_outcome(
    rt: &impl Print,
    alloc: Global,
    outcome: &Outcome,
) -> Result<(), io::Error> {
    for entry in outcome.schedule.entries() {
        print_entry(rt, entry)?;
    }
    print!(rt; "{}", outcome.log.lines())?;
    print_items(rt, alloc, &outcome.taken)?;
    print_printed(rt, outcome.printed.as_slice())?;
    println!(rt; "readings {} fulls {}", outcome.readings, outcome.fulls)
}
