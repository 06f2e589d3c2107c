// Every interleaving of an isolate that raises given items with a processor. A refused step changes
// nothing, so the steps that can be done are found by trying: a path is a list of actions, and the next
// path has the next action that can be done in place of the last one.
ghost use Rattle.std.specs.Prelude.{◌≤◌};

use crate::items::{are_same, event, tick};
use crate::out_of_memory;
use crate::steps::is_done;
use pipe_core::{CoreStep, Fronting, Offering, World};
use prof_base::Memory;
use std::alloc::Global;
use std::io;

const ACTIONS: u8 = 4;

// A world, and how many of the isolate's words were done.
#[derive(Drop)]
struct Run {
    world: World,
    at: usize,
}

#[derive(Clone, Copy)]
enum Word {
    Event,
    Engine,
    Ring,
}

// Does the isolate's next step.
fn isolate_step(alloc: Global, run: &mut Run, words: &[Word]) -> Result<bool, Memory> {
    let Some(word) = words.get(run.at) else {
        return Ok(false);
    };
    let mark = (run.at % 1_000) as u32;
    let step = match run.world.offering {
        Offering::Looked(_) => CoreStep::SlotWrite,
        Offering::Written => CoreStep::SlotMarkFull,
        Offering::Idle => match word {
            Word::Event => CoreStep::RaiseEvent(event(mark)),
            Word::Engine => CoreStep::PushVmTick(tick(0, mark)),
            Word::Ring => CoreStep::SlotLook(tick(0, mark)),
        },
    };
    let done = is_done(alloc, &mut run.world, step)?;
    if let Offering::Idle = run.world.offering {
        run.at += 1;
    }
    Ok(done)
}

// Does the processor's next step at the front of the ring.
fn front_step(alloc: Global, run: &mut Run) -> Result<bool, Memory> {
    let step = match run.world.fronting {
        Fronting::Idle => CoreStep::FrontLook,
        Fronting::Looked => CoreStep::FrontTake,
        Fronting::Held(_) => CoreStep::SlotMarkEmpty,
    };
    is_done(alloc, &mut run.world, step)
}

// Tries an action, and tells whether it could be done.
fn act(alloc: Global, run: &mut Run, words: &[Word], action: u8) -> Result<bool, Memory> {
    match action {
        0 => isolate_step(alloc, run, words),
        1 => is_done(alloc, &mut run.world, CoreStep::TakeEvent),
        2 => is_done(alloc, &mut run.world, CoreStep::TakeVmTick),
        _ => front_step(alloc, run),
    }
}

// Does the first action from this one on that can be done.
fn act_from(alloc: Global, run: &mut Run, words: &[Word], first: u8) -> Result<Option<u8>, Memory> {
    for action in first..ACTIONS {
        if act(alloc, run, words, action)? {
            return Ok(Some(action));
        }
    }
    Ok(None)
}

// Goes on to a quiet end, and adds the actions to the path.
fn go_on(alloc: Global, run: &mut Run, words: &[Word], path: &mut Vec<u8>) -> Result<(), Memory> {
    for _ in 0..1_000u32 {
        match act_from(alloc, run, words, 0)? {
            Some(action) => path.push(action)?,
            None => return Ok(()),
        }
    }
    Ok(())
}

// Does the path, but in place of its last action the next one that can be done, and goes on from there.
// If there is no such action, the path is that without its last one, and no end is reached.
fn next_end(
    alloc: Global,
    run: &mut Run,
    words: &[Word],
    path: &mut Vec<u8>,
) -> Result<bool, Memory> {
    let Some(last) = path.pop() else {
        return Ok(false);
    };
    for action in path.iter() {
        act(alloc, run, words, *action)?;
    }
    match act_from(alloc, run, words, last.saturating_add(1))? {
        Some(action) => {
            path.push(action)?;
            go_on(alloc, run, words, path)?;
            Ok(true)
        }
        None => Ok(false),
    }
}

// The ends that were reached: how many, in how many a tick was dropped, and in how many all was taken
// in order.
#[derive(Drop)]
struct Ends {
    all: u64,
    dropped: u64,
    in_order: u64,
}

fn count_end(ends: &mut Ends, world: &World, count: usize) {
    let raised = world.raised.as_slice();
    ends.all = ends.all.saturating_add(1);
    if raised.len() < count {
        ends.dropped = ends.dropped.saturating_add(1);
    }
    if are_same(raised, world.taken.as_slice()) {
        ends.in_order = ends.in_order.saturating_add(1);
    }
}

fn all_ends(alloc: Global, places: u32, words: &[Word]) -> Result<Ends, Memory>
    requires low { 1 ≤ places }
    requires high { places ≤ 1024 }
{
    let mut ends = Ends {
        all: 0,
        dropped: 0,
        in_order: 0,
    };
    let mut path = Vec::new(alloc);
    let mut run = Run {
        world: World::new(alloc, places)?,
        at: 0,
    };
    go_on(alloc, &mut run, words, &mut path)?;
    count_end(&mut ends, &run.world, words.len());
    for _ in 0..10_000_000u32 {
        if path.is_empty() {
            return Ok(ends);
        }
        let mut run = Run {
            world: World::new(alloc, places)?,
            at: 0,
        };
        if next_end(alloc, &mut run, words, &mut path)? {
            count_end(&mut ends, &run.world, words.len());
        }
    }
    Ok(ends)
}

pub(crate) fn answers(alloc: Global, places: u32, text: &str) -> Result<String, io::Error>
    requires low { 1 ≤ places }
    requires high { places ≤ 1024 }
{
    let mut words = Vec::new(alloc);
    for word in text.split(' ') {
        words.push(match word {
            "event" => Word::Event,
            "engine" => Word::Engine,
            _ => Word::Ring,
        })?;
    }
    let ends = all_ends(alloc, places, &words).map_err(out_of_memory)?;
    Ok(format!(in alloc;
        "ends {}, with a drop {}, in order {}\n",
        ends.all, ends.dropped, ends.in_order
    )?)
}
