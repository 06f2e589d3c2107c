// What a world answers to given steps.
ghost use Rattle.std.specs.Prelude.{◌≤◌};

use crate::items::{event, items_line, tick};
use crate::out_of_memory;
use crate::steps::attempt;
use pipe_core::{CoreAnswer, CoreStep, World};
use std::alloc::Global;
use std::io;

fn step_of(word: &str) -> Option<CoreStep> {
    match word {
        "raise event" => Some(CoreStep::RaiseEvent(event(4096))),
        "push engine tick" => Some(CoreStep::PushVmTick(tick(0, 0))),
        "slot look" => Some(CoreStep::SlotLook(tick(0, 0))),
        "slot write" => Some(CoreStep::SlotWrite),
        "slot mark full" => Some(CoreStep::SlotMarkFull),
        "front look" => Some(CoreStep::FrontLook),
        "front take" => Some(CoreStep::FrontTake),
        "slot mark empty" => Some(CoreStep::SlotMarkEmpty),
        "take event" => Some(CoreStep::TakeEvent),
        "take engine tick" => Some(CoreStep::TakeVmTick),
        _ => None,
    }
}

fn answer_word(answer: &CoreAnswer) -> &'static str {
    match answer {
        CoreAnswer::Done => "done",
        CoreAnswer::Full(_) => "full",
        CoreAnswer::Empty => "empty",
        CoreAnswer::NotNext => "not next",
    }
}

pub(crate) fn answers(alloc: Global, places: u32, lines: &str) -> Result<String, io::Error>
    requires low { 1 ≤ places }
    requires high { places ≤ 1024 }
{
    let mut world = World::new(alloc, places).map_err(out_of_memory)?;
    let mut text = String::new(alloc);
    for line in lines.lines() {
        if let Some(step) = step_of(line) {
            let answer = attempt(alloc, &mut world, step).map_err(out_of_memory)?;
            let word = answer_word(&answer);
            text.push_str(&format!(in alloc; "{line}: {word}\n")?)?;
        }
    }
    let counts = (world.sent, world.removed, world.applied, world.ticked);
    text.push_str(&format!(in alloc; "sent {}, removed {}, ", counts.0, counts.1)?)?;
    text.push_str(&format!(in alloc; "events taken {}, ticks taken {}\n", counts.2, counts.3)?)?;
    text.push_str(&items_line(alloc, "raised", world.raised.as_slice())?)?;
    text.push_str(&items_line(alloc, "taken", world.taken.as_slice())?)?;
    Ok(text)
}
