// What is seen of an item list.
ghost use Rattle.std.specs.Prelude.{◌≡◌, ◌++◌, IfOk, OnOk, map};
ghost use Rattle.std.specs.Option.{option_to_list};
ghost use Rattle.code_event.specs.DeoptReasons.{reasons_in};
ghost use Rattle.code_event.specs.Seen.{seen_by, resolved_tick, mark, seen_items};
ghost use Rattle.reference_profile.specs.Moments.{ranges_after_item, reasons_after_item, seen_item};

use crate::code_map::after_event;
use crate::deopt_reasons::{copy_reasons, reasons_after_event};
use crate::symbolizer::frames_of;
use code_event::{CodeEvent, DeoptReason, Item, Range, ResolvedTick, Seen, Tick};
use prof_base::{Memory, Sequence};
use std::alloc::Global;

/// A moment of a run.
#[derive(Debug, Drop)]
struct Moment {
    ranges: Sequence<Range>,
    /// The reasons so far, the latest first.
    reasons: Sequence<DeoptReason>,
}

/// Returns the moment after an item.
fn after_item(moment: Moment, item: &Item) -> Result<Moment, Memory>
    ensures ranges { IfOk result (λ after. after.ranges ≡ ranges_after_item moment.ranges item.now) }
    ensures reasons { IfOk result (λ after. reasons_in after.reasons ≡ reasons_after_item moment.ranges (reasons_in moment.reasons) item.now) }
{
    match item {
        Item::Event(record) => {
            let Moment { ranges, reasons } = moment;
            let reasons = reasons_after_event(ranges.as_slice(), reasons, &record.event)?;
            let ranges = after_event(ranges, &record.event)?;
            Ok(Moment { ranges, reasons })
        }
        Item::Tick(_) => Ok(moment),
    }
}

/// Resolves a tick over the ranges of its moment.
fn resolved_tick(alloc: Global, ranges: &[Range], tick: &Tick) -> Result<ResolvedTick, Memory>
    ensures { IfOk result (λ seen. seen ≡ resolved_tick ranges.now tick.now) }
{
    Ok(ResolvedTick {
        time: tick.time,
        interval: tick.interval,
        hit: tick.hit,
        only: tick.only,
        frames: frames_of(alloc, ranges, tick)?,
    })
}

/// Returns the mark of an event, if it is one.
fn mark_of(reasons: &Sequence<DeoptReason>, event: &CodeEvent) -> Result<Option<Seen>, Memory>
    ensures { IfOk result (λ seen_one. map seen_by (option_to_list seen_one) ≡ mark (reasons_in reasons.now) event.now) }
{
    match event {
        CodeEvent::Start {
            session,
            options,
            time,
        } => Ok(Some(Seen::Started {
            session: *session,
            options: *options,
            time: *time,
        })),
        CodeEvent::Stop { session, time } => Ok(Some(Seen::Stopped {
            session: *session,
            time: *time,
            reasons: copy_reasons(reasons)?,
        })),
        CodeEvent::Finish { time, files } => Ok(Some(Seen::Finished {
            time: *time,
            files: *files,
            reasons: copy_reasons(reasons)?,
        })),
        CodeEvent::Create { .. }
        | CodeEvent::Move { .. }
        | CodeEvent::NoOpt { .. }
        | CodeEvent::Deopt { .. }
        | CodeEvent::Delete { .. } => Ok(None),
    }
}

/// Returns what is seen of an item, if anything is.
fn seen_of(alloc: Global, moment: &Moment, item: &Item) -> Result<Option<Seen>, Memory>
    ensures { IfOk result (λ seen_one. map seen_by (option_to_list seen_one) ≡ seen_item moment.now.ranges (reasons_in moment.now.reasons) item.now) }
{
    match item {
        Item::Event(record) => mark_of(&moment.reasons, &record.event),
        Item::Tick(tick) => {
            let tick = resolved_tick(alloc, moment.ranges.as_slice(), tick)?;
            Ok(Some(Seen::Ticked(tick)))
        }
    }
}

/// Adds what is seen of an item.
fn push_seen(
    alloc: Global,
    seen: &mut Sequence<Seen>,
    moment: &Moment,
    item: &Item,
) -> Result<(), Memory>
    ensures { OnOk result (map seen_by seen.new ≡ map seen_by seen.old ++ seen_item moment.now.ranges (reasons_in moment.now.reasons) item.now) }
{
    match seen_of(alloc, moment, item)? {
        Some(seen_one) => seen.push(seen_one),
        None => Ok(()),
    }
}

/// Returns what is seen of an item list: each start, stop and finish, and each tick with the
/// functions on its stack, in order.
pub fn seen_items(alloc: Global, items: &[Item]) -> Result<Sequence<Seen>, Memory>
    ensures { IfOk result (λ seen. map seen_by seen ≡ seen_items items.now) }
{
    let mut seen = Sequence::new(alloc);
    let mut moment = Moment {
        ranges: Sequence::new(alloc),
        reasons: Sequence::new(alloc),
    };
    for item in items {
        push_seen(alloc, &mut seen, &moment, item)?;
        moment = after_item(moment, item)?;
    }
    Ok(seen)
}
