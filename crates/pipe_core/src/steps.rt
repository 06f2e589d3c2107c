// The steps of the core.
ghost use Rattle.std.specs.Prelude.{◌≡◌, ◌<◌, ◌+◌, ◌%◌, length, slice_set, Option, Some, None, if◌then◌else◌, IfOk, OnOk};
ghost use Rattle.std.specs.List.{slice_get};
ghost use Rattle.pipe_core.specs.declared.world.Cell.{Cell};
ghost use Rattle.pipe_core.specs.declared.world.Offering.{Offering};
ghost use Rattle.pipe_core.specs.declared.world.Fronting.{Fronting};
ghost use Rattle.pipe_core.specs.Core.{is_full, tick_in, place, back_cell, front_cell, with_cell, outcome, raise_event, push_vm_tick, slot_look, slot_write, slot_mark_full, front_look, front_take, slot_mark_empty, take_event, take_vm_tick};
ghost use Rattle.pipe_core.specs.Next.{is_event_next, is_tick_next, is_shown};
ghost use Rattle.pipe_core.specs.Stamps.{event_count, tick_count, event_after, tick_after, event_stamp, tick_stamp};

use crate::stamp::{Stamp, Stamped};
use crate::world::{Cell, CoreAnswer, CoreStep, Fronting, Offering, World};
use code_event::{CodeEvent, EventRecord, Item, Tick};
use prof_base::{Memory, Sequence};
use std::alloc::Global;
use std::mem;

/// Returns the number of events and the number of ticks.
fn counts(items: &[Item]) -> (u64, u64)
    ensures events { result.0 ≡ event_count items.now }
    ensures ticks { result.1 ≡ tick_count items.now }
    ensures few { result.0 + result.1 ≡ length items.now }
{
    let mut events = 0u64;
    let mut ticks = 0u64;
    for item in items {
        match item {
            Item::Event(_) => events += 1,
            Item::Tick(_) => ticks += 1,
        }
    }
    (events, ticks)
}

/// Stamps an event as the next of these items.
fn stamped(items: &[Item], event: CodeEvent) -> EventRecord
    ensures { result ≡ event_after items.now event }
{
    let (events, ticks) = counts(items);
    EventRecord {
        number: events + 1,
        ticks_before: ticks,
        event,
    }
}

/// Stamps a tick as the next of these items. It takes no memory.
fn stamped_tick(items: &[Item], tick: Tick) -> Tick
    ensures { result ≡ tick_after items.now tick }
{
    let (events, ticks) = counts(items);
    Tick {
        order: events,
        tick_number: ticks + 1,
        time: tick.time,
        interval: tick.interval,
        state: tick.state,
        hit: tick.hit,
        only: tick.only,
        frames: tick.frames,
    }
}

/// Changes a slot, and returns what it was. No slot is moved.
fn exchange(alloc: Global, cells: &mut Sequence<Cell>, place: usize, cell: Cell) -> Cell
    requires { place < length cells.old }
    ensures cells { cells.new ≡ slice_set cells.old place cell }
    ensures cell { slice_get cells.old place ≡ Some result }
{
    let mut places = mem::replace(cells, Sequence::new(alloc)).into_vec();
    let before = mem::replace(&mut places[place], cell);
    *cells = Sequence::from_vec(places);
    before
}

/// Tells whether the event with this stamp is next.
fn is_event_next(stamp: Stamp, applied: u64, ticked: u64) -> bool
    ensures { result ≡ is_event_next applied ticked stamp }
{
    stamp.event.checked_sub(1) == Some(applied) && stamp.tick == ticked
}

/// Tells whether the tick with this stamp is next.
fn is_tick_next(stamp: Stamp, applied: u64, ticked: u64) -> bool
    ensures { result ≡ is_tick_next applied ticked stamp }
{
    stamp.event == applied && stamp.tick.checked_sub(1) == Some(ticked)
}

/// Returns the place of the slot of the n-th tick, from 0.
fn place(cells: &[Cell], n: u64) -> usize
    requires { 0 < length cells.now }
    ensures place { result ≡ n % length cells.now }
    ensures within { result < length cells.now }
{
    (n % cells.len() as u64) as usize
}

fn raise_event(world: &mut World, event: CodeEvent) -> Result<CoreAnswer, Memory>
    ensures { IfOk result (λ a. raise_event world.old event world.old.offering ≡ record { world = world.new; answer = a }) }
{
    let Offering::Idle = world.offering else {
        return Ok(CoreAnswer::NotNext);
    };
    let event = stamped(world.raised.as_slice(), event);
    let copy = EventRecord {
        number: event.number,
        ticks_before: event.ticks_before,
        event: event.event.copy()?,
    };
    world.events.put(copy)?;
    world.raised.push(Item::Event(event))?;
    Ok(CoreAnswer::Done)
}

fn push_vm_tick(world: &mut World, tick: Tick) -> Result<CoreAnswer, Memory>
    ensures { IfOk result (λ a. push_vm_tick world.old tick world.old.offering ≡ record { world = world.new; answer = a }) }
{
    let Offering::Idle = world.offering else {
        return Ok(CoreAnswer::NotNext);
    };
    let tick = stamped_tick(world.raised.as_slice(), tick);
    world.vm_ticks.put(tick.copy())?;
    world.raised.push(Item::Tick(tick))?;
    Ok(CoreAnswer::Done)
}

fn slot_look(world: &mut World, tick: Tick) -> CoreAnswer
    requires { 0 < length world.old.cells }
    ensures { slot_look world.old tick world.old.offering ≡ record { world = world.new; answer = result } }
{
    let Offering::Idle = world.offering else {
        return CoreAnswer::NotNext;
    };
    let cells = world.cells.as_slice();
    if cells[place(cells, world.sent)].full {
        return CoreAnswer::Full(tick);
    }
    world.offering = Offering::Looked(tick);
    CoreAnswer::Done
}

fn slot_write(alloc: Global, world: &mut World) -> CoreAnswer
    requires { 0 < length world.old.cells }
    ensures { slot_write world.old world.old.offering ≡ record { world = world.new; answer = result } }
{
    match mem::replace(&mut world.offering, Offering::Written) {
        Offering::Looked(tick) => {
            let at = place(world.cells.as_slice(), world.sent);
            exchange(
                alloc,
                &mut world.cells,
                at,
                Cell {
                    full: false,
                    tick: Some(tick),
                },
            );
            CoreAnswer::Done
        }
        other => {
            world.offering = other;
            CoreAnswer::NotNext
        }
    }
}

fn slot_mark_full(alloc: Global, world: &mut World) -> Result<CoreAnswer, Memory>
    requires { 0 < length world.old.cells }
    ensures { IfOk result (λ a. slot_mark_full world.old world.old.offering ≡ record { world = world.new; answer = a }) }
{
    let Offering::Written = world.offering else {
        return Ok(CoreAnswer::NotNext);
    };
    let at = place(world.cells.as_slice(), world.sent);
    let Some(tick) = &world.cells.as_slice()[at].tick else {
        return Ok(CoreAnswer::NotNext);
    };
    let tick = stamped_tick(world.raised.as_slice(), tick.copy());
    let sent = world.sent.checked_add(1).ok_or(Memory)?;
    world.raised.push(Item::Tick(tick.copy()))?;
    exchange(
        alloc,
        &mut world.cells,
        at,
        Cell {
            full: true,
            tick: Some(tick),
        },
    );
    world.sent = sent;
    world.offering = Offering::Idle;
    Ok(CoreAnswer::Done)
}

fn front_look(world: &mut World) -> CoreAnswer
    requires { 0 < length world.old.cells }
    ensures { front_look world.old world.old.fronting ≡ record { world = world.new; answer = result } }
{
    let Fronting::Idle = world.fronting else {
        return CoreAnswer::NotNext;
    };
    let cells = world.cells.as_slice();
    if !cells[place(cells, world.removed)].full {
        return CoreAnswer::Empty;
    }
    world.fronting = Fronting::Looked;
    CoreAnswer::Done
}

fn front_take(alloc: Global, world: &mut World) -> CoreAnswer
    requires { 0 < length world.old.cells }
    ensures { front_take world.old world.old.fronting ≡ record { world = world.new; answer = result } }
{
    let Fronting::Looked = world.fronting else {
        return CoreAnswer::NotNext;
    };
    let at = place(world.cells.as_slice(), world.removed);
    let Some(tick) = &world.cells.as_slice()[at].tick else {
        return CoreAnswer::NotNext;
    };
    let tick = tick.copy();
    exchange(
        alloc,
        &mut world.cells,
        at,
        Cell {
            full: true,
            tick: None,
        },
    );
    world.fronting = Fronting::Held(tick);
    CoreAnswer::Done
}

fn slot_mark_empty(alloc: Global, world: &mut World) -> Result<CoreAnswer, Memory>
    requires { 0 < length world.old.cells }
    ensures { IfOk result (λ a. slot_mark_empty world.old world.old.fronting ≡ record { world = world.new; answer = a }) }
{
    let Fronting::Held(tick) = &world.fronting else {
        return Ok(CoreAnswer::NotNext);
    };
    if !is_tick_next(tick.stamp(), world.applied, world.ticked) {
        return Ok(CoreAnswer::NotNext);
    }
    let ticked = world.ticked.checked_add(1).ok_or(Memory)?;
    let removed = world.removed.checked_add(1).ok_or(Memory)?;
    world.taken.push(Item::Tick(tick.copy()))?;
    let at = place(world.cells.as_slice(), world.removed);
    exchange(alloc, &mut world.cells, at, Cell::empty());
    world.ticked = ticked;
    world.removed = removed;
    world.fronting = Fronting::Idle;
    Ok(CoreAnswer::Done)
}

fn take_event(world: &mut World) -> Result<CoreAnswer, Memory>
    ensures { IfOk result (λ a. take_event world.old world.old.fronting ≡ record { world = world.new; answer = a }) }
{
    if let Fronting::Looked = world.fronting {
        return Ok(CoreAnswer::NotNext);
    }
    let Some(first) = world.events.first() else {
        return Ok(CoreAnswer::NotNext);
    };
    if !is_event_next(first.stamp(), world.applied, world.ticked) {
        return Ok(CoreAnswer::NotNext);
    }
    let applied = world.applied.checked_add(1).ok_or(Memory)?;
    let Some(event) = world.events.take() else {
        return Ok(CoreAnswer::NotNext);
    };
    world.taken.push(Item::Event(event))?;
    world.applied = applied;
    Ok(CoreAnswer::Done)
}

fn take_vm_tick(world: &mut World) -> Result<CoreAnswer, Memory>
    ensures { IfOk result (λ a. take_vm_tick world.old world.old.fronting ≡ record { world = world.new; answer = a }) }
{
    if let Fronting::Looked = world.fronting {
        return Ok(CoreAnswer::NotNext);
    }
    let Some(first) = world.vm_ticks.first() else {
        return Ok(CoreAnswer::NotNext);
    };
    if !is_tick_next(first.stamp(), world.applied, world.ticked) {
        return Ok(CoreAnswer::NotNext);
    }
    let ticked = world.ticked.checked_add(1).ok_or(Memory)?;
    let Some(tick) = world.vm_ticks.take() else {
        return Ok(CoreAnswer::NotNext);
    };
    world.taken.push(Item::Tick(tick))?;
    world.ticked = ticked;
    Ok(CoreAnswer::Done)
}

/// Does a step, if it follows the side's last one and its item is next; otherwise it changes nothing. A
/// number past 2^64 - 1 is answered as out of memory too. After that answer the world is spent.
pub fn core_step(alloc: Global, world: &mut World, step: CoreStep) -> Result<CoreAnswer, Memory>
    requires places { 0 < length world.old.cells }
    ensures outcome { IfOk result (λ a. outcome world.old step ≡ record { world = world.new; answer = a }) }
    ensures places { OnOk result (length world.new.cells ≡ length world.old.cells) }
{
    match step {
        CoreStep::RaiseEvent(event) => raise_event(world, event),
        CoreStep::PushVmTick(tick) => push_vm_tick(world, tick),
        CoreStep::SlotLook(tick) => Ok(slot_look(world, tick)),
        CoreStep::SlotWrite => Ok(slot_write(alloc, world)),
        CoreStep::SlotMarkFull => slot_mark_full(alloc, world),
        CoreStep::FrontLook => Ok(front_look(world)),
        CoreStep::FrontTake => Ok(front_take(alloc, world)),
        CoreStep::SlotMarkEmpty => slot_mark_empty(alloc, world),
        CoreStep::TakeEvent => take_event(world),
        CoreStep::TakeVmTick => take_vm_tick(world),
    }
}
