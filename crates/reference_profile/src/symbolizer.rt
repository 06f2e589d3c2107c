// The symbolizer: the resolved frames of a tick.
ghost use Rattle.std.specs.Prelude.{◌≡◌, ◌++◌, IfOk, OnOk, find, flat_map, reverse};
ghost use Rattle.std.specs.Option.{option_copied};
ghost use Rattle.std.specs.List.{slice_get};
ghost use Rattle.prof_base.specs.Text.{IsText};
ghost use Rattle.code_event.specs.Layout.{site_of, sites_above};
ghost use Rattle.code_event.specs.Symbolizer.{unit_frame, slot_frames, holds, slot_at, range_frames, frames_at, caller_frames, stack_frames, special, special_frame, or_program, tick_frames};

use crate::code_map::holds;
use code_event::{Entry, Layout, Range, ResolvedFrame, SLOT_SIZE, Site, Slot, Tick, Unit, VmState};
use prof_base::{Memory, Sequence, Text, TextRefused};
use std::alloc::Global;

/// Returns the unit with this number, if there is one.
fn unit_at(layout: &Layout, number: u16) -> Option<&Unit>
    ensures { option_copied result ≡ slice_get layout.now.units number }
{
    layout.units().get(number as usize)
}

/// Adds the unit with this number, at this line.
fn push_unit(
    frames: &mut Sequence<ResolvedFrame>,
    layout: &Layout,
    number: u16,
    line: u32,
) -> Result<(), Memory>
    ensures { OnOk result (frames.new ≡ frames.old ++ unit_frame layout.now number line) }
{
    match unit_at(layout, number) {
        Some(unit) => frames.push(ResolvedFrame {
            entry: unit.entry.copy()?,
            line,
        }),
        None => Ok(()),
    }
}

/// Returns where the unit with this number was inlined, if it was.
fn site_of(layout: &Layout, number: u16) -> Option<Site>
    ensures { result ≡ site_of layout.now.units number }
{
    match unit_at(layout, number) {
        Some(unit) => unit.parent,
        None => None,
    }
}

/// Adds each unit above the one with this number, at the line of the call that was inlined.
fn push_units_above(
    frames: &mut Sequence<ResolvedFrame>,
    layout: &Layout,
    number: u16,
) -> Result<(), Memory>
    ensures { OnOk result (frames.new ≡ frames.old ++ flat_map (λ site. unit_frame layout.now site.unit site.line) (sites_above Layout.MAX_ABOVE layout.now.units number)) }
{
    let mut below = number;
    for _passed in 0..Layout::MAX_ABOVE {
        match site_of(layout, below) {
            Some(site) => {
                push_unit(frames, layout, site.unit, site.line)?;
                below = site.unit;
            }
            None => return Ok(()),
        }
    }
    Ok(())
}

/// Adds the unit of a slot at the slot's line, then each unit above.
fn push_slot(
    frames: &mut Sequence<ResolvedFrame>,
    layout: &Layout,
    slot: Slot,
) -> Result<(), Memory>
    ensures { OnOk result (frames.new ≡ frames.old ++ slot_frames layout.now slot) }
{
    push_unit(frames, layout, slot.unit, slot.line)?;
    push_units_above(frames, layout, slot.unit)
}

/// Returns the slot of an address in a range.
fn slot_at(range: &Range, address: u32) -> Option<Slot>
    ensures { result ≡ slot_at address range.now }
{
    let place = address.saturating_sub(range.start) / SLOT_SIZE;
    range.layout.slots().get(place as usize).copied()
}

/// Finds the range that an address is in.
fn range_around(ranges: &[Range], address: u32) -> Option<&Range>
    ensures { option_copied result ≡ find (holds address) ranges.now }
{
    ranges.iter().find(|range| holds(range, address))
}

/// Adds the functions at an address of a range.
fn push_range_frames(
    frames: &mut Sequence<ResolvedFrame>,
    range: &Range,
    address: u32,
) -> Result<(), Memory>
    ensures { OnOk result (frames.new ≡ frames.old ++ range_frames address range.now) }
{
    match slot_at(range, address) {
        Some(slot) => push_slot(frames, &range.layout, slot),
        None => Ok(()),
    }
}

/// Adds the functions at an address, if it is in a range.
fn push_frames_at(
    frames: &mut Sequence<ResolvedFrame>,
    ranges: &[Range],
    address: u32,
) -> Result<(), Memory>
    ensures { OnOk result (frames.new ≡ frames.old ++ frames_at ranges.now address) }
{
    match range_around(ranges, address) {
        Some(range) => push_range_frames(frames, range, address),
        None => Ok(()),
    }
}

/// Adds the functions at a return address: those of the call, which is directly before it.
fn push_caller(
    frames: &mut Sequence<ResolvedFrame>,
    ranges: &[Range],
    address: u32,
) -> Result<(), Memory>
    ensures { OnOk result (frames.new ≡ frames.old ++ caller_frames ranges.now address) }
{
    if address == 0 {
        return Ok(());
    }
    push_frames_at(frames, ranges, address - 1)
}

/// Adds the functions at each of these return addresses.
fn push_callers(
    frames: &mut Sequence<ResolvedFrame>,
    ranges: &[Range],
    callers: &[u32],
) -> Result<(), Memory>
    ensures { OnOk result (frames.new ≡ frames.old ++ flat_map (caller_frames ranges.now) callers.now) }
{
    for caller in callers {
        push_caller(frames, ranges, *caller)?;
    }
    Ok(())
}

/// Returns the functions on a stack of addresses, both youngest first.
fn stack_frames(
    alloc: Global,
    ranges: &[Range],
    addresses: &[u32],
) -> Result<Sequence<ResolvedFrame>, Memory>
    ensures { IfOk result (λ frames. frames ≡ stack_frames ranges.now addresses.now) }
{
    let mut frames = Sequence::new(alloc);
    if let Some((youngest, callers)) = addresses.split_first() {
        push_frames_at(&mut frames, ranges, *youngest)?;
        push_callers(&mut frames, ranges, callers)?;
    }
    Ok(frames)
}

/// Reverses the frames.
fn reversed(frames: Sequence<ResolvedFrame>) -> Sequence<ResolvedFrame>
    ensures { result ≡ reverse frames }
{
    let mut frames = frames.into_vec();
    frames.reverse();
    Sequence::from_vec(frames)
}

/// Makes a text of bytes that are few and printable, so that only memory may run out.
fn text_of(alloc: Global, text: &str) -> Result<Text, Memory>
    requires { IsText text.now }
    ensures { IfOk result (λ copy. copy ≡ text.now) }
{
    match Text::new(alloc, text.as_bytes()) {
        Ok(text) => Ok(text),
        Err(TextRefused::Memory) => Err(Memory),
        Err(TextRefused::TooLong | TextRefused::NotPrintable { .. }) => unreachable!(),
    }
}

/// Makes an entry that is not a function, as V8 names it.
pub(crate) fn special(alloc: Global, name: &str) -> Result<Entry, Memory>
    requires { IsText name.now }
    ensures { IfOk result (λ entry. entry ≡ special name.now) }
{
    Ok(Entry {
        name: text_of(alloc, name)?,
        url: text_of(alloc, "")?,
        script: 0,
        line: 0,
        column: 0,
    })
}

/// Makes the one frame of a tick that names no function.
fn special_frame(alloc: Global, name: &str) -> Result<Sequence<ResolvedFrame>, Memory>
    requires { IsText name.now }
    ensures { IfOk result (λ frames. frames ≡ special_frame name.now) }
{
    let entry = special(alloc, name)?;
    let mut frames = Sequence::new(alloc);
    frames.push(ResolvedFrame { entry, line: 0 })?;
    Ok(frames)
}

/// Returns these frames, or the frame of the program where there are none.
fn or_program(
    alloc: Global,
    frames: Sequence<ResolvedFrame>,
) -> Result<Sequence<ResolvedFrame>, Memory>
    ensures { IfOk result (λ some. some ≡ or_program frames) }
{
    if frames.is_empty() {
        return special_frame(alloc, "(program)");
    }
    Ok(frames)
}

/// Returns the resolved frames of a tick over these ranges, oldest first.
pub(crate) fn frames_of(
    alloc: Global,
    ranges: &[Range],
    tick: &Tick,
) -> Result<Sequence<ResolvedFrame>, Memory>
    ensures { IfOk result (λ found. found ≡ tick_frames ranges.now tick.now) }
{
    match tick.state {
        VmState::Js => {
            let youngest_first = stack_frames(alloc, ranges, tick.frames.as_slice())?;
            or_program(alloc, reversed(youngest_first))
        }
        VmState::Idle => special_frame(alloc, "(idle)"),
        VmState::Native => special_frame(alloc, "(program)"),
        VmState::Gc => special_frame(alloc, "(garbage collector)"),
    }
}
