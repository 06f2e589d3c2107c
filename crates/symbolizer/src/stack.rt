// The functions on a stack of addresses, from the oldest.
ghost use Rattle.std.specs.Prelude.{◌≡◌, List, IfOk, OnOk, reverse, flat_map};
ghost use Rattle.code_event.specs.Symbolizer.{frames_at, caller_frames, stack_frames, or_program};
ghost use Rattle.code_event.specs.declared.code_map.Range.{Range};
ghost use Rattle.code_map.specs.CodeMap.{HasRanges, RangesStay, ReasonsStay};
ghost use Rattle.symbolizer.specs.Paths.{found_frames, with_frames, paths_of};

use crate::frame::no_paths;
use crate::slot::push_slot;
use crate::special::special_paths;
use code_event::PathPair;
use code_map::{CodeMap, Found};
use prof_base::Memory;
use std::alloc::Global;

/// Appends the functions at a place of the code.
fn push_found(paths: &mut PathPair, map: &CodeMap, found: Found) -> Result<(), Memory>
    ensures { (ranges : List Range) → HasRanges map.now ranges → OnOk result (paths.new ≡ with_frames paths.old (reverse (found_frames ranges found))) }
{
    let Some(layout) = map.layout_at(found.start) else {
        return Ok(());
    };
    match layout.slots().get(usize::from(found.slot)) {
        Some(slot) => push_slot(paths, layout, *slot),
        None => Ok(()),
    }
}

/// Appends the functions at an address, if it lies in a code object.
fn push_address(paths: &mut PathPair, map: &mut CodeMap, address: u32) -> Result<(), Memory>
    ensures paths { (ranges : List Range) → HasRanges map.old ranges → OnOk result (paths.new ≡ with_frames paths.old (reverse (frames_at ranges address))) }
    ensures ranges { RangesStay map.old map.new }
    ensures reasons { ReasonsStay map.old map.new }
{
    match map.find(u64::from(address)) {
        Some(found) => push_found(paths, map, found),
        None => Ok(()),
    }
}

/// Appends the functions at a return address: those of the call, which is right before it.
fn push_caller(paths: &mut PathPair, map: &mut CodeMap, address: u32) -> Result<(), Memory>
    ensures paths { (ranges : List Range) → HasRanges map.old ranges → OnOk result (paths.new ≡ with_frames paths.old (reverse (caller_frames ranges address))) }
    ensures ranges { RangesStay map.old map.new }
    ensures reasons { ReasonsStay map.old map.new }
{
    if address == 0 {
        return Ok(());
    }
    push_address(paths, map, address - 1)
}

/// Appends the functions at these return addresses, which are youngest first.
fn push_callers(paths: &mut PathPair, map: &mut CodeMap, callers: &[u32]) -> Result<(), Memory>
    ensures paths { (ranges : List Range) → HasRanges map.old ranges → OnOk result (paths.new ≡ with_frames paths.old (reverse (flat_map (caller_frames ranges) callers.now))) }
    ensures ranges { RangesStay map.old map.new }
    ensures reasons { ReasonsStay map.old map.new }
{
    for at in (0..callers.len()).rev() {
        push_caller(paths, map, callers[at])?;
    }
    Ok(())
}

/// Appends the functions on a stack of addresses, which are youngest first.
fn push_stack(paths: &mut PathPair, map: &mut CodeMap, addresses: &[u32]) -> Result<(), Memory>
    ensures paths { (ranges : List Range) → HasRanges map.old ranges → OnOk result (paths.new ≡ with_frames paths.old (reverse (stack_frames ranges addresses.now))) }
    ensures ranges { RangesStay map.old map.new }
    ensures reasons { ReasonsStay map.old map.new }
{
    if let Some((youngest, callers)) = addresses.split_first() {
        push_callers(paths, map, callers)?;
        push_address(paths, map, *youngest)?;
    }
    Ok(())
}

/// Finds the paths of a tick in guest code, of which these are the addresses, youngest first.
pub(crate) fn stack_paths(
    alloc: Global,
    map: &mut CodeMap,
    addresses: &[u32],
) -> Result<PathPair, Memory>
    ensures paths { (ranges : List Range) → HasRanges map.old ranges → IfOk result (λ paths. paths ≡ paths_of (or_program (reverse (stack_frames ranges addresses.now)))) }
    ensures ranges { RangesStay map.old map.new }
    ensures reasons { ReasonsStay map.old map.new }
{
    let mut paths = no_paths(alloc);
    push_stack(&mut paths, map, addresses)?;
    if paths.leaf.is_empty() {
        return special_paths(alloc, "(program)");
    }
    Ok(paths)
}
