// The code map: code objects in the address space.
ghost use Rattle.std.specs.Prelude.{◌≡◌, ◌+◌, IfOk, filter, not};
ghost use Rattle.std.specs.Option.{option_copied, option_and_then};
ghost use Rattle.code_event.specs.CodeMap.{range_of, meets, with_range, range_at, without_range, after_event, range_entry};
ghost use Rattle.code_event.specs.Symbolizer.{holds};

use code_event::{CodeEvent, Entry, Layout, Range};
use prof_base::{Memory, Sequence};

/// Returns the first address past the range. It may be past 32 bits.
fn end(range: &Range) -> u64
    ensures { result ≡ range.now.start + range.now.size }
{
    u64::from(range.start) + u64::from(range.size)
}

/// Returns whether the ranges share an address.
fn meets(one: &Range, other: &Range) -> bool
    ensures { result ≡ meets one.now other.now }
{
    u64::from(one.start) < end(other) && u64::from(other.start) < end(one)
}

/// Returns whether the address is in the range.
pub(crate) fn holds(range: &Range, address: u32) -> bool
    ensures { result ≡ holds address range.now }
{
    range.start <= address && u64::from(address) < end(range)
}

/// Returns the entry of the function that the code object is made for.
fn range_entry(range: &Range) -> Option<&Entry>
    ensures { option_copied result ≡ range_entry range.now }
{
    range.layout.units().first().map(|unit| &unit.entry)
}

/// Makes the code object of the layout that starts at this address.
fn range_of(start: u32, layout: Layout) -> Range
    ensures { result ≡ range_of start layout }
{
    Range {
        start,
        size: layout.size(),
        layout,
    }
}

/// Returns the ranges that do not meet the new one, in order.
fn apart_from(ranges: Sequence<Range>, new: &Range) -> Sequence<Range>
    ensures { result ≡ filter (λ r. not (meets r new.now)) ranges }
{
    let mut kept = ranges.into_vec();
    kept.retain(|range| !meets(range, new));
    Sequence::from_vec(kept)
}

/// Returns the ranges with a new one, which replaces each that it meets.
fn with_range(ranges: Sequence<Range>, new: Range) -> Result<Sequence<Range>, Memory>
    ensures { IfOk result (λ all. all ≡ with_range ranges new) }
{
    let mut kept = apart_from(ranges, &new);
    kept.push(new)?;
    Ok(kept)
}

/// Finds the range that starts at this address.
fn range_at(ranges: &[Range], start: u32) -> Option<&Range>
    ensures { option_copied result ≡ range_at ranges.now start }
{
    ranges.iter().find(|range| range.start == start)
}

/// Returns the ranges except the one that starts at this address.
fn without_range(ranges: Sequence<Range>, start: u32) -> Sequence<Range>
    ensures { result ≡ without_range ranges start }
{
    let mut kept = ranges.into_vec();
    kept.retain(|range| range.start != start);
    Sequence::from_vec(kept)
}

/// Finds the entry of the function whose code object starts at this address.
pub(crate) fn entry_at(ranges: &[Range], start: u32) -> Option<&Entry>
    ensures { option_copied result ≡ option_and_then range_entry (range_at ranges.now start) }
{
    match range_at(ranges, start) {
        Some(range) => range_entry(range),
        None => None,
    }
}

/// Returns the ranges after a code object has moved.
fn after_move(ranges: Sequence<Range>, from: u32, to: u32) -> Result<Sequence<Range>, Memory>
    ensures { IfOk result (λ after. after ≡ after_event ranges (CodeEvent.Move from to)) }
{
    match range_at(ranges.as_slice(), from) {
        Some(range) => {
            let moved = range_of(to, range.layout.copy()?);
            with_range(without_range(ranges, from), moved)
        }
        None => Ok(ranges),
    }
}

/// Returns the ranges after an event.
pub(crate) fn after_event(
    ranges: Sequence<Range>,
    event: &CodeEvent,
) -> Result<Sequence<Range>, Memory>
    ensures { IfOk result (λ after. after ≡ after_event ranges event.now) }
{
    match event {
        CodeEvent::Create { start, layout } => {
            with_range(ranges, range_of(*start, layout.copy()?))
        }
        CodeEvent::Move { from, to } => after_move(ranges, *from, *to),
        CodeEvent::Delete { start } => Ok(without_range(ranges, *start)),
        CodeEvent::NoOpt { .. }
        | CodeEvent::Deopt { .. }
        | CodeEvent::Start { .. }
        | CodeEvent::Stop { .. }
        | CodeEvent::Finish { .. } => Ok(ranges),
    }
}
