// Where a range is placed.
ghost use Rattle.std.specs.Prelude.{◌≡◌, ◌<◌, ◌≤◌, ◌+◌, ◌%◌, length, insert, nat_lt, position};
ghost use Rattle.code_space.specs.Space.{IsCodeSize, IsSpace, IsLeastFit, inserted};

use crate::range::{ALIGNMENT, CodeRange, FIRST_ADDRESS, MAX_RANGES, SPACE_END};

/// Finds the least address at which a range of this size fits: the first address, or the end of a
/// range.
pub(crate) fn least_fit(ranges: &[CodeRange], size: u32) -> u32
    requires space { IsSpace ranges.now }
    requires room { length ranges.now < MAX_RANGES }
    requires size { IsCodeSize size }
    ensures least { IsLeastFit ranges.now size result }
    ensures aligned { result % ALIGNMENT ≡ 0 }
    ensures within { result + size ≤ SPACE_END }
{
    let mut free = FIRST_ADDRESS;
    for range in ranges {
        if free + size <= range.start {
            return free;
        }
        free = range.start + range.size;
    }
    free
}

/// Finds the first range that starts above this address.
fn first_above(ranges: &[CodeRange], start: u32) -> Option<usize>
    ensures { result ≡ position (λ range. nat_lt start range.start) ranges.now }
{
    ranges.iter().position(|range| start < range.start)
}

/// Finds the index at which a range that starts at this address is inserted.
pub(crate) fn place_of(ranges: &[CodeRange], start: u32) -> usize
    ensures within { result ≤ length ranges.now }
    ensures ordered { (new : CodeRange) → new.start ≡ start → insert ranges.now result new ≡ inserted ranges.now new }
{
    match first_above(ranges, start) {
        Some(at) => at,
        None => ranges.len(),
    }
}
