// The space of the guest's code.
ghost use Rattle.std.specs.Prelude.{◌≡◌, ◌<◌, ◌≤◌, ◌+◌, ◌%◌, [], length, IsSome, IfOk, OnOk, OnErr, option_copied};
ghost use Rattle.code_space.specs.Space.{IsSpace, IsLeastFit, inserted, range_at, without_range};
ghost use Rattle.code_space.specs.Compaction.{compacted, moves_between};

use crate::compacting::slide;
use crate::placing::{least_fit, place_of};
use crate::range::{
    ALIGNMENT, CodeMove, CodeRange, FIRST_ADDRESS, MAX_RANGES, MAX_SIZE, SPACE_END,
};
use prof_base::{Memory, Sequence};
use std::alloc::Global;
use std::marker::Model;

/// The ranges in which code lies, in rising order. No two of them share an address.
#[derive(Debug, Drop)]
pub struct CodeSpace {
    ranges: Vec<CodeRange>,
}

impl Model for CodeSpace {
    ghost use Rattle.std.specs.Prelude.{List};
    ghost use Rattle.code_space.specs.Space.{IsSpace};
    ghost use Rattle.code_space.specs.declared.range.CodeRange.{CodeRange};

    ghost Value = { List CodeRange };

    ghost view = { λ s. s.ranges.items };

    ghost invariant = { λ s. IsSpace s.ranges.items };
}

/// Finds the range that starts at this address.
fn find_range(ranges: &[CodeRange], start: u32) -> Option<&CodeRange>
    ensures { option_copied result ≡ range_at ranges.now start }
{
    ranges.iter().find(|range| range.start == start)
}

/// Removes the range that starts at this address.
fn remove_range(ranges: &mut Vec<CodeRange>, start: u32)
    ensures { ranges.new.items ≡ without_range ranges.old.items start }
{
    ranges.retain(|range| range.start != start);
}

impl CodeSpace {
    /// Makes a space in which nothing lies. It allocates nothing.
    pub fn new(alloc: Global) -> CodeSpace
        ensures empty { result ≡ [] }
    {
        CodeSpace {
            ranges: Vec::new(alloc),
        }
    }

    /// Returns the number of ranges.
    pub fn len(&self) -> usize
        ensures len { result ≡ length self.now }
        ensures few { result ≤ MAX_RANGES }
    {
        self.ranges.len()
    }

    /// Returns the ranges in rising order.
    pub fn as_slice(&self) -> &[CodeRange]
        ensures ranges { result.now ≡ self.now }
        ensures space { IsSpace self.now }
    {
        self.ranges.as_slice()
    }

    /// Returns the range that starts at this address, if one does.
    pub fn range_at(&self, start: u32) -> Option<&CodeRange>
        ensures found { option_copied result ≡ range_at self.now start }
    {
        find_range(&self.ranges, start)
    }

    /// Places a range of `size` bytes at the least address at which it fits, and returns that
    /// address. When out of memory, it leaves the space unchanged.
    pub fn place(&mut self, size: u32) -> Result<u32, Memory>
        requires least_size { ALIGNMENT ≤ size }
        requires greatest_size { size ≤ MAX_SIZE }
        requires whole_slots { size % ALIGNMENT ≡ 0 }
        requires room { length self.old < MAX_RANGES }
        ensures least { IfOk result (λ start. IsLeastFit self.old size start) }
        ensures placed { IfOk result (λ start. self.new ≡ inserted self.old (record { start = start; size = size })) }
        ensures more { OnOk result (length self.new ≡ length self.old + 1) }
        ensures aligned { IfOk result (λ start. start % ALIGNMENT ≡ 0) }
        ensures within { IfOk result (λ start. start + size ≤ SPACE_END) }
        ensures unchanged { OnErr result (self.new ≡ self.old) }
    {
        let start = least_fit(&self.ranges, size);
        let at = place_of(&self.ranges, start);
        self.ranges.insert(at, CodeRange { start, size })?;
        Ok(start)
    }

    /// Frees the range that starts at this address. It takes no memory.
    pub fn free(&mut self, start: u32)
        requires there { IsSome (range_at self.old start) }
        ensures freed { self.new ≡ without_range self.old start }
        ensures fewer { length self.new + 1 ≡ length self.old }
    {
        remove_range(&mut self.ranges, start);
    }

    /// Slides all ranges down, so that they lie without holes from the first address on in the order
    /// that they had, and returns the moves of those that did not lie there already, in rising
    /// order. When out of memory, it leaves the space unchanged.
    pub fn compact(&mut self) -> Result<Sequence<CodeMove>, Memory>
        ensures compacted { OnOk result (self.new ≡ compacted FIRST_ADDRESS self.old) }
        ensures moves { IfOk result (λ moves. moves ≡ moves_between self.old (compacted FIRST_ADDRESS self.old)) }
        ensures unchanged { OnErr result (self.new ≡ self.old) }
    {
        let mut moves = Vec::with_capacity(*self.ranges.allocator(), self.ranges.len())?;
        slide(&mut self.ranges, &mut moves);
        Ok(Sequence::from_vec(moves))
    }
}
