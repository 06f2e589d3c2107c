// The code map.
ghost use Rattle.std.specs.Prelude.{◌≡◌, [], ℕ, List, Option, IfOk, OnOk};
ghost use Rattle.std.specs.Option.{option_copied, option_map};
ghost use Rattle.code_event.specs.CodeMap.{range_at};
ghost use Rattle.code_event.specs.DeoptReasons.{DeoptReasons, no_reasons};
ghost use Rattle.code_event.specs.declared.code_map.Range.{Range};
ghost use Rattle.code_map.specs.CodeMap.{HasRanges, HasReasons, RangesFollow, ReasonsFollow, RangesStay, ReasonsStay, found_at, with_reasons};

use crate::found::Found;
use crate::object::CodeObject;
use crate::objects::{change_objects, layout_at, place_of};
use crate::reasons::{change_reasons, fill_nodes, reason_in};
use code_event::{CodeEvent, DeoptReason, Entry, Finished, Layout};
use prof_base::{Memory, Sequence, Text};
use std::alloc::Global;
use std::marker::Model;
use std::mem;

/// Which code is where, and why functions are not optimised, after the code events so far.
#[derive(Debug, Drop)]
pub struct CodeMap {
    objects: Vec<CodeObject>,
    reasons: Vec<DeoptReason>,
}

impl Model for CodeMap {
    ghost use Rattle.code_map.specs.Parts.{MapParts};

    ghost Value = { MapParts };

    ghost view = { λ m. record { objects = m.objects.items; reasons = m.reasons.items } };
}

impl CodeMap {
    /// Makes the map before any event. It allocates nothing.
    pub fn new(alloc: Global) -> CodeMap
        ensures ranges { HasRanges result [] }
        ensures reasons { HasReasons result no_reasons }
    {
        CodeMap {
            objects: Vec::new(alloc),
            reasons: Vec::new(alloc),
        }
    }

    /// Applies the next event. Out of memory, the map is spent.
    pub fn apply(&mut self, event: &CodeEvent) -> Result<(), Memory>
        ensures ranges { OnOk result (RangesFollow self.old self.new event.now) }
        ensures reasons { OnOk result (ReasonsFollow self.old self.new event.now) }
    {
        change_reasons(&self.objects, &mut self.reasons, event)?;
        change_objects(&mut self.objects, event)
    }

    /// Finds the code object and the slot that an address lies in, if it lies in one. The map may
    /// remember it.
    pub fn find(&mut self, address: u64) -> Option<Found>
        ensures found { (ranges : List Range) → HasRanges self.old ranges → result ≡ found_at ranges address }
        ensures ranges { RangesStay self.old self.new }
        ensures reasons { ReasonsStay self.old self.new }
    {
        place_of(&self.objects, address)
    }

    /// Returns the layout of the code object that starts at an address.
    pub fn layout_at(&self, start: u32) -> Option<&Layout>
        ensures { (ranges : List Range) → HasRanges self.now ranges → option_copied result ≡ option_map (λ r. r.layout) (range_at ranges start) }
    {
        layout_at(&self.objects, start)
    }

    /// Returns the latest reason why the function of this entry is not optimised.
    pub fn reason_of(&self, entry: &Entry) -> Option<&Text>
        ensures { (reasons : DeoptReasons) → HasReasons self.now reasons → option_copied result ≡ reasons entry.now }
    {
        reason_in(&self.reasons, entry)
    }

    /// Gives each node of a profile the reason of its entry. Out of memory, the profile is spent.
    pub fn fill_reasons(&self, finished: &mut Finished) -> Result<(), Memory>
        ensures { (reasons : DeoptReasons) → HasReasons self.now reasons → OnOk result (finished.new ≡ with_reasons reasons finished.old) }
    {
        let none = Sequence::new(finished.nodes.allocator());
        let mut nodes = mem::replace(&mut finished.nodes, none).into_vec();
        fill_nodes(&self.reasons, &mut nodes)?;
        finished.nodes = Sequence::from_vec(nodes);
        Ok(())
    }
}
