// Code objects.
ghost use Rattle.std.specs.Prelude.{◌≡◌};
ghost use Rattle.std.specs.List.Sorted.{IsNonDecreasingBy};
ghost use Rattle.code_layout.specs.Laws.{slot_of};
ghost use Rattle.code_objects.specs.Objects.{ArePlaces, index_of, object_moved};

use crate::moves::start_after;
use code_event::Layout;
use code_layout::SlotTable;
use code_space::CodeMove;

/// How the place of a slot is found.
#[derive(Drop)]
pub(crate) enum Places {
    /// It is the slot's index, since the layout has one unit.
    Indices,
    /// By a table.
    Table(SlotTable),
}

/// A code object.
#[derive(Drop)]
pub(crate) struct CodeObject {
    /// Its first address.
    pub(crate) start: u32,
    pub(crate) layout: Layout,
    pub(crate) places: Places,
}

// Finds the place of a slot in a layout of one unit.
fn index_of(layout: &Layout, unit: u16, index: u16) -> Option<u16>
    ensures { result ≡ index_of layout.now unit index }
{
    if unit == 0 && usize::from(index) < layout.slots().len() {
        Some(index)
    } else {
        None
    }
}

impl CodeObject {
    /// Finds the place of the slot of a unit and an index.
    pub(crate) fn place_of(&self, unit: u16, index: u16) -> Option<u16>
        requires places { ArePlaces self.now.places self.now.layout }
        ensures { result ≡ slot_of self.now.layout unit index }
    {
        match &self.places {
            Places::Indices => index_of(&self.layout, unit, index),
            Places::Table(table) => table.find(unit, index),
        }
    }

    /// Sets where it starts after these moves.
    pub(crate) fn slide(&mut self, moves: &[CodeMove])
        requires rising { IsNonDecreasingBy (λ move. move.from) moves.now }
        ensures { self.new ≡ object_moved moves.now self.old }
    {
        self.start = start_after(moves, self.start);
    }
}
