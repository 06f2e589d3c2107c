// Where the slots of a layout stand.
ghost use Rattle.std.specs.Prelude.{◌≡◌, ◌<◌, ◌==◌, Some, [], ℕ, cond, length, IfOk, OnOk};
ghost use Rattle.code_event.specs.Parts.{LayoutParts};
ghost use Rattle.code_layout.specs.Laws.{slot_of};
ghost use Rattle.code_layout.specs.Places.{HasPlaces, entry, row_at};

use code_event::Layout;
use prof_base::Memory;
use std::alloc::Global;

/// The places of a layout's slots, by unit and index, for jumps inside a unit. A look-up takes
/// constant time.
#[derive(Drop)]
pub struct SlotTable {
    // By the units, and then by the indices.
    rows: Vec<Vec<Option<u16>>>,
}

// Makes this number of empty rows.
fn empty_rows(alloc: Global, count: usize) -> Result<Vec<Vec<Option<u16>>>, Memory>
    ensures count { IfOk result (λ rows. length rows.items ≡ count) }
    ensures empty { IfOk result (λ rows. (unit : ℕ) → row_at rows.items unit ≡ []) }
{
    let mut rows = Vec::with_capacity(alloc, count)?;
    for _unit in 0..count {
        rows.push(Vec::new(alloc))?;
    }
    Ok(rows)
}

// Puts the place of an index into a row, in the place of what was there.
fn put(row: &mut Vec<Option<u16>>, index: u16, place: u16) -> Result<(), Memory>
    ensures { OnOk result ((other : ℕ) → entry row.new.items other ≡ cond (index == other) (Some place) (entry row.old.items other)) }
{
    let at = usize::from(index);
    while row.len() <= at {
        row.push(None)?;
    }
    row[at] = Some(place);
    Ok(())
}

impl SlotTable {
    /// Makes the table of a layout.
    #[tactic(auto, unfolding(crate::specs::Places::HasPlaces))]
    pub fn new(alloc: Global, layout: &Layout) -> Result<SlotTable, Memory>
        ensures { IfOk result (λ table. HasPlaces table layout.now) }
    {
        let slots = layout.slots();
        let mut rows = empty_rows(alloc, layout.units().len())?;
        let mut place = slots.len() as u16;
        // From the last slot to the first, so that the first slot of a unit and an index stays.
        while place > 0 {
            place -= 1;
            let slot = slots[usize::from(place)];
            put(&mut rows[usize::from(slot.unit)], slot.index, place)?;
        }
        Ok(SlotTable { rows })
    }

    /// Finds the place of the slot of a unit and an index.
    #[tactic(auto, unfolding(crate::specs::Places::HasPlaces))]
    pub fn find(&self, unit: u16, index: u16) -> Option<u16>
        ensures { (layout : LayoutParts) → HasPlaces self.now layout → result ≡ slot_of layout unit index }
    {
        let row = self.rows.get(usize::from(unit))?;
        *row.get(usize::from(index))?
    }
}
