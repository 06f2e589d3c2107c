// Layouts of code objects: which functions are inlined in one, and what each of its slots is.
ghost use Rattle.std.specs.Prelude.{◌≡◌, ◌≤◌, ◌*◌, ◌++◌, [], ◌∷◌, take, length, IfOk};
ghost use Rattle.code_event.specs.Layout.{IsLayout};

use crate::entry::Entry;
use prof_base::{FuncId, Memory, Sequence};
use std::marker::Model;

/// The bytes of a slot in the address space.
pub const SLOT_SIZE: u32 = 4;

/// Where a function was inlined: the call of the unit above it.
#[derive(Clone, Copy, Debug, PartialEq, Eq)]
pub struct Site {
    /// The unit above, by its number in the layout.
    pub unit: u16,
    /// The call's index in the body of that unit's function.
    pub index: u16,
    /// The call's line.
    pub line: u32,
}

/// A function in a layout.
#[derive(Debug, Drop)]
pub struct Unit {
    pub func: FuncId,
    pub entry: Entry,
    /// Where it was inlined. The one that the code object is made for has none.
    pub parent: Option<Site>,
}

/// The place of an instruction in a layout. Each takes [`SLOT_SIZE`] bytes.
#[derive(Clone, Copy, Debug, PartialEq, Eq)]
pub struct Slot {
    /// The unit of the instruction, by its number in the layout.
    pub unit: u16,
    /// The instruction's index in the body of that unit's function.
    pub index: u16,
    /// The instruction's line.
    pub line: u32,
}

/// The layout of a code object: 1 to [`Layout::MAX_UNITS`] units and 1 to [`Layout::MAX_SLOTS`]
/// slots, each list in order. Unit 0 alone has no parent, a unit's parent has a smaller number, no
/// unit has more than [`Layout::MAX_ABOVE`] above it, and the unit of each slot exists.
#[derive(Debug, Drop)]
pub struct Layout {
    units: Sequence<Unit>,
    slots: Sequence<Slot>,
}

impl Model for Layout {
    ghost use Rattle.code_event.specs.Parts.{LayoutParts};

    ghost Value = { LayoutParts };

    ghost use Rattle.code_event.specs.Layout.{IsLayout};

    ghost view = { λ l. record { units = l.units; slots = l.slots } };

    ghost invariant = { λ l. IsLayout (record { units = l.units; slots = l.slots }) };
}

impl Unit {
    /// Makes an equal unit, on the allocators of its texts.
    fn copy(&self) -> Result<Unit, Memory>
        ensures { IfOk result (λ copy. copy ≡ self.now) }
    {
        Ok(Unit {
            func: self.func,
            entry: self.entry.copy()?,
            parent: self.parent,
        })
    }
}

fn copy_units(units: &Sequence<Unit>) -> Result<Sequence<Unit>, Memory>
    ensures { IfOk result (λ copy. copy ≡ units.now) }
{
    let mut copies = Sequence::new(units.allocator());
    for unit in units.as_slice() {
        copies.push(unit.copy()?)?;
    }
    Ok(copies)
}

impl Layout {
    /// The greatest number of units.
    pub const MAX_UNITS: usize = 4096;

    /// The greatest number of slots.
    pub const MAX_SLOTS: usize = 4096;

    /// The greatest number of units above one.
    pub const MAX_ABOVE: usize = 4;

    /// Makes the layout of these units and slots. It allocates nothing.
    pub fn new(units: Sequence<Unit>, slots: Sequence<Slot>) -> Layout
        requires { IsLayout (record { units = units; slots = slots }) }
        ensures units { result.units ≡ units }
        ensures slots { result.slots ≡ slots }
    {
        Layout { units, slots }
    }

    /// Returns the units, by their numbers.
    pub fn units(&self) -> &[Unit]
        ensures units { result.now ≡ self.now.units }
        ensures rules { IsLayout self.now }
    {
        self.units.as_slice()
    }

    /// Returns the slots, by their places.
    pub fn slots(&self) -> &[Slot]
        ensures slots { result.now ≡ self.now.slots }
        ensures rules { IsLayout self.now }
    {
        self.slots.as_slice()
    }

    /// Returns the size of the code object, in bytes.
    pub fn size(&self) -> u32
        ensures size { result ≡ SLOT_SIZE * length self.now.slots }
        ensures bound { result ≤ SLOT_SIZE * Layout.MAX_SLOTS }
    {
        self.slots.len() as u32 * SLOT_SIZE
    }

    /// Makes an equal layout, on the allocators of its lists.
    pub fn copy(&self) -> Result<Layout, Memory>
        ensures { IfOk result (λ copy. copy ≡ self.now) }
    {
        let units = copy_units(&self.units)?;
        let slots = self.slots.copy()?;
        Ok(Layout { units, slots })
    }
}
