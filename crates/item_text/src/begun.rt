// A code object whose lines are being read.
ghost use Rattle.std.specs.Prelude.{◌≡◌, [], ◌∷◌, ◌++◌, length, true, false, IfOk};
ghost use Rattle.code_event.specs.declared.event.CodeEvent.TheVariants.{Create};
ghost use Rattle.item_text.specs.ItemLine.{IsParent};
ghost use Rattle.item_text.specs.ItemRules.{is_none, is_whole, is_late_parent, units_above, unit_breaks_limit, slot_breaks_limit, with_unit, with_slot};

use code_event::{CodeEvent, Layout, SLOT_SIZE, Slot, Unit};
use prof_base::{Memory, Sequence};
use std::alloc::Global;
use std::marker::Model;

#[derive(Drop)]
pub(crate) struct Begun {
    start: u32,
    units: Sequence<Unit>,
    // How many units are above each.
    above: Vec<u8>,
    slots: Sequence<Slot>,
}

impl Model for Begun {
    ghost use Rattle.item_text.specs.ItemRules.{BegunCode};
    ghost use Rattle.item_text.specs.ItemDraft.{AreAbove, IsBegun};

    ghost Value = { BegunCode };

    ghost view = { λ b. record { start = b.start; units = b.units; slots = b.slots } };

    ghost invariant = { λ b. IsBegun (record { start = b.start; units = b.units; slots = b.slots }) × AreAbove b.units b.above.items };
}

impl Begun {
    pub(crate) fn new(alloc: Global, start: u32) -> Begun
        ensures { result ≡ record { start = start; units = []; slots = [] } }
    {
        Begun {
            start,
            units: Sequence::new(alloc),
            above: Vec::new(alloc),
            slots: Sequence::new(alloc),
        }
    }

    pub(crate) fn has_no_units(&self) -> bool
        ensures { result ≡ is_none self.now.units }
    {
        self.units.len() == 0
    }

    pub(crate) fn has_no_slots(&self) -> bool
        ensures { result ≡ is_none self.now.slots }
    {
        self.slots.len() == 0
    }

    pub(crate) fn is_whole(&self) -> bool
        ensures { result ≡ is_whole self.now }
    {
        !self.has_no_units() && !self.has_no_slots()
    }

    fn is_late_parent(&self, unit: &Unit) -> bool
        ensures { result ≡ is_late_parent self.now unit.now }
    {
        match &unit.parent {
            None => false,
            Some(site) => usize::from(site.unit) >= self.units.len(),
        }
    }

    // How many units would be above the next unit.
    fn above(&self, unit: &Unit) -> u8
        requires { is_late_parent self.now unit.now ≡ false }
        ensures { result ≡ units_above (self.now.units ++ unit.now ∷ []) (length self.now.units) }
    {
        match &unit.parent {
            None => 0,
            Some(site) => self.above[usize::from(site.unit)] + 1,
        }
    }

    pub(crate) fn unit_breaks_limit(&self, unit: &Unit) -> bool
        ensures { result ≡ unit_breaks_limit self.now unit.now }
    {
        self.units.len() >= Layout::MAX_UNITS
            || self.is_late_parent(unit)
            || usize::from(self.above(unit)) > Layout::MAX_ABOVE
    }

    pub(crate) fn slot_breaks_limit(&self, slot: &Slot) -> bool
        ensures { result ≡ slot_breaks_limit self.now slot.now }
    {
        let number = self.slots.len();
        if number >= Layout::MAX_SLOTS || usize::from(slot.unit) >= self.units.len() {
            return true;
        }
        let end = u64::from(self.start) + u64::from(SLOT_SIZE) * (number as u64 + 1);
        end > 4_294_967_296
    }

    pub(crate) fn with_unit(self, unit: Unit) -> Result<Begun, Memory>
        requires limit { unit_breaks_limit self unit ≡ false }
        requires parent { IsParent (is_none self.units) unit.parent }
        ensures { IfOk result (λ begun. begun ≡ with_unit self unit) }
    {
        let number = self.above(&unit);
        let Begun {
            start,
            units,
            above,
            slots,
        } = self;
        let mut above = above;
        above.push(number)?;
        let mut units = units;
        units.push(unit)?;
        Ok(Begun {
            start,
            units,
            above,
            slots,
        })
    }

    pub(crate) fn with_slot(self, slot: Slot) -> Result<Begun, Memory>
        requires limit { slot_breaks_limit self slot ≡ false }
        ensures { IfOk result (λ begun. begun ≡ with_slot self slot) }
    {
        let Begun {
            start,
            units,
            above,
            slots,
        } = self;
        let mut slots = slots;
        slots.push(slot)?;
        Ok(Begun {
            start,
            units,
            above,
            slots,
        })
    }

    /// The creation of the code object.
    pub(crate) fn into_event(self) -> CodeEvent
        requires { is_whole self ≡ true }
        ensures { result ≡ Create self.start (record { units = self.units; slots = self.slots }) }
    {
        CodeEvent::Create {
            start: self.start,
            layout: Layout::new(self.units, self.slots),
        }
    }
}
