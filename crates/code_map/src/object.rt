// Code objects in the address space.
ghost use Rattle.std.specs.Prelude.{◌≡◌, ◌+◌, ◌==◌, IsTrue};
ghost use Rattle.std.specs.Option.{option_copied};
ghost use Rattle.code_event.specs.CodeMap.{range_of, meets, range_entry};
ghost use Rattle.code_event.specs.Symbolizer.{holds};
ghost use Rattle.code_map.specs.Objects.{IsCode, found_in};

use crate::found::Found;
use code_event::{Entry, Layout, SLOT_SIZE};
use std::marker::Model;

/// A code object: where it starts, and its layout.
#[derive(Debug, Drop)]
pub(crate) struct CodeObject {
    start: u32,
    layout: Layout,
}

impl Model for CodeObject {
    ghost use Rattle.code_event.specs.CodeMap.{range_of};
    ghost use Rattle.code_event.specs.declared.code_map.Range.{Range};

    ghost Value = { Range };

    ghost view = { λ o. range_of o.start o.layout };
}

impl CodeObject {
    /// Makes the code object of a layout that starts at an address.
    pub(crate) fn new(start: u32, layout: Layout) -> CodeObject
        ensures range { result ≡ range_of start layout }
        ensures code { IsCode result }
    {
        let _some = layout.slots();
        CodeObject { start, layout }
    }

    /// Moves the code object to another address.
    pub(crate) fn moved_to(self, start: u32) -> CodeObject
        ensures { result ≡ range_of start self.layout }
    {
        let CodeObject { layout, .. } = self;
        CodeObject { start, layout }
    }

    /// Returns the layout.
    pub(crate) fn layout(&self) -> &Layout
        ensures { result.now ≡ self.now.layout }
    {
        &self.layout
    }

    /// Returns whether it starts at this address.
    pub(crate) fn starts_at(&self, start: u32) -> bool
        ensures { result ≡ (self.now.start == start) }
    {
        self.start == start
    }

    /// Returns the first address past it, which may lie past 32 bits.
    fn end(&self) -> u64
        ensures { result ≡ self.now.start + self.now.size }
    {
        u64::from(self.start) + u64::from(self.layout.size())
    }

    /// Returns whether the two share an address.
    pub(crate) fn meets(&self, other: &CodeObject) -> bool
        ensures { result ≡ meets self.now other.now }
    {
        u64::from(self.start) < other.end() && u64::from(other.start) < self.end()
    }

    /// Returns whether the address lies in it.
    pub(crate) fn holds(&self, address: u64) -> bool
        ensures { result ≡ holds address self.now }
    {
        u64::from(self.start) <= address && address < self.end()
    }

    /// Returns the place of an address that lies in it.
    pub(crate) fn place(&self, address: u64) -> Found
        requires { IsTrue (holds address self.now) }
        ensures { result ≡ found_in address self.now }
    {
        let passed = address - u64::from(self.start);
        let size = self.layout.size();
        prove!(passed < u64::from(size));
        Found {
            start: self.start,
            slot: (passed / u64::from(SLOT_SIZE)) as u16,
        }
    }

    /// Returns the entry of the function that it is made for.
    pub(crate) fn entry(&self) -> Option<&Entry>
        ensures { option_copied result ≡ range_entry self.now }
    {
        self.layout.units().first().map(|unit| &unit.entry)
    }
}
