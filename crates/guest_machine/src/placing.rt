// Where frames are in code.
ghost use Rattle.std.specs.Prelude.{◌≡◌, ◌<◌, ◌≤◌, ◌+◌, length, IsTrue};
ghost use Rattle.code_event.specs.Layout.{site_of};
ghost use Rattle.code_event.specs.declared.layout.TheConstants.{SLOT_SIZE};
ghost use Rattle.code_layout.specs.Laws.{func_at, slot_of};
ghost use Rattle.code_objects.specs.CodeObjects.{layout_of, start_at};
ghost use Rattle.guest_machine.specs.Machine.{HasMoved, IsMachine, Rises, next_op, program_of, youngest_layout};
ghost use Rattle.guest_stack.specs.Stack.{address};
ghost use Rattle.guest_stack.specs.Laws.{IsAtSlot, IsPlaced};

use crate::machine::Machine;
use code_event::{Layout, SLOT_SIZE, Site, Slot};
use code_space::SPACE_END;
use guest_program::Op;
use guest_stack::CodeFrame;
use plain_machine::Ended;
use prof_base::FuncId;

impl Machine {
    /// Returns the layout of the code that a frame is in.
    pub(crate) fn layout(&self, frame: CodeFrame) -> &Layout
        requires placed { IsPlaced (program_of self.now) (start_at self.now.code.starts) frame }
        ensures layout { result.now ≡ layout_of (program_of self.now) frame.code }
    {
        match self.code.layout(frame.code) {
            Some(layout) => layout,
            None => unreachable!(),
        }
    }

    /// Returns the slot of a frame.
    pub(crate) fn slot(&self, frame: CodeFrame) -> Slot
        requires placed { IsPlaced (program_of self.now) (start_at self.now.code.starts) frame }
        ensures slot { IsAtSlot (program_of self.now) frame result }
    {
        self.layout(frame).slots()[usize::from(frame.slot)]
    }

    /// Returns where a unit of the code of a frame was inlined, if it was.
    pub(crate) fn site(&self, frame: CodeFrame, unit: u16) -> Option<Site>
        requires placed { IsPlaced (program_of self.now) (start_at self.now.code.starts) frame }
        requires unit { unit < length (layout_of (program_of self.now) frame.code).units }
        ensures site { result ≡ site_of (layout_of (program_of self.now) frame.code).units unit }
    {
        self.layout(frame).units()[usize::from(unit)].parent
    }

    /// Returns the place of the slot of a unit and an index in the code of a frame, if there is one.
    pub(crate) fn place(&self, frame: CodeFrame, unit: u16, index: u16) -> Option<u16>
        requires placed { IsPlaced (program_of self.now) (start_at self.now.code.starts) frame }
        ensures place { result ≡ slot_of (layout_of (program_of self.now) frame.code) unit index }
    {
        self.code.place_of(frame.code, unit, index)
    }

    // Returns the function of a slot of the youngest frame's code.
    fn func(&self, slot: Slot) -> FuncId
        requires whole { IsMachine self.now }
        requires at { IsAtSlot (program_of self.now) self.now.stack.frame slot }
        ensures func { result.0 ≡ func_at (youngest_layout self.now).units slot.unit }
        ensures within { result.0 < length (program_of self.now) }
    {
        self.layout(self.stack.frame()).units()[usize::from(slot.unit)].func
    }

    /// Returns the operation of the youngest frame's instruction.
    pub(crate) fn op(&self) -> &Op
        requires whole { IsMachine self.now }
        ensures next { result.now ≡ next_op self.now }
    {
        let slot = self.slot(self.stack.frame());
        let func = self.func(slot);
        &self.code.program().funcs()[usize::from(func.0)]
            .body
            .as_slice()[usize::from(slot.index)]
            .op
    }

    /// Moves the youngest frame to its next instruction, and returns whether its body has one. Where
    /// it has none, the program has ended.
    pub(crate) fn rise(&mut self) -> bool
        requires whole { IsMachine self.old }
        ensures whole { IsMachine self.new }
        ensures rises { Rises result self.old self.new }
        ensures moves { HasMoved result self.old self.new }
        ensures same { self.new ≡ record self.old { stack = self.new.stack; ended = self.new.ended } }
        ensures going { IsTrue result → self.new.ended ≡ self.old.ended }
    {
        let frame = self.stack.frame();
        let slot = self.slot(frame);
        match self.place(frame, slot.unit, slot.index + 1) {
            Some(place) => {
                self.stack.go_to(place);
                true
            }
            None => {
                self.ended = Some(Ended::OffEnd);
                false
            }
        }
    }

    /// Returns the address of a frame's slot.
    pub(crate) fn address(&self, frame: CodeFrame) -> u32
        requires placed { IsPlaced (program_of self.now) (start_at self.now.code.starts) frame }
        ensures address { result ≡ address (start_at self.now.code.starts) frame }
        ensures within { result + SLOT_SIZE ≤ SPACE_END }
    {
        match self.code.start_of(frame.code) {
            Some(start) => start + SLOT_SIZE * u32::from(frame.slot),
            None => unreachable!(),
        }
    }
}
