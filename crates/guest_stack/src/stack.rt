// The physical stack: frames in code, and the registers of the functions that they stand for.
ghost use Rattle.std.specs.Prelude.{◌≡◌, ◌≤◌, ◌∷◌, reverse, slice_index, slice_set, length, OnOk, OnErr};
ghost use Rattle.std.specs.List.{slice_get};
ghost use Rattle.guest_stack.specs.Stack.{begun, gone_on, called_within, called_code, returned_within, returned_to_caller};

use code_objects::CodeName;
use guest_program::Reg;
use prof_base::Memory;
use std::alloc::Global;
use std::marker::Model;

/// A frame in code: the code, and the place of its slot.
#[derive(Clone, Copy, Debug, PartialEq, Eq)]
pub struct CodeFrame {
    pub code: CodeName,
    pub slot: u16,
}

/// The physical stack. A frame in optimised code can stand for several functions. Each function on
/// the stack has its own registers.
#[derive(Drop)]
pub struct Stack {
    frame: CodeFrame,
    // The oldest comes first, in both lists.
    callers: Vec<CodeFrame>,
    registers: [u64; 8],
    saved: Vec<[u64; 8]>,
}

impl Model for Stack {
    ghost use Rattle.std.specs.Prelude.{reverse};
    ghost use Rattle.guest_stack.specs.Stack.{Physical};

    ghost Value = { Physical };

    ghost view = { λ s. record { frame = s.frame; callers = reverse s.callers.items; registers = s.registers; saved = reverse s.saved.items } };
}

impl Stack {
    /// Makes the stack of a program that begins at the first slot of this code. It allocates
    /// nothing.
    pub fn new(alloc: Global, code: CodeName) -> Stack
        ensures { result ≡ begun code }
    {
        Stack {
            frame: CodeFrame { code, slot: 0 },
            callers: Vec::new(alloc),
            registers: [0; 8],
            saved: Vec::new(alloc),
        }
    }

    /// Returns the youngest frame.
    pub fn frame(&self) -> CodeFrame
        ensures { result ≡ self.now.frame }
    {
        self.frame
    }

    /// Returns the other frames, the oldest first.
    pub fn callers(&self) -> &[CodeFrame]
        ensures { reverse result.now ≡ self.now.callers }
    {
        &self.callers
    }

    /// Returns the caller of the youngest frame, if it has one.
    pub fn caller(&self) -> Option<CodeFrame>
        ensures { result ≡ slice_get self.now.callers 0 }
    {
        self.callers.last().copied()
    }

    /// Returns the number of functions on the stack besides the youngest.
    pub fn depth(&self) -> usize
        ensures { result ≡ length self.now.saved }
    {
        self.saved.len()
    }

    /// Returns a register of the youngest function.
    pub fn register(&self, register: Reg) -> u64
        ensures { result ≡ slice_index self.now.registers register }
    {
        self.registers[usize::from(register.number())]
    }

    /// Puts a number into a register of the youngest function.
    pub fn set(&mut self, register: Reg, number: u64)
        ensures { self.new ≡ record self.old { registers = slice_set self.old.registers register number } }
    {
        self.registers[usize::from(register.number())] = number;
    }

    /// Replaces the frames by these, the oldest first, of which there is at least one. Each function
    /// keeps its registers.
    pub(crate) fn replace_frames(&mut self, frames: Vec<CodeFrame>)
        requires { 1 ≤ length frames.items }
        ensures frames { self.new.frame ∷ self.new.callers ≡ reverse frames.items }
        ensures registers { self.new.registers ≡ self.old.registers }
        ensures saved { self.new.saved ≡ self.old.saved }
    {
        let mut callers = frames;
        if let Some(frame) = callers.pop() {
            self.frame = frame;
            self.callers = callers;
        }
    }

    /// Puts the youngest frame at another slot of its code.
    pub fn go_to(&mut self, slot: u16)
        ensures { self.new ≡ gone_on slot self.old.registers self.old }
    {
        self.frame.slot = slot;
    }

    /// Calls an inlined function, whose first slot this is. Out of memory leaves the stack
    /// unchanged.
    pub fn call_within(&mut self, slot: u16) -> Result<(), Memory>
        ensures called { OnOk result (self.new ≡ called_within slot self.old) }
        ensures unchanged { OnErr result (self.new ≡ self.old) }
    {
        self.saved.push(self.registers)?;
        self.frame.slot = slot;
        Ok(())
    }

    /// Calls a function in a frame of its own. Out of memory leaves the stack unchanged.
    pub fn call_code(&mut self, frame: CodeFrame) -> Result<(), Memory>
        ensures called { OnOk result (self.new ≡ called_code frame self.old) }
        ensures unchanged { OnErr result (self.new ≡ self.old) }
    {
        self.callers.reserve(1)?;
        self.saved.push(self.registers)?;
        self.callers.push(self.frame).unwrap();
        self.frame = frame;
        Ok(())
    }

    /// Returns from an inlined function, with this number in `r0`: the function above it is at this
    /// slot.
    pub fn return_within(&mut self, slot: u16, number: u64)
        ensures { self.new ≡ returned_within slot number self.old }
    {
        self.frame.slot = slot;
        if let Some(registers) = self.saved.pop() {
            self.registers = registers;
        }
        self.registers[0] = number;
    }

    /// Returns from a frame, with this number in `r0`: its caller is at this slot.
    pub fn return_to_caller(&mut self, slot: u16, number: u64)
        ensures { self.new ≡ returned_to_caller slot number self.old }
    {
        if let Some(caller) = self.callers.pop() {
            self.frame = caller;
        }
        self.frame.slot = slot;
        if let Some(kept) = self.saved.pop() {
            self.registers = kept;
        }
        self.registers[0] = number;
    }
}
