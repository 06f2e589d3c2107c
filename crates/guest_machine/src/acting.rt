// What the youngest frame's instruction does.
ghost use Rattle.std.specs.Prelude.{◌≡◌, ◌%◌, ◌^◌, ◌+◌, ◌-◌, ◌*◌, ◌∷◌, ◌++◌, ℕ, List, nat_lt, if◌then◌else◌};
ghost use Rattle.guest_machine.specs.Machine.{Advances, IsInState, IsInYoungestBody, IsMachine, StaysInUnit, printed_text, program_of};
ghost use Rattle.plain_machine.specs.PlainMachine.{Frame, State, does, ends, jumps, register, sets, waits};
ghost use Rattle.plain_machine.specs.declared.ended.Ended.TheVariants as end;
ghost use Rattle.guest_program.specs.declared.instr.Op.TheVariants as op;

use crate::machine::Machine;
use code_event::VmState;
use guest_program::Reg;
use plain_machine::Ended;

impl Machine {
    /// Puts a number into a register, and goes on.
    pub(crate) fn set(&mut self, to: Reg, number: u64)
        requires whole { IsMachine self.old }
        ensures whole { IsMachine self.new }
        ensures code { self.new.code ≡ self.old.code }
        ensures stays { StaysInUnit self.old self.new }
        ensures does { (n : Frame → ℕ) → ((frame : Frame) → frame.registers ≡ self.old.stack.registers → number ≡ n frame % 2 ^ 64)
            → Advances self.old self.new (λ state frame callers. sets (program_of self.old) state frame callers to (n frame)) }
    {
        if self.rise() {
            self.stack.set(to, number);
        }
    }

    /// Adds a register to another, and goes on.
    pub(crate) fn add(&mut self, to: Reg, from: Reg)
        requires whole { IsMachine self.old }
        ensures whole { IsMachine self.new }
        ensures code { self.new.code ≡ self.old.code }
        ensures stays { StaysInUnit self.old self.new }
        ensures does { Advances self.old self.new (λ state frame callers. sets (program_of self.old) state frame callers to (register frame to + register frame from)) }
    {
        let sum = self
            .stack
            .register(to)
            .wrapping_add(self.stack.register(from));
        self.set(to, sum);
    }

    /// Subtracts a register from another, and goes on.
    pub(crate) fn subtract(&mut self, to: Reg, from: Reg)
        requires whole { IsMachine self.old }
        ensures whole { IsMachine self.new }
        ensures code { self.new.code ≡ self.old.code }
        ensures stays { StaysInUnit self.old self.new }
        ensures does { Advances self.old self.new (λ state frame callers. sets (program_of self.old) state frame callers to (register frame to + 2 ^ 64 - register frame from)) }
    {
        let difference = self
            .stack
            .register(to)
            .wrapping_sub(self.stack.register(from));
        self.set(to, difference);
    }

    /// Multiplies a register by another, and goes on.
    pub(crate) fn multiply(&mut self, to: Reg, from: Reg)
        requires whole { IsMachine self.old }
        ensures whole { IsMachine self.new }
        ensures code { self.new.code ≡ self.old.code }
        ensures stays { StaysInUnit self.old self.new }
        ensures does { Advances self.old self.new (λ state frame callers. sets (program_of self.old) state frame callers to (register frame to * register frame from)) }
    {
        let product = self
            .stack
            .register(to)
            .wrapping_mul(self.stack.register(from));
        self.set(to, product);
    }

    /// Puts 1 into a register where it is less than another, else 0, and goes on.
    pub(crate) fn compare(&mut self, to: Reg, from: Reg)
        requires whole { IsMachine self.old }
        ensures whole { IsMachine self.new }
        ensures code { self.new.code ≡ self.old.code }
        ensures stays { StaysInUnit self.old self.new }
        ensures does { Advances self.old self.new (λ state frame callers. sets (program_of self.old) state frame callers to (if nat_lt (register frame to) (register frame from) then 1 else 0)) }
    {
        if self.stack.register(to) < self.stack.register(from) {
            self.set(to, 1);
        } else {
            self.set(to, 0);
        }
    }

    /// Goes on at another instruction of the body.
    pub(crate) fn jump(&mut self, index: u16)
        requires whole { IsMachine self.old }
        requires within { IsInYoungestBody self.old index }
        ensures whole { IsMachine self.new }
        ensures code { self.new.code ≡ self.old.code }
        ensures stays { StaysInUnit self.old self.new }
        ensures does { Advances self.old self.new (λ state frame callers. jumps state frame callers index) }
    {
        let frame = self.stack.frame();
        let slot = self.slot(frame);
        match self.place(frame, slot.unit, index) {
            Some(place) => self.stack.go_to(place),
            None => unreachable!(),
        }
    }

    /// Goes on at another instruction where a register is 0, and else at the next.
    pub(crate) fn jump_if_zero(&mut self, tested: Reg, index: u16)
        requires whole { IsMachine self.old }
        requires within { IsInYoungestBody self.old index }
        ensures whole { IsMachine self.new }
        ensures code { self.new.code ≡ self.old.code }
        ensures stays { StaysInUnit self.old self.new }
        ensures does { Advances self.old self.new (λ state frame callers. does (program_of self.old) state frame callers (op.Jz tested index)) }
    {
        if self.stack.register(tested) == 0 {
            self.jump(index);
        } else {
            self.rise();
        }
    }

    /// Prints a register, and goes on. Where the body ends, nothing is printed.
    pub(crate) fn print(&mut self, from: Reg) -> Option<u64>
        requires whole { IsMachine self.old }
        ensures whole { IsMachine self.new }
        ensures code { self.new.code ≡ self.old.code }
        ensures stays { StaysInUnit self.old self.new }
        ensures does { Advances self.old self.new (λ state frame callers. does (program_of self.old) state frame callers (op.Print from)) }
        ensures printed { (state : State) (frame : Frame) (callers : List Frame) → IsInState self.old state → state.stack ≡ frame ∷ callers
            → (does (program_of self.old) state frame callers (op.Print from)).printed ≡ state.printed ++ printed_text result }
    {
        let number = self.stack.register(from);
        if self.rise() { Some(number) } else { None }
    }

    /// Goes on, and puts the engine into another state for this number of steps.
    pub(crate) fn wait_in(&mut self, state: VmState, steps: u32)
        requires whole { IsMachine self.old }
        ensures whole { IsMachine self.new }
        ensures code { self.new.code ≡ self.old.code }
        ensures stays { StaysInUnit self.old self.new }
        ensures does { Advances self.old self.new (λ before frame callers. waits (program_of self.old) before frame callers state steps) }
    {
        if self.rise() {
            self.state = state;
            self.rest = steps;
        }
    }

    /// Ends the program.
    pub(crate) fn halt(&mut self)
        requires whole { IsMachine self.old }
        ensures whole { IsMachine self.new }
        ensures code { self.new.code ≡ self.old.code }
        ensures stays { StaysInUnit self.old self.new }
        ensures does { Advances self.old self.new (λ state frame callers. ends end.Halt state) }
    {
        self.ended = Some(Ended::Halt);
    }
}
