// What a return does.
ghost use Rattle.std.specs.Prelude.{◌≡◌, [], None, slice_index};
ghost use Rattle.guest_machine.specs.Machine.{ActKeepsRules, Advances, IsMachine, IsNotInlined, program_of};
ghost use Rattle.plain_machine.specs.PlainMachine.{returns};
ghost use Rattle.guest_program.specs.declared.instr.Op.TheVariants as op;

use crate::machine::Machine;
use guest_program::Reg;
use plain_machine::Ended;

impl Machine {
    // Returns from the youngest frame to its caller, which gets this number in r0 and goes on. Where it
    // has no caller, the program has ended.
    fn return_to_caller(&mut self, number: u64)
        requires whole { IsMachine self.old }
        requires going { self.old.ended ≡ None }
        requires number { number ≡ slice_index self.old.stack.registers 0 }
        requires outermost { IsNotInlined self.old }
        ensures whole { IsMachine self.new }
        ensures code { self.new.code ≡ self.old.code }
        ensures does { Advances self.old self.new (λ state frame callers. returns (program_of self.old) state frame callers) }
        ensures rules { ActKeepsRules self.old self.new [] op.Ret }
    {
        let Some(caller) = self.stack.caller() else {
            self.ended = Some(Ended::Halt);
            return;
        };
        let slot = self.slot(caller);
        match self.place(caller, slot.unit, slot.index + 1) {
            Some(place) => self.stack.return_to_caller(place, number),
            None => self.ended = Some(Ended::OffEnd),
        }
    }

    /// Returns from the youngest function: the one above it, or else the next frame's, gets r0 and goes
    /// on. Where there is none, the program has ended.
    pub(crate) fn ret(&mut self)
        requires whole { IsMachine self.old }
        requires going { self.old.ended ≡ None }
        ensures whole { IsMachine self.new }
        ensures code { self.new.code ≡ self.old.code }
        ensures does { Advances self.old self.new (λ state frame callers. returns (program_of self.old) state frame callers) }
        ensures rules { ActKeepsRules self.old self.new [] op.Ret }
    {
        let number = self.stack.register(Reg::new(0));
        let frame = self.stack.frame();
        let slot = self.slot(frame);
        match self.site(frame, slot.unit) {
            Some(site) => match self.place(frame, site.unit, site.index + 1) {
                Some(place) => self.stack.return_within(place, number),
                None => self.ended = Some(Ended::OffEnd),
            },
            None => self.return_to_caller(number),
        }
    }
}
