// Steps.
ghost use Rattle.std.specs.Prelude.{◌≡◌, ◌≢◌, [], false, None, IfOk};
ghost use Rattle.code_event.specs.declared.tick.VmState.TheVariants.{Js};
ghost use Rattle.guest_machine.specs.Machine.{DoesOp, IsMachine, Steps, Waits, next_op};

use crate::machine::{Machine, StepDone};
use code_event::{CodeEvent, VmState};
use guest_program::Op;
use prof_base::{Memory, Sequence};

impl Machine {
    // Returns what a step did that raised these events, and made no deoptimisation.
    fn done(&self, events: Sequence<CodeEvent>, printed: Option<u64>) -> StepDone
        ensures events { result.events ≡ events }
        ensures tick { result.vm_tick ≡ false }
        ensures printed { result.printed ≡ printed }
        ensures state { result.state ≡ self.now.state }
    {
        StepDone {
            events,
            vm_tick: false,
            printed,
            state: self.state,
        }
    }

    // Returns what a step did that raised no event, and printed nothing.
    fn quiet(&self) -> StepDone
        ensures events { result.events ≡ [] }
        ensures tick { result.vm_tick ≡ false }
        ensures printed { result.printed ≡ None }
        ensures state { result.state ≡ self.now.state }
    {
        self.done(Sequence::new(self.alloc), None)
    }

    // Waits for a step, while the engine does not run guest code.
    fn wait(&mut self) -> StepDone
        requires whole { IsMachine self.old }
        requires waiting { self.old.state ≢ Js }
        requires going { self.old.ended ≡ None }
        ensures waits { Waits self.old self.new result }
    {
        if self.rest <= 1 {
            self.state = VmState::Js;
            self.rest = 0;
        } else {
            self.rest -= 1;
        }
        self.quiet()
    }

    // Does the youngest frame's instruction.
    fn act(&mut self) -> Result<StepDone, Memory>
        requires whole { IsMachine self.old }
        requires going { self.old.ended ≡ None }
        ensures does { IfOk result (λ done. DoesOp self.old self.new done (next_op self.old)) }
    {
        match self.op() {
            Op::Set(to, number) => {
                let (to, number) = (*to, *number);
                self.set(to, number);
                Ok(self.quiet())
            }
            Op::Add(to, from) => {
                let (to, from) = (*to, *from);
                self.add(to, from);
                Ok(self.quiet())
            }
            Op::Sub(to, from) => {
                let (to, from) = (*to, *from);
                self.subtract(to, from);
                Ok(self.quiet())
            }
            Op::Mul(to, from) => {
                let (to, from) = (*to, *from);
                self.multiply(to, from);
                Ok(self.quiet())
            }
            Op::Lt(to, from) => {
                let (to, from) = (*to, *from);
                self.compare(to, from);
                Ok(self.quiet())
            }
            Op::Jump(index) => {
                let index = *index;
                self.jump(index);
                Ok(self.quiet())
            }
            Op::Jz(tested, index) => {
                let (tested, index) = (*tested, *index);
                self.jump_if_zero(tested, index);
                Ok(self.quiet())
            }
            Op::Call(func) => {
                let func = *func;
                let events = self.call(func)?;
                Ok(self.done(events, None))
            }
            Op::Ret => {
                self.ret();
                Ok(self.quiet())
            }
            Op::Print(from) => {
                let from = *from;
                let printed = self.print(from);
                Ok(self.done(Sequence::new(self.alloc), printed))
            }
            Op::Halt => {
                self.halt();
                Ok(self.quiet())
            }
            Op::Drop(func) => {
                let func = *func;
                let events = self.drop_code(func)?;
                Ok(self.done(events, None))
            }
            Op::Gc => {
                let events = self.collect()?;
                Ok(self.done(events, None))
            }
            Op::Idle(steps) => {
                let steps = *steps;
                self.wait_in(VmState::Idle, steps);
                Ok(self.quiet())
            }
            Op::Native(steps) => {
                let steps = *steps;
                self.wait_in(VmState::Native, steps);
                Ok(self.quiet())
            }
            Op::Collect(steps) => {
                let steps = *steps;
                self.wait_in(VmState::Gc, steps);
                Ok(self.quiet())
            }
            Op::Opt(func) => {
                let func = *func;
                let events = self.optimise(func)?;
                Ok(self.done(events, None))
            }
            Op::NoOpt(func, reason) => {
                let (func, reason) = (*func, reason.copy()?);
                let events = self.refuse_to_optimise(func, reason)?;
                Ok(self.done(events, None))
            }
            Op::Deopt(func, reason) => {
                let (func, reason) = (*func, reason.copy()?);
                let (events, vm_tick) = self.deoptimise(func, reason)?;
                Ok(StepDone {
                    events,
                    vm_tick,
                    printed: None,
                    state: self.state,
                })
            }
        }
    }

    /// Does a step, except for its count.
    pub(crate) fn advance(&mut self) -> Result<StepDone, Memory>
        requires whole { IsMachine self.old }
        requires going { self.old.ended ≡ None }
        ensures steps { IfOk result (λ done. Steps self.old self.new done) }
    {
        match self.state {
            VmState::Js => self.act(),
            VmState::Idle => Ok(self.wait()),
            VmState::Native => Ok(self.wait()),
            VmState::Gc => Ok(self.wait()),
        }
    }
}
