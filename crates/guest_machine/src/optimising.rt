// What the instructions do that optimise functions, bar them from being optimised, and give optimised
// code up.
ghost use Rattle.std.specs.Prelude.{◌≡◌, ◌<◌, ◌∷◌, ◌||◌, false, true, length, codes, nat_lt, slice_set, List, None, IfOk, OnOk};
ghost use Rattle.guest_program.specs.InlinedSize.{inlined_size};
ghost use Rattle.guest_program.specs.declared.instr.Op.TheVariants as op;
ghost use Rattle.plain_machine.specs.PlainMachine.{Frame, State};
ghost use Rattle.code_objects.specs.Changes.{HasCode};
ghost use Rattle.code_objects.specs.CodeObjects.{optimised_name, plain_name};
ghost use Rattle.guest_machine.specs.Machine.{OpActs, IsInState, IsMachine, flag_at, op_deopts, program_of};
ghost use Rattle.guest_machine.specs.Raises.{Creates, Disabled, GivenUp, Raises, reason_of};
ghost use Rattle.guest_machine.specs.Rules.{IsNotOptimised, has_code};

use crate::machine::Machine;
use crate::raising::{
    create_optimised, ensure_frame, ensure_frames, ensure_plain, free_code, optimised_name,
    say_given_up, say_not_optimised,
};
use code_event::{CodeEvent, Layout};
use prof_base::{FuncId, Memory, Sequence, Text, TextRefused};
use std::alloc::Global;

// Returns the reason of a function whose optimised code would be too large.
fn too_large(alloc: Global) -> Result<Text, Memory>
    ensures { IfOk result (λ reason. reason ≡ codes "too large") }
{
    match Text::new(alloc, b"too large") {
        Ok(reason) => Ok(reason),
        Err(TextRefused::Memory) => Err(Memory),
        Err(_) => unreachable!(),
    }
}

impl Machine {
    // Returns whether optimising a function does nothing: it has optimised code, or is disabled.
    fn is_settled(&self, func: FuncId) -> bool
        requires known { func.0 < length (program_of self.now) }
        requires flags { length self.now.disabled ≡ length (program_of self.now) }
        ensures { result ≡ (has_code self.now.code (optimised_name func) || flag_at self.now.disabled func.0) }
    {
        self.code.start_of(optimised_name(func)).is_some() || self.disabled.get(func)
    }

    // Disables a function that has plain code, for this reason. Out of memory spends the machine.
    fn bar(
        &mut self,
        func: FuncId,
        reason: Text,
        events: &mut Sequence<CodeEvent>,
    ) -> Result<(), Memory>
        requires there { HasCode self.old.code (plain_name func) }
        requires known { func.0 < length self.old.disabled }
        ensures raises { OnOk result (Raises (IsNotOptimised func reason) (reason_of (program_of self.old) func reason) self.old.code self.new.code events.old events.new) }
        ensures flag { OnOk result (self.new ≡ record self.old { disabled = slice_set self.old.disabled func.0 true }) }
    {
        say_not_optimised(&self.code, func, reason, events)?;
        self.disabled.set(func);
        Ok(())
    }

    // Disables a function, for this reason. Out of memory spends the machine.
    fn disable(
        &mut self,
        func: FuncId,
        reason: Text,
        events: &mut Sequence<CodeEvent>,
    ) -> Result<(), Memory>
        requires known { func.0 < length (program_of self.old) }
        requires flags { length self.old.disabled ≡ length (program_of self.old) }
        ensures { OnOk result (Disabled func reason self.old self.new events.old events.new) }
    {
        ensure_plain(&mut self.code, func, events)?;
        self.bar(func, reason, events)
    }

    // Creates the optimised code of a function that has none. Where it would be too large, the function
    // is disabled. Out of memory spends the machine.
    fn create(&mut self, func: FuncId, events: &mut Sequence<CodeEvent>) -> Result<(), Memory>
        requires known { func.0 < length (program_of self.old) }
        requires flags { length self.old.disabled ≡ length (program_of self.old) }
        requires none { has_code self.old.code (optimised_name func) ≡ false }
        ensures { OnOk result (Creates (nat_lt Layout.MAX_SLOTS (inlined_size (program_of self.old) Layout.MAX_ABOVE func.0)) func self.old self.new events.old events.new) }
    {
        ensure_plain(&mut self.code, func, events)?;
        if create_optimised(&mut self.code, func, events)? {
            return Ok(());
        }
        let reason = too_large(self.alloc)?;
        self.bar(func, reason, events)
    }

    // Gives up the optimised code of a function, for this reason: its frames become frames of plain
    // code, which is made sure of, and only then is it freed. Out of memory spends the machine.
    fn give_up(
        &mut self,
        func: FuncId,
        reason: Text,
        events: &mut Sequence<CodeEvent>,
    ) -> Result<(), Memory>
        requires whole { IsMachine self.old }
        requires there { HasCode self.old.code (optimised_name func) }
        ensures { OnOk result (GivenUp func reason self.old self.new events.old events.new) }
    {
        say_given_up(&self.code, func, reason, events)?;
        self.stack.give_up(self.alloc, &self.code, func)?;
        ensure_frames(&mut self.code, self.stack.callers(), events)?;
        ensure_frame(&mut self.code, self.stack.frame(), events)?;
        free_code(&mut self.code, optimised_name(func), events)
    }

    /// Goes on, and optimises a function that is neither optimised nor disabled. Out of memory spends
    /// the machine.
    pub(crate) fn optimise(&mut self, func: FuncId) -> Result<Sequence<CodeEvent>, Memory>
        requires whole { IsMachine self.old }
        requires going { self.old.ended ≡ None }
        requires known { func.0 < length (program_of self.old) }
        ensures acts { IfOk result (λ events. OpActs self.old self.new events (op.Opt func)) }
    {
        let mut events = Sequence::new(self.alloc);
        if self.rise() && !self.is_settled(func) {
            self.create(func, &mut events)?;
        }
        Ok(events)
    }

    /// Goes on, and disables a function for this reason. Out of memory spends the machine.
    pub(crate) fn refuse_to_optimise(
        &mut self,
        func: FuncId,
        reason: Text,
    ) -> Result<Sequence<CodeEvent>, Memory>
        requires whole { IsMachine self.old }
        requires going { self.old.ended ≡ None }
        requires known { func.0 < length (program_of self.old) }
        ensures acts { IfOk result (λ events. OpActs self.old self.new events (op.NoOpt func reason)) }
    {
        let mut events = Sequence::new(self.alloc);
        if self.rise() {
            self.disable(func, reason, &mut events)?;
        }
        Ok(events)
    }

    /// Goes on, and gives up the optimised code of a function, if it has some. Returns the events, and
    /// whether there was such code. Out of memory spends the machine.
    pub(crate) fn deoptimise(
        &mut self,
        func: FuncId,
        reason: Text,
    ) -> Result<(Sequence<CodeEvent>, bool), Memory>
        requires whole { IsMachine self.old }
        requires going { self.old.ended ≡ None }
        requires known { func.0 < length (program_of self.old) }
        ensures acts { IfOk result (λ done. OpActs self.old self.new done.0 (op.Deopt func reason)) }
        ensures tick { IfOk result (λ done. (state : State) (frame : Frame) (callers : List Frame) → IsInState self.old state → state.stack ≡ frame ∷ callers
            → done.1 ≡ op_deopts (program_of self.old) state frame callers (op.Deopt func reason)) }
    {
        let mut events = Sequence::new(self.alloc);
        if !self.rise() || self.code.start_of(optimised_name(func)).is_none() {
            return Ok((events, false));
        }
        self.give_up(func, reason, &mut events)?;
        Ok((events, true))
    }
}
