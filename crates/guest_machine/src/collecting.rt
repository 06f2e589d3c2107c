// What the instructions do that free and move code.
ghost use Rattle.std.specs.Prelude.{◌≡◌, ◌<◌, ◌∷◌, false, None, IfOk, IsFalse};
ghost use Rattle.std.specs.List.{AllByRecursion, list_any};
ghost use Rattle.code_objects.specs.Changes.{same_name};
ghost use Rattle.guest_machine.specs.Machine.{ActKeepsRules, Acts, IsMachine, program_of};
ghost use Rattle.guest_machine.specs.Rules.{is_any_in};
ghost use Rattle.guest_program.specs.declared.instr.Op.TheVariants as op;
ghost use Rattle.plain_machine.specs.PlainMachine.{rises};

use crate::machine::Machine;
use code_event::CodeEvent;
use code_objects::{CodeKind, CodeName};
use guest_stack::CodeFrame;
use prof_base::{FuncId, Memory, Sequence};

// Returns whether a frame is in this code.
fn is_in(frame: &CodeFrame, code: CodeName) -> bool
    ensures { result ≡ same_name code frame.now.code }
{
    code == frame.code
}

// Returns whether one of these frames is in this code.
fn any_is_in(frames: &[CodeFrame], code: CodeName) -> bool
    ensures { result ≡ list_any (λ frame. same_name code frame.code) frames.now }
{
    frames.iter().any(|frame| is_in(frame, code))
}

impl Machine {
    // Returns whether a frame is in this code.
    fn is_in_use(&self, code: CodeName) -> bool
        ensures in_use { result ≡ is_any_in (self.now.stack.frame ∷ self.now.stack.callers) code }
        ensures unused { IsFalse result → AllByRecursion (λ frame. same_name code frame.code ≡ false) (self.now.stack.frame ∷ self.now.stack.callers) }
    {
        let frame = self.stack.frame();
        is_in(&frame, code) || any_is_in(self.stack.callers(), code)
    }

    /// Goes on, and frees the plain code of a function, unless it has none or a frame is in it.
    pub(crate) fn drop_code(&mut self, func: FuncId) -> Result<Sequence<CodeEvent>, Memory>
        requires whole { IsMachine self.old }
        requires going { self.old.ended ≡ None }
        ensures acts { IfOk result (λ events. Acts self.old self.new events (λ state frame callers. rises (program_of self.old) state state frame callers)) }
        ensures rules { IfOk result (λ events. ActKeepsRules self.old self.new events (op.Drop func)) }
    {
        let mut events = Sequence::new(self.alloc);
        if !self.rise() {
            return Ok(events);
        }
        let plain = CodeName {
            func,
            kind: CodeKind::Plain,
        };
        if self.code.start_of(plain).is_none() || self.is_in_use(plain) {
            return Ok(events);
        }
        events.push(self.code.free(plain))?;
        Ok(events)
    }

    /// Goes on, and compacts the code. Each code object that moves has its event.
    pub(crate) fn collect(&mut self) -> Result<Sequence<CodeEvent>, Memory>
        requires whole { IsMachine self.old }
        requires going { self.old.ended ≡ None }
        ensures acts { IfOk result (λ events. Acts self.old self.new events (λ state frame callers. rises (program_of self.old) state state frame callers)) }
        ensures rules { IfOk result (λ events. ActKeepsRules self.old self.new events op.Gc) }
    {
        if !self.rise() {
            return Ok(Sequence::new(self.alloc));
        }
        let moves = self.code.compact()?;
        Ok(moves)
    }
}
