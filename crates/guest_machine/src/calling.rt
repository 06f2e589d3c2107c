// What a call does.
ghost use Rattle.std.specs.Prelude.{◌≡◌, ◌<◌, length, None, option_to_list, ℕ, IfOk, IfSome, IsSome, OnOk};
ghost use Rattle.guest_machine.specs.Machine.{ActKeepsRules, Acts, IsChild, IsMachine, next_op, program_of};
ghost use Rattle.plain_machine.specs.PlainMachine.{calls};
ghost use Rattle.guest_program.specs.declared.instr.Op.TheVariants as op;

use crate::machine::Machine;
use code_event::CodeEvent;
use code_objects::{CodeKind, CodeName};
use guest_stack::CodeFrame;
use plain_machine::Ended;
use prof_base::{FuncId, Memory, Sequence};
use std::alloc::Global;

/// The greatest number of functions on the stack besides the youngest.
pub(crate) const MAX_CALLERS: usize = 254;

// Returns the list of the event, if there is one.
fn events_of(alloc: Global, event: Option<CodeEvent>) -> Result<Sequence<CodeEvent>, Memory>
    ensures { IfOk result (λ events. events ≡ option_to_list event) }
{
    let mut events = Sequence::new(alloc);
    if let Some(event) = event {
        events.push(event)?;
    }
    Ok(events)
}

impl Machine {
    // Returns the unit that was inlined at the youngest frame's slot, if one was: its first slot is the
    // next one.
    fn child(&self) -> Option<u16>
        requires whole { IsMachine self.now }
        ensures child { IfSome result (λ unit. IsChild self.now unit) }
        ensures found { (unit : ℕ) → IsChild self.now unit → IsSome result }
    {
        let frame = self.stack.frame();
        let slot = self.slot(frame);
        let layout = self.layout(frame);
        let next = layout.slots().get(usize::from(frame.slot) + 1)?;
        let site = layout.units()[usize::from(next.unit)].parent?;
        if site.unit == slot.unit && site.index == slot.index {
            Some(next.unit)
        } else {
            None
        }
    }

    // Calls a function in a frame of its own: in its optimised code, or else in its plain code, which is
    // created where there is none. Returns the event of that. Out of memory spends the machine.
    fn call_code(&mut self, func: FuncId) -> Result<Sequence<CodeEvent>, Memory>
        requires whole { IsMachine self.old }
        requires going { self.old.ended ≡ None }
        requires outside { (unit : ℕ) → IsChild self.old unit → ⊥ }
        requires known { func.0 < length (program_of self.old) }
        requires room { length self.old.stack.saved < 254 }
        ensures acts { IfOk result (λ events. Acts self.old self.new events (λ state frame callers. calls state frame callers func.0)) }
        ensures rules { IfOk result (λ events. ActKeepsRules self.old self.new events (op.Call func)) }
    {
        let optimised = CodeName {
            func,
            kind: CodeKind::Optimised,
        };
        if self.code.start_of(optimised).is_some() {
            self.stack.call_code(CodeFrame {
                code: optimised,
                slot: 0,
            })?;
            return Ok(Sequence::new(self.alloc));
        }
        let created = self.code.ensure_plain(func)?;
        let plain = CodeName {
            func,
            kind: CodeKind::Plain,
        };
        self.stack.call_code(CodeFrame {
            code: plain,
            slot: 0,
        })?;
        events_of(self.alloc, created)
    }

    /// Calls a function: within the youngest frame where it is inlined there, and else in a frame of its
    /// own. A stack that is full ends the program. Returns the events of the code that it creates. Out
    /// of memory spends the machine.
    pub(crate) fn call(&mut self, func: FuncId) -> Result<Sequence<CodeEvent>, Memory>
        requires whole { IsMachine self.old }
        requires going { self.old.ended ≡ None }
        requires next { next_op self.old ≡ op.Call func }
        requires known { func.0 < length (program_of self.old) }
        ensures acts { IfOk result (λ events. Acts self.old self.new events (λ state frame callers. calls state frame callers func.0)) }
        ensures rules { IfOk result (λ events. ActKeepsRules self.old self.new events (op.Call func)) }
        ensures inlined { OnOk result ((unit : ℕ) → IsChild self.old unit → self.new.stack.callers ≡ self.old.stack.callers) }
    {
        if self.stack.depth() >= MAX_CALLERS {
            self.ended = Some(Ended::Overflow);
            return Ok(Sequence::new(self.alloc));
        }
        match self.child() {
            Some(unit) => match self.place(self.stack.frame(), unit, 0) {
                Some(place) => {
                    self.stack.call_within(place)?;
                    Ok(Sequence::new(self.alloc))
                }
                None => unreachable!(),
            },
            None => self.call_code(func),
        }
    }
}
