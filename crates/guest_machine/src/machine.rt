// The machine, and what can be observed of it.
ghost use Rattle.std.specs.Prelude.{◌≡◌, ◌++◌, ◌∷◌, ◌^◌, ◌-◌, ◌+◌, ◌≤◌, [], length, map, min, ℕ, suc, List, None, IfOk, OnOk};
ghost use Rattle.code_event.specs.CodeMap.{ranges};
ghost use Rattle.code_event.specs.Symbolizer.{frames_over};
ghost use Rattle.code_event.specs.declared.event.CodeEvent.{CodeEvent};
ghost use Rattle.code_objects.specs.CodeObjects.{start_at};
ghost use Rattle.guest_machine.specs.Machine.{IsMachine, Reflects, printed_text, program_of};
ghost use Rattle.guest_machine.specs.Rules.{KeepsRules, Opens};
ghost use Rattle.plain_machine.specs.PlainFrames.{plain_frames};
ghost use Rattle.plain_machine.specs.PlainMachine.{plain, deopts};
ghost use Rattle.guest_stack.specs.Stack.{address, addresses};

use crate::flags::Flags;
use crate::raising::plain_name;
use code_event::{CodeEvent, Frames, SLOT_SIZE, VmState};
use code_objects::CodeObjects;
use guest_program::Program;
use guest_stack::Stack;
use plain_machine::Ended;
use prof_base::{Memory, Sequence};
use std::alloc::Global;

/// A guest program that runs: its code at addresses, and a physical stack in that code. Out of memory,
/// it is spent.
#[derive(Drop)]
pub struct Machine {
    pub(crate) alloc: Global,
    pub(crate) code: CodeObjects,
    // Which functions are not to be optimised.
    pub(crate) disabled: Flags,
    pub(crate) stack: Stack,
    pub(crate) state: VmState,
    // For how many more steps the engine is in that state, if it is not Js.
    pub(crate) rest: u32,
    pub(crate) ended: Option<Ended>,
    pub(crate) steps: u64,
}

/// What a step did.
#[derive(Debug, Drop)]
pub struct StepDone {
    /// The code events that it raised, in order.
    pub events: Sequence<CodeEvent>,
    /// Whether it made a deoptimisation.
    pub vm_tick: bool,
    /// The number that it printed, if it printed one.
    pub printed: Option<u64>,
    /// The state of the engine after it.
    pub state: VmState,
}

impl Machine {
    /// Makes the machine of a program before its first step, and returns the event by which the plain
    /// code of `main` was created.
    pub fn new(alloc: Global, program: Program) -> Result<(Machine, CodeEvent), Memory>
        ensures whole { IfOk result (λ made. IsMachine made.0) }
        ensures program { IfOk result (λ made. program_of made.0 ≡ program) }
        ensures reflects { IfOk result (λ made. Reflects made.0 0 (made.1 ∷ [])) }
        ensures opens { IfOk result (λ made. Opens made.0 made.1) }
    {
        let disabled = Flags::new(alloc, program.funcs().len())?;
        let main = program.main();
        let mut code = CodeObjects::new(alloc, program)?;
        match code.ensure_plain(main)? {
            Some(event) => {
                let name = plain_name(main);
                let machine = Machine {
                    alloc,
                    code,
                    disabled,
                    stack: Stack::new(alloc, name),
                    state: VmState::Js,
                    rest: 0,
                    ended: None,
                    steps: 0,
                };
                Ok((machine, event))
            }
            None => unreachable!(),
        }
    }

    /// Does one step of the program. Out of memory, the machine is spent.
    pub fn step(&mut self) -> Result<StepDone, Memory>
        requires whole { IsMachine self.old }
        requires going { self.old.ended ≡ None }
        ensures whole { OnOk result (IsMachine self.new) }
        ensures program { OnOk result (program_of self.new ≡ program_of self.old) }

        // The machine is one step of the plain machine further, and its code is as its events say.
        ensures reflects { IfOk result (λ done. (steps : ℕ) (events : List CodeEvent) → Reflects self.old steps events
            → Reflects self.new (suc steps) (events ++ done.events)) }
        // The code, the frames and the events of the step keep the rules.
        ensures rules { IfOk result (λ done. (steps : ℕ) (events : List CodeEvent) → Reflects self.old steps events
            → KeepsRules (plain (program_of self.old) steps) self.old self.new done.events) }
        ensures tick { IfOk result (λ done. (steps : ℕ) (events : List CodeEvent) → Reflects self.old steps events
            → done.vm_tick ≡ deopts (program_of self.old) steps) }
        ensures printed { IfOk result (λ done. (steps : ℕ) (events : List CodeEvent) → Reflects self.old steps events
            → (plain (program_of self.old) (suc steps)).printed ≡ (plain (program_of self.old) steps).printed ++ printed_text done.printed) }
        ensures state { IfOk result (λ done. done.state ≡ self.new.state) }
    {
        let steps = self.steps;
        let done = self.advance()?;
        self.steps = steps.saturating_add(1);
        Ok(done)
    }

    // Adds the return addresses of the youngest frame's callers, youngest first.
    fn push_return_addresses(&self, frames: &mut Frames)
        requires whole { IsMachine self.now }
        requires room { length frames.old + length self.now.stack.callers ≤ Frames.MAX_LEN }
        ensures { frames.new ≡ frames.old ++ map (λ frame. address (start_at self.now.code.starts) frame + SLOT_SIZE) self.now.stack.callers }
    {
        for caller in self.stack.callers().iter().rev() {
            frames.push(self.address(*caller) + SLOT_SIZE);
        }
    }

    /// Replaces the list by the addresses of the stack, youngest first: that of the youngest frame's
    /// slot, and the return address of each other frame, which follows its call.
    pub fn frames(&self, frames: &mut Frames)
        requires whole { IsMachine self.now }
        ensures addresses { frames.new ≡ addresses (start_at self.now.code.starts) (self.now.stack.frame ∷ self.now.stack.callers) }

        // Read through the ranges of its events, they are the functions and lines of the plain machine.
        ensures plain { (steps : ℕ) (events : List CodeEvent) → Reflects self.now steps events
            → frames_over (ranges events) self.now.state frames.new ≡ plain_frames (program_of self.now) (plain (program_of self.now) steps) }
    {
        *frames = Frames::new();
        frames.push(self.address(self.stack.frame()));
        self.push_return_addresses(frames);
    }

    /// Returns the state of the engine.
    pub fn state(&self) -> VmState
        ensures state { result ≡ self.now.state }
        ensures plain { (steps : ℕ) (events : List CodeEvent) → Reflects self.now steps events → result ≡ (plain (program_of self.now) steps).state }
    {
        self.state
    }

    /// Returns how the program has ended, if it has.
    pub fn ended(&self) -> Option<Ended>
        ensures ended { result ≡ self.now.ended }
        ensures plain { (steps : ℕ) (events : List CodeEvent) → Reflects self.now steps events → result ≡ (plain (program_of self.now) steps).ended }
    {
        self.ended
    }

    /// Returns the number of steps so far, which stays at the greatest number of 64 bits.
    pub fn steps(&self) -> u64
        ensures plain { (steps : ℕ) (events : List CodeEvent) → Reflects self.now steps events → result ≡ min steps (2 ^ 64 - 1) }
    {
        self.steps
    }
}
