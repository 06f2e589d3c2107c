// The guest of an isolate.
ghost use Rattle.std.specs.Prelude.{◌≡◌, ◌++◌, suc, None, IfOk, OnOk};
ghost use Rattle.plain_machine.specs.PlainMachine.{deopts, plain};
ghost use Rattle.guest_machine.specs.Machine.{IsMachine, printed_text, program_of};
ghost use Rattle.isolate_acts.specs.Phases.{IsStep};
ghost use Rattle.isolate_acts.specs.Progress.{Moment};
ghost use Rattle.isolate_guest.specs.Guest.{IsAt, OpensAt, stack_of};

use code_event::{CodeEvent, Frames, VmState};
use guest_machine::{Machine, StepDone};
use guest_program::Program;
use plain_machine::Ended;
use prof_base::Memory;
use std::alloc::Global;

/// A guest program that runs, as an isolate sees it: its machine. Out of memory, it is spent.
#[derive(Drop)]
pub struct Guest {
    pub(crate) machine: Machine,
}

impl Guest {
    /// Makes the guest of a program before its first step, and returns the event by which the code that
    /// it begins in was created.
    pub fn new(alloc: Global, program: Program) -> Result<(Guest, CodeEvent), Memory>
        ensures whole { IfOk result (λ made. IsMachine made.0.machine) }
        ensures program { IfOk result (λ made. program_of made.0.machine ≡ program) }
        ensures going { IfOk result (λ made. made.0.machine.ended ≡ None) }
        ensures opens { IfOk result (λ made. (moment : Moment) × IsAt made.0.machine moment × OpensAt program made.1 moment) }
    {
        let (machine, event) = Machine::new(alloc, program)?;
        Ok((Guest { machine }, event))
    }

    /// Does one step of the program, and returns what it did.
    pub fn step(&mut self) -> Result<StepDone, Memory>
        requires whole { IsMachine self.old.machine }
        requires going { self.old.machine.ended ≡ None }
        ensures whole { OnOk result (IsMachine self.new.machine) }
        ensures program { OnOk result (program_of self.new.machine ≡ program_of self.old.machine) }

        // The guest is at a next moment, which follows by the events of the step.
        ensures steps { IfOk result (λ done. (moment : Moment) → IsAt self.old.machine moment
            → (after : Moment) × IsAt self.new.machine after × IsStep moment after done.events) }
        // It says whether the step made a deoptimisation.
        ensures tick { IfOk result (λ done. (moment : Moment) → IsAt self.old.machine moment → done.vm_tick ≡ deopts moment.funcs moment.steps) }
        // What the step prints is added to what the program has printed.
        ensures printed { IfOk result (λ done. (moment : Moment) → IsAt self.old.machine moment
            → (plain moment.funcs (suc moment.steps)).printed ≡ (plain moment.funcs moment.steps).printed ++ printed_text done.printed) }
        ensures state { IfOk result (λ done. done.state ≡ self.new.machine.state) }
    {
        self.machine.step()
    }

    /// Replaces the list by the addresses of the stack, youngest first.
    pub fn frames(&self, frames: &mut Frames)
        requires whole { IsMachine self.now.machine }
        ensures value { frames.new ≡ stack_of self.now.machine }
        ensures stack { (moment : Moment) → IsAt self.now.machine moment → frames.new ≡ moment.stack }
    {
        self.machine.frames(frames);
    }

    /// Returns the state of the engine.
    pub fn state(&self) -> VmState
        ensures value { result ≡ self.now.machine.state }
        ensures moment { (moment : Moment) → IsAt self.now.machine moment → result ≡ moment.state }
    {
        self.machine.state()
    }

    /// Returns how the program has ended, if it has.
    pub fn ended(&self) -> Option<Ended>
        ensures value { result ≡ self.now.machine.ended }
        ensures plain { (moment : Moment) → IsAt self.now.machine moment → result ≡ (plain moment.funcs moment.steps).ended }
    {
        self.machine.ended()
    }
}
