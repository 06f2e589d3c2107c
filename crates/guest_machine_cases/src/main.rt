//! Runs the programs in the file `cases`, whose first lines say how they are written there, on the guest
//! machine, and prints what each step does that can be observed. `expected.py`, beside this crate's sources,
//! works out the same lines from the rules alone.
#![tactic(auto)]

mod asked;

ghost use Rattle.guest_machine.specs.Machine.{IsMachine};

use crate::asked::Asked;
use case_text::text_of;
use code_event::{CodeEvent, Frames, Layout, VmState};
use guest_machine::{Machine, StepDone};
use guest_program::Program;
use guest_text::read_program;
use plain_machine::Ended;
use std::alloc::Global;
use std::{fs, io};

fn state_word(state: VmState) -> &'static str {
    match state {
        VmState::Js => "js",
        VmState::Idle => "idle",
        VmState::Native => "native",
        VmState::Gc => "gc",
    }
}

fn end_words(ended: Option<Ended>) -> &'static str {
    match ended {
        Some(Ended::Halt) => "ended by halt",
        Some(Ended::Overflow) => "ended by overflow",
        Some(Ended::OffEnd) => "ended off the end",
        None => "not ended",
    }
}

fn print_create(rt: &impl Print, step: u64, start: u32, layout: &Layout) -> Result<(), io::Error> {
    let slots = layout.slots().len();
    match layout.units() {
        [unit] => println!(rt;
            "{step} create {start} slots {slots} function {}",
            unit.func.0
        ),
        units => {
            print!(rt; "{step} create {start} slots {slots} functions")?;
            for unit in units {
                print!(rt; " {}", unit.func.0)?;
            }
            println!(rt; "")
        }
    }
}

fn print_event(rt: &impl Print, step: u64, event: &CodeEvent) -> Result<(), io::Error> {
    match event {
        CodeEvent::Create { start, layout } => print_create(rt, step, *start, layout),
        CodeEvent::Move { from, to } => println!(rt; "{step} move {from} {to}"),
        CodeEvent::NoOpt { start, reason } => {
            println!(rt; "{step} noopt {start} {}", reason.as_str())
        }
        CodeEvent::Deopt { start, reason } => {
            println!(rt; "{step} deopt {start} {}", reason.as_str())
        }
        CodeEvent::Delete { start } => println!(rt; "{step} delete {start}"),
        _ => println!(rt; "{step} another event"),
    }
}

fn print_done(rt: &impl Print, step: u64, done: &StepDone) -> Result<(), io::Error> {
    for event in done.events.as_slice() {
        print_event(rt, step, event)?;
    }
    if done.vm_tick {
        println!(rt; "{step} tick")?;
    }
    match done.printed {
        Some(number) => println!(rt; "{step} print {number}"),
        None => Ok(()),
    }
}

fn print_state(rt: &impl Print, step: u64, before: VmState, now: VmState) -> Result<(), io::Error> {
    if before == now {
        return Ok(());
    }
    println!(rt; "{step} state {}", state_word(now))
}

fn print_frames(rt: &impl Print, machine: &Machine) -> Result<(), io::Error>
    requires whole { IsMachine machine.now }
{
    let mut frames = Frames::new();
    machine.frames(&mut frames);
    let addresses = frames.as_slice();
    print!(rt; "{} frames {}:", machine.steps(), addresses.len())?;
    for address in addresses {
        print!(rt; " {address}")?;
    }
    println!(rt; "")
}

fn print_asked_frames(rt: &impl Print, asked: &Asked, machine: &Machine) -> Result<(), io::Error>
    requires whole { IsMachine machine.now }
{
    if asked.frames.as_slice().contains(&machine.steps()) {
        print_frames(rt, machine)?;
    }
    Ok(())
}

fn run(rt: &impl Print, asked: &Asked, mut machine: Machine) -> Result<(), io::Error>
    requires whole { IsMachine machine }
{
    print_asked_frames(rt, asked, &machine)?;
    for _ in 0..asked.steps {
        if machine.ended().is_some() {
            break;
        }
        let before = machine.state();
        let Ok(done) = machine.step() else {
            return println!(rt; "out of memory");
        };
        print_done(rt, machine.steps(), &done)?;
        print_state(rt, machine.steps(), before, done.state)?;
        print_asked_frames(rt, asked, &machine)?;
    }
    println!(rt;
        "{} {} {}",
        machine.steps(),
        state_word(machine.state()),
        end_words(machine.ended())
    )
}

fn begin(rt: &impl Print, alloc: Global, asked: &Asked, program: Program) -> Result<(), io::Error> {
    match Machine::new(alloc, program) {
        Ok((machine, event)) => {
            print_event(rt, 0, &event)?;
            run(rt, asked, machine)
        }
        Err(_) => println!(rt; "out of memory"),
    }
}

fn main(rt: HostRuntime) -> Result<(), io::Error> {
    let alloc = rt.alloc();
    let all = fs::read_to_string(&rt, "cases")?;
    let cases = all.strip_suffix('\n').unwrap_or(&all);
    for case in cases.split("\n% ").skip(1) {
        let title = case.split('\n').next().unwrap_or("");
        println!(rt; "% {title}")?;
        let asked = Asked::of(alloc, case)?;
        let text = text_of(alloc, case)?;
        match read_program(alloc, text.as_bytes()) {
            Ok(program) => begin(&rt, alloc, &asked, program)?,
            Err(_) => println!(rt; "no program")?,
        }
    }
    Ok(())
}
