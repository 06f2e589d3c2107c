// A step of the guest, and what it raises.
ghost use Rattle.std.specs.Prelude.{◌≡◌, ◌+◌, ◌<◌, ◌≤◌, ◌++◌, ◌&&◌, [], ◌∷◌, suc, length, take, List, None, Some, false, OnOk, OnErr, IfOk, IfErr, if◌then◌else◌};
ghost use Rattle.std.specs.List.{AllByRecursion};
ghost use Rattle.code_event.specs.declared.event.CodeEvent.{CodeEvent};
ghost use Rattle.code_event.specs.declared.tick.Item.TheVariants as item;
ghost use Rattle.guest_machine.specs.Machine.{IsMachine, printed_text};
ghost use Rattle.isolate_guest.specs.Guest.{IsAt};
ghost use Rattle.plain_machine.specs.PlainMachine.{plain};
ghost use Rattle.raised_so_far.specs.ItemsSoFar.{IsCodeEvent};
ghost use Rattle.isolate_acts.specs.Acts.{numbered, steps, given_up_tick, act_after, act_raises};
ghost use Rattle.isolate_acts.specs.Phases.{IsStep};
ghost use Rattle.isolate_acts.specs.Progress.{Moment, some_runs};
ghost use Rattle.isolate_ends.specs.Queues.{HaveMore, shown};

use crate::state::Isolate;
use code_event::{EventRecord, Frames, Tick};
use guest_machine::StepDone;
use pipe_core::{Offer, Tail};
use prof_base::{Memory, put_decimal};
use std::alloc::Global;

// Adds a number and a newline to a text. When out of memory, it leaves the text unchanged.
fn put_line(alloc: Global, text: &mut Vec<u8>, number: u64) -> Result<(), Memory>
    ensures ok { OnOk result (text.new.items ≡ text.old.items ++ printed_text (Some number)) }
    ensures err { OnErr result (text.new.items ≡ text.old.items) }
{
    let mut line = Vec::new(alloc);
    put_decimal(&mut line, number)?;
    line.push(b'\n')?;
    text.extend_from_slice(line.as_slice())?;
    Ok(())
}

impl<E, V, O> Isolate<E, V, O> {
    // Adds what a step printed to the printed text. When out of memory, it leaves that unchanged.
    fn print(&mut self, number: Option<u64>) -> Result<(), Memory>
        ensures ok { OnOk result (self.new.printed.items ≡ self.old.printed.items ++ printed_text number) }
        ensures err { OnErr result (self.new.printed.items ≡ self.old.printed.items) }
        ensures same { self.new ≡ record self.old { printed = self.new.printed } }
    {
        match number {
            Some(number) => put_line(self.alloc, &mut self.printed, number),
            None => Ok(()),
        }
    }

    // Returns the tick of a deoptimisation that a step made, which raised this many events.
    fn given_up_tick(&self, events: u32) -> Tick
        requires machine { IsMachine self.now.guest.machine }
        ensures tick { (after : Moment) → IsAt self.now.guest.machine after → result ≡ given_up_tick after self.now.progress events }
        ensures no_hit { result.hit ≡ false }
    {
        let mut tick = Tick {
            order: self.progress.events() + u64::from(events),
            tick_number: self.progress.ticks() + 1,
            time: self.progress.last_time(),
            interval: 0,
            state: self.guest.state(),
            hit: false,
            only: None,
            frames: Frames::new(),
        };
        self.guest.frames(&mut tick.frames);
        tick
    }
}

impl<E: Tail<EventRecord>, V: Tail<Tick>, O: Offer> Isolate<E, V, O> {
    // Puts in the tick of a deoptimisation that a step made, which raised this many events. When out of
    // memory, it leaves the queues unchanged.
    fn raise_tick(&mut self, events: u32) -> Result<(), Memory>
        requires machine { IsMachine self.old.guest.machine }
        ensures same { self.new ≡ record self.old { ends = self.new.ends } }
        ensures ok { OnOk result ((after : Moment) → IsAt self.old.guest.machine after
            → HaveMore (shown E.passed V.passed O.passed E.holds V.holds O.holds self.old.ends) (shown E.passed V.passed O.passed E.holds V.holds O.holds self.new.ends)
            (item.Tick (given_up_tick after self.old.progress events) ∷ [])) }
        ensures err { OnErr result (shown E.passed V.passed O.passed E.holds V.holds O.holds self.new.ends ≡ shown E.passed V.passed O.passed E.holds V.holds O.holds self.old.ends) }
        ensures events { self.new.ends.events ≡ self.old.ends.events }
        ensures ring { self.new.ends.ring ≡ self.old.ends.ring }
        ensures home { V.home self.new.ends.vm_ticks ≡ V.home self.old.ends.vm_ticks }
    {
        let tick = self.given_up_tick(events);
        self.ends.put_tick(self.alloc, tick)
    }

    // Raises what a step did: its events, and the tick of a deoptimisation where a session runs. Returns the
    // number of events, and whether there is a tick. Out of memory, it returns how many events were raised.
    fn raise(&mut self, done: StepDone) -> Result<(u32, bool), u32>
        requires machine { IsMachine self.old.guest.machine }
        ensures same { self.new ≡ record self.old { ends = self.new.ends } }
        ensures count { IfOk result (λ raised. raised.0 ≡ length done.events) }
        ensures is_ticked { IfOk result (λ raised. raised.1 ≡ done.vm_tick && some_runs self.old.progress) }
        ensures ok { IfOk result (λ raised. (after : Moment) → IsAt self.old.guest.machine after
            → HaveMore (shown E.passed V.passed O.passed E.holds V.holds O.holds self.old.ends) (shown E.passed V.passed O.passed E.holds V.holds O.holds self.new.ends)
            (numbered self.old.progress.events self.old.progress.ticks done.events
            ++ (if raised.1 then item.Tick (given_up_tick after self.old.progress (length done.events)) ∷ [] else []))) }
        ensures err { IfErr result (λ count. (count ≤ length done.events)
            × HaveMore (shown E.passed V.passed O.passed E.holds V.holds O.holds self.old.ends) (shown E.passed V.passed O.passed E.holds V.holds O.holds self.new.ends)
            (numbered self.old.progress.events self.old.progress.ticks (take count done.events))) }
        ensures spare { E.spare self.new.ends.events ≡ E.spare self.old.ends.events }
        ensures home { E.home self.new.ends.events ≡ E.home self.old.ends.events }
        ensures vm_home { V.home self.new.ends.vm_ticks ≡ V.home self.old.ends.vm_ticks }
        ensures ring { self.new.ends.ring ≡ self.old.ends.ring }
    {
        let before = self.progress.events();
        let ticks = self.progress.ticks();
        let count = self
            .ends
            .put_events(self.alloc, done.events, before, ticks)?;
        let is_ticked = done.vm_tick && self.progress.some_runs();
        if !is_ticked {
            return Ok((count, false));
        }
        match self.raise_tick(count) {
            Ok(()) => Ok((count, true)),
            Err(_) => Err(count),
        }
    }

    // Does the guest's step, and raises its events. Out of memory, it returns how many of them were raised:
    // then the guest is spent.
    pub(crate) fn do_step(&mut self) -> Result<(), u32>
        requires machine { IsMachine self.old.guest.machine }
        requires guest_goes_on { self.old.guest.machine.ended ≡ None }
        requires budget { self.old.progress.step < self.old.progress.schedule.budget }
        ensures machine { OnOk result (IsMachine self.new.guest.machine) }
        // The guest is at its next moment, and its events are raised.
        ensures ok { OnOk result ((moment : Moment) → IsAt self.old.guest.machine moment
            → (after : Moment) × (events : List CodeEvent) × IsAt self.new.guest.machine after × IsStep moment after events
            × (self.new.progress ≡ act_after moment self.old.progress (steps after events))
            × HaveMore (shown E.passed V.passed O.passed E.holds V.holds O.holds self.old.ends) (shown E.passed V.passed O.passed E.holds V.holds O.holds self.new.ends) (act_raises moment self.old.progress (steps after events))) }
        ensures printed { OnOk result ((moment : Moment) → IsAt self.old.guest.machine moment
            → self.old.printed.items ≡ (plain moment.funcs moment.steps).printed → self.new.printed.items ≡ (plain moment.funcs (suc moment.steps)).printed) }
        ensures err { IfErr result (λ count. (moment : Moment) → IsAt self.old.guest.machine moment
            → (events : List CodeEvent) × (length events ≡ count) × AllByRecursion IsCodeEvent events
            × HaveMore (shown E.passed V.passed O.passed E.holds V.holds O.holds self.old.ends) (shown E.passed V.passed O.passed E.holds V.holds O.holds self.new.ends) (numbered self.old.progress.events self.old.progress.ticks events)) }
        ensures err_progress { OnErr result (self.new.progress ≡ self.old.progress) }
        ensures err_printed { OnErr result (self.new.printed.items ≡ self.old.printed.items) }
        ensures step { OnOk result (self.new.progress.step ≡ suc self.old.progress.step) }
        ensures not_sampled { OnOk result (self.new.progress.is_sampled ≡ false) }
        ensures schedule { self.new.progress.schedule ≡ self.old.progress.schedule }
        ensures ending { self.new.progress.ending ≡ self.old.progress.ending }
        ensures spare { E.spare self.new.ends.events ≡ E.spare self.old.ends.events }
        ensures home { E.home self.new.ends.events ≡ E.home self.old.ends.events }
        ensures vm_home { V.home self.new.ends.vm_ticks ≡ V.home self.old.ends.vm_ticks }
        ensures ring { self.new.ends.ring ≡ self.old.ends.ring }
    {
        let done = match self.guest.step() {
            Ok(done) => done,
            Err(_) => return Err(0),
        };
        let length = self.printed().len();
        if self.print(done.printed).is_err() {
            return Err(0);
        }
        match self.raise(done) {
            Ok((count, is_ticked)) => {
                self.progress.step_on(count, is_ticked);
                Ok(())
            }
            Err(count) => {
                self.printed.truncate(length);
                Err(count)
            }
        }
    }
}
