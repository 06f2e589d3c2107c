// A turn of the isolate.
ghost use Rattle.std.specs.Prelude.{◌≡◌, ◌+◌, ◌-◌, ◌^◌, ◌<◌, ◌≤◌, ◌++◌, ◌&&◌, List, [], ◌∷◌, ℕ, suc, length, true, false, None, Some, Option, IfSome, if◌then◌else◌};
ghost use Rattle.code_event.specs.declared.event.CodeEvent.{CodeEvent};
ghost use Rattle.code_event.specs.declared.event.CodeEvent.TheVariants as event;
ghost use Rattle.code_event.specs.declared.tick.Item.TheVariants as item;
ghost use Rattle.run_schedule.specs.declared.schedule.EndCause.TheVariants as cause;
ghost use Rattle.isolate.specs.PlainFile.{leaves_files};
ghost use Rattle.guest_machine.specs.Machine.{IsMachine};
ghost use Rattle.isolate_guest.specs.Guest.{IsAt};
ghost use Rattle.isolate_acts.specs.Acts.{after_short, ends, event_of, samples};
ghost use Rattle.isolate_acts.specs.Calls.{told, with_calls};
ghost use Rattle.isolate_acts.specs.Phases.{Phase, HasRoom, IsDue, NoneIsDue, after_end, after_ports, asking, closing, first_phase, must_end, over, stepping};
ghost use Rattle.isolate_acts.specs.Progress.{Moment, entry_count, entry_time, goes_on, is_filled, some_runs};
ghost use Rattle.isolate_ends.specs.Queues.{HaveMore, shown};
ghost use Rattle.guest_program.specs.declared.instr.Func.{Func};
ghost use Rattle.code_event.specs.declared.tick.Item.{Item};
ghost use Rattle.isolate_turns.specs.Kept.{IsKept};
ghost use Rattle.isolate_turns.specs.Ready.{IsIsolate, IsNow};
ghost use Rattle.isolate_ends.specs.Runs.{Adds, Answers, Does, DropsWhereFull, Goes, whole};

use crate::state::Isolate;
use code_event::{CodeEvent, EventRecord, Tick};
use isolate_ends::{IsoPorts, IsoTurn};
use pipe_core::{Offer, Tail};
use plain_machine::Ended;
use run_schedule::EndCause;

// Returns whether the sessions that run when an isolate ends have their files.
fn leaves_files(why: EndCause) -> bool
    ensures { result ≡ leaves_files why }
{
    !matches!(why, EndCause::Memory)
}

impl<E, V, O> Isolate<E, V, O> {
    // Returns the event of the end, with a reading of the clock.
    fn finish(&self, why: EndCause, now: u64) -> EventRecord
        ensures { result ≡ event_of self.now.progress (event.Finish (entry_time self.now.progress now) (leaves_files why)) }
    {
        EventRecord {
            number: self.progress.events() + 1,
            ticks_before: self.progress.ticks(),
            event: CodeEvent::Finish {
                time: self.progress.entry_time(now),
                files: leaves_files(why),
            },
        }
    }

    // Returns whether a turn begins with the guest's step: where the isolate goes on, and a sample was
    // entered at this step.
    fn begins_with_step(&self) -> bool
        ensures value { result ≡ goes_on self.now.progress && self.now.progress.is_sampled }
        ensures going { result ≡ true → self.now.progress.ending ≡ None }
        ensures not_sampled { result ≡ false → self.now.progress.ending ≡ None → self.now.progress.is_sampled ≡ false }
    {
        self.progress.goes_on() && self.progress.is_sampled()
    }

    // Returns why the isolate ends after a step, if it does: as its guest, or at the budget.
    fn due_end(&self) -> Option<EndCause>
        requires machine { IsMachine self.now.guest.machine }
        ensures due { (moment : Moment) → IsAt self.now.guest.machine moment → IfSome result (λ why. IsDue moment self.now.progress why) }
        ensures none { (moment : Moment) → IsAt self.now.guest.machine moment → result ≡ None → NoneIsDue moment self.now.progress }
        ensures guest_goes_on { result ≡ None → self.now.guest.machine.ended ≡ None }
        ensures budget { result ≡ None → self.now.progress.step < self.now.progress.schedule.budget }
    {
        let step = self.progress.step();
        match self.guest.ended() {
            Some(Ended::Halt) => Some(EndCause::Halt),
            Some(Ended::Overflow) => Some(EndCause::Overflow),
            Some(Ended::OffEnd) => Some(EndCause::OffEnd),
            None if step == self.progress.schedule().budget() => Some(EndCause::Budget),
            None => None,
        }
    }
}

impl<E: Tail<EventRecord>, V: Tail<Tick>, O: Offer> Isolate<E, V, O> {
    // Ends the isolate: enters the end and raises it, and tells the ports that no sample is asked for.
    pub(crate) fn end<P: IsoPorts>(&mut self, ports: &mut P, why: EndCause)
        requires place { entry_count self.old.progress < self.old.progress.schedule.limit }
        requires spare { 1 ≤ E.spare self.old.ends.events }
        ensures does { (moment : Moment) → (now : ℕ)
            × Does (whole moment self.old.progress (P.calls ports.old) (shown E.passed V.passed O.passed E.holds V.holds O.holds self.old.ends))
            (whole moment self.new.progress (P.calls ports.new) (shown E.passed V.passed O.passed E.holds V.holds O.holds self.new.ends)) (ends why now) }
        ensures ended { self.new.progress.ending ≡ Some why }
        ensures adds { Adds self.old.progress.schedule.entries self.new.progress.schedule.entries 0 }
        ensures guest { self.new.guest ≡ self.old.guest }
        ensures printed { self.new.printed ≡ self.old.printed }
        ensures home { E.home self.new.ends.events ≡ E.home self.old.ends.events }
        ensures vm_ticks { self.new.ends.vm_ticks ≡ self.old.ends.vm_ticks }
        ensures ring { self.new.ends.ring ≡ self.old.ends.ring }
        ensures ports { P.ports_home ports.new ≡ P.ports_home ports.old }
    {
        let now = ports.now(self.progress.step());
        let finish = self.finish(why, now);
        self.ends.put_last(finish);
        self.progress.end(why, now);
        ports.set_interval(0);
    }

    // Ends the isolate out of memory, with this reading of the clock, after this many events that are in
    // no entry.
    pub(crate) fn end_short<P: IsoPorts>(&mut self, ports: &mut P, raised: u32, now: u64)
        requires place { entry_count self.old.progress < self.old.progress.schedule.limit }
        requires spare { 1 ≤ E.spare self.old.ends.events }
        ensures progress { (events : List CodeEvent) → length events ≡ raised → self.new.progress ≡ after_short self.old.progress events now }
        ensures calls { P.calls ports.new ≡ with_calls (P.calls ports.old) (told 0 ∷ []) }
        ensures more { HaveMore (shown E.passed V.passed O.passed E.holds V.holds O.holds self.old.ends) (shown E.passed V.passed O.passed E.holds V.holds O.holds self.new.ends)
            (item.Event (record { number = suc (self.old.progress.events + raised); ticks_before = self.old.progress.ticks; event = event.Finish (entry_time self.old.progress now) false }) ∷ []) }
        ensures ended { self.new.progress.ending ≡ Some cause.Memory }
        ensures guest { self.new.guest ≡ self.old.guest }
        ensures adds { Adds self.old.progress.schedule.entries self.new.progress.schedule.entries 0 }
        ensures printed { self.new.printed ≡ self.old.printed }
        ensures home { E.home self.new.ends.events ≡ E.home self.old.ends.events }
        ensures vm_ticks { self.new.ends.vm_ticks ≡ self.old.ends.vm_ticks }
        ensures ring { self.new.ends.ring ≡ self.old.ends.ring }
        ensures ports { P.ports_home ports.new ≡ P.ports_home ports.old }
    {
        let finish = EventRecord {
            number: self.progress.events() + u64::from(raised) + 1,
            ticks_before: self.progress.ticks(),
            event: CodeEvent::Finish {
                time: self.progress.entry_time(now),
                files: false,
            },
        };
        self.ends.put_last(finish);
        self.progress.end_short(raised, now);
        ports.set_interval(0);
    }

    // Goes on after the guest's step: ends the isolate if an end is due.
    fn close_turn<P: IsoPorts>(&mut self, ports: &mut P) -> IsoTurn
        requires machine { IsMachine self.old.guest.machine }
        requires going { self.old.progress.ending ≡ None }
        requires room { HasRoom self.old.progress }
        requires spare { 1 ≤ E.spare self.old.ends.events }
        requires not_sampled { self.old.progress.is_sampled ≡ false }
        ensures goes { (moment : Moment) → IsNow self.old.guest.machine self.old.progress self.old.printed.items moment
            → (after : Moment) × IsNow self.new.guest.machine self.new.progress self.new.printed.items after
            × Goes (whole moment self.old.progress (P.calls ports.old) (shown E.passed V.passed O.passed E.holds V.holds O.holds self.old.ends))
            (whole after self.new.progress (P.calls ports.new) (shown E.passed V.passed O.passed E.holds V.holds O.holds self.new.ends)) closing result }
        ensures answer { Answers result self.new.progress.ending }
        ensures whole { IsIsolate self.new.guest.machine self.new.progress }
        ensures spare { self.new.progress.ending ≡ None → E.spare self.new.ends.events ≡ E.spare self.old.ends.events }
        ensures home { E.home self.new.ends.events ≡ E.home self.old.ends.events }
        ensures vm_home { V.home self.new.ends.vm_ticks ≡ V.home self.old.ends.vm_ticks }
        ensures adds { Adds self.old.progress.schedule.entries self.new.progress.schedule.entries 0 }
        ensures ring { self.new.ends.ring ≡ self.old.ends.ring }
        ensures ports { P.ports_home ports.new ≡ P.ports_home ports.old }
    {
        match self.due_end() {
            Some(why) => {
                self.end(ports, why);
                IsoTurn::Ended(why)
            }
            None => IsoTurn::Ran,
        }
    }

    // Goes on with the guest's step.
    fn step_on<P: IsoPorts>(&mut self, ports: &mut P) -> IsoTurn
        requires machine { IsMachine self.old.guest.machine }
        requires guest_goes_on { self.old.guest.machine.ended ≡ None }
        requires budget { self.old.progress.step < self.old.progress.schedule.budget }
        requires going { self.old.progress.ending ≡ None }
        requires room { HasRoom self.old.progress }
        requires spare { 1 ≤ E.spare self.old.ends.events }
        ensures goes { (moment : Moment) → IsNow self.old.guest.machine self.old.progress self.old.printed.items moment
            → (after : Moment) × IsNow self.new.guest.machine self.new.progress self.new.printed.items after
            × Goes (whole moment self.old.progress (P.calls ports.old) (shown E.passed V.passed O.passed E.holds V.holds O.holds self.old.ends))
            (whole after self.new.progress (P.calls ports.new) (shown E.passed V.passed O.passed E.holds V.holds O.holds self.new.ends)) stepping result }
        ensures answer { Answers result self.new.progress.ending }
        ensures whole { IsIsolate self.new.guest.machine self.new.progress }
        ensures spare { self.new.progress.ending ≡ None → E.spare self.new.ends.events ≡ E.spare self.old.ends.events }
        ensures home { E.home self.new.ends.events ≡ E.home self.old.ends.events }
        ensures vm_home { V.home self.new.ends.vm_ticks ≡ V.home self.old.ends.vm_ticks }
        ensures adds { Adds self.old.progress.schedule.entries self.new.progress.schedule.entries 0 }
        ensures ring { self.new.ends.ring ≡ self.old.ends.ring }
        ensures ports { P.ports_home ports.new ≡ P.ports_home ports.old }
    {
        match self.do_step() {
            Ok(()) => self.close_turn(ports),
            Err(raised) => {
                let now = ports.now(self.progress.step());
                self.end_short(ports, raised, now);
                IsoTurn::Ended(EndCause::Memory)
            }
        }
    }

    // Goes on after a sample: with the guest's step, or with the end where one place is left.
    fn go_on_sampled<P: IsoPorts>(&mut self, ports: &mut P) -> IsoTurn
        requires machine { IsMachine self.old.guest.machine }
        requires guest_goes_on { self.old.guest.machine.ended ≡ None }
        requires budget { self.old.progress.step < self.old.progress.schedule.budget }
        requires going { self.old.progress.ending ≡ None }
        requires place { entry_count self.old.progress < self.old.progress.schedule.limit }
        requires spare { 1 ≤ E.spare self.old.ends.events }
        ensures goes { (moment : Moment) → IsNow self.old.guest.machine self.old.progress self.old.printed.items moment
            → (after : Moment) × IsNow self.new.guest.machine self.new.progress self.new.printed.items after
            × ((later : Phase) → after_end later ≡ over → Goes (whole moment self.old.progress (P.calls ports.old) (shown E.passed V.passed O.passed E.holds V.holds O.holds self.old.ends))
            (whole after self.new.progress (P.calls ports.new) (shown E.passed V.passed O.passed E.holds V.holds O.holds self.new.ends)) (if is_filled self.old.progress then must_end later else stepping) result) }
        ensures answer { Answers result self.new.progress.ending }
        ensures whole { IsIsolate self.new.guest.machine self.new.progress }
        ensures spare { self.new.progress.ending ≡ None → E.spare self.new.ends.events ≡ E.spare self.old.ends.events }
        ensures home { E.home self.new.ends.events ≡ E.home self.old.ends.events }
        ensures vm_home { V.home self.new.ends.vm_ticks ≡ V.home self.old.ends.vm_ticks }
        ensures adds { Adds self.old.progress.schedule.entries self.new.progress.schedule.entries 0 }
        ensures ring { self.new.ends.ring ≡ self.old.ends.ring }
        ensures ports { P.ports_home ports.new ≡ P.ports_home ports.old }
    {
        if self.progress.is_filled() {
            self.end(ports, EndCause::Full);
            return IsoTurn::Ended(EndCause::Full);
        }
        self.step_on(ports)
    }

    // Goes on where a session runs: takes a sample if one is asked for.
    fn sample_on<P: IsoPorts>(&mut self, ports: &mut P) -> IsoTurn
        requires machine { IsMachine self.old.guest.machine }
        requires guest_goes_on { self.old.guest.machine.ended ≡ None }
        requires budget { self.old.progress.step < self.old.progress.schedule.budget }
        requires going { self.old.progress.ending ≡ None }
        requires room { HasRoom self.old.progress }
        requires spare { 1 ≤ E.spare self.old.ends.events }
        requires session { some_runs self.old.progress ≡ true }
        requires not_sampled { self.old.progress.is_sampled ≡ false }
        ensures goes { (moment : Moment) → IsNow self.old.guest.machine self.old.progress self.old.printed.items moment
            → (after : Moment) × IsNow self.new.guest.machine self.new.progress self.new.printed.items after
            × Goes (whole moment self.old.progress (P.calls ports.old) (shown E.passed V.passed O.passed E.holds V.holds O.holds self.old.ends))
            (whole after self.new.progress (P.calls ports.new) (shown E.passed V.passed O.passed E.holds V.holds O.holds self.new.ends)) asking result }
        ensures answer { Answers result self.new.progress.ending }
        ensures whole { IsIsolate self.new.guest.machine self.new.progress }
        ensures spare { self.new.progress.ending ≡ None → E.spare self.new.ends.events ≡ E.spare self.old.ends.events }
        ensures home { E.home self.new.ends.events ≡ E.home self.old.ends.events }
        ensures vm_home { V.home self.new.ends.vm_ticks ≡ V.home self.old.ends.vm_ticks }
        ensures ring_home { O.home self.new.ends.ring ≡ O.home self.old.ends.ring }
        ensures drops { DropsWhereFull (O.passed self.old.ends.ring) (O.fulls self.old.ends.ring) (O.fulls self.new.ends.ring) self.old.progress.schedule.entries self.new.progress.schedule.entries }
        ensures ports { P.ports_home ports.new ≡ P.ports_home ports.old }
    {
        let step = self.progress.step();
        if !ports.asked(step) {
            return self.step_on(ports);
        }
        let now = ports.now(step);
        self.enter_sample(now);
        self.go_on_sampled(ports)
    }

    // Goes on after the commands of the ports.
    fn go_on<P: IsoPorts>(&mut self, ports: &mut P) -> IsoTurn
        requires whole { IsIsolate self.old.guest.machine self.old.progress }
        requires not_sampled { self.old.progress.ending ≡ None → self.old.progress.is_sampled ≡ false }
        requires spare { self.old.progress.ending ≡ None → 1 ≤ E.spare self.old.ends.events }
        ensures goes { (moment : Moment) → IsNow self.old.guest.machine self.old.progress self.old.printed.items moment
            → (after : Moment) × IsNow self.new.guest.machine self.new.progress self.new.printed.items after
            × Goes (whole moment self.old.progress (P.calls ports.old) (shown E.passed V.passed O.passed E.holds V.holds O.holds self.old.ends))
            (whole after self.new.progress (P.calls ports.new) (shown E.passed V.passed O.passed E.holds V.holds O.holds self.new.ends)) (after_ports self.old.progress) result }
        ensures answer { Answers result self.new.progress.ending }
        ensures whole { IsIsolate self.new.guest.machine self.new.progress }
        ensures going { self.new.progress.ending ≡ None → self.old.progress.ending ≡ None }
        ensures spare { self.new.progress.ending ≡ None → E.spare self.new.ends.events ≡ E.spare self.old.ends.events }
        ensures home { E.home self.new.ends.events ≡ E.home self.old.ends.events }
        ensures vm_home { V.home self.new.ends.vm_ticks ≡ V.home self.old.ends.vm_ticks }
        ensures ring_home { O.home self.new.ends.ring ≡ O.home self.old.ends.ring }
        ensures drops { DropsWhereFull (O.passed self.old.ends.ring) (O.fulls self.old.ends.ring) (O.fulls self.new.ends.ring) self.old.progress.schedule.entries self.new.progress.schedule.entries }
        ensures ports { P.ports_home ports.new ≡ P.ports_home ports.old }
    {
        match self.progress.ending() {
            Some(why) => IsoTurn::Ended(why),
            None if self.progress.some_runs() => self.sample_on(ports),
            None => self.step_on(ports),
        }
    }

    /// Does a turn: takes the commands of the ports, takes a sample if a session runs and one is asked for,
    /// does one step of the guest, and ends where the guest has ended or the steps reach the budget. Where
    /// a sample was taken since the last turn, it begins with the guest's step. As soon as one place is
    /// left in the schedule, and where memory runs out, the isolate ends. After the end a turn only
    /// answers commands.
    pub fn turn<P: IsoPorts>(&mut self, ports: &mut P) -> IsoTurn
        requires whole { IsIsolate self.old.guest.machine self.old.progress }
        requires spare { self.old.progress.ending ≡ None → 1 ≤ E.spare self.old.ends.events }
        ensures goes { (moment : Moment) → IsNow self.old.guest.machine self.old.progress self.old.printed.items moment
            → (after : Moment) × IsNow self.new.guest.machine self.new.progress self.new.printed.items after
            × Goes (whole moment self.old.progress (P.calls ports.old) (shown E.passed V.passed O.passed E.holds V.holds O.holds self.old.ends))
            (whole after self.new.progress (P.calls ports.new) (shown E.passed V.passed O.passed E.holds V.holds O.holds self.new.ends)) (first_phase self.old.progress) result }
        // Whatever it stood for, it stands for that and what it raises after it.
        ensures kept { (funcs : List Func) (moment : Moment) (raised : List Item) → IsNow self.old.guest.machine self.old.progress self.old.printed.items moment
            → IsKept funcs moment self.old.progress raised
            → (after : Moment) × (more : List Item) × IsNow self.new.guest.machine self.new.progress self.new.printed.items after
            × IsKept funcs after self.new.progress (raised ++ more)
            × HaveMore (shown E.passed V.passed O.passed E.holds V.holds O.holds self.old.ends) (shown E.passed V.passed O.passed E.holds V.holds O.holds self.new.ends) more }
        ensures answer { Answers result self.new.progress.ending }
        // An isolate that has ended stays so.
        ensures going { self.new.progress.ending ≡ None → self.old.progress.ending ≡ None }
        ensures whole { IsIsolate self.new.guest.machine self.new.progress }
        ensures spare { self.new.progress.ending ≡ None → E.spare self.new.ends.events ≡ E.spare self.old.ends.events }
        ensures home { E.home self.new.ends.events ≡ E.home self.old.ends.events }
        ensures vm_home { V.home self.new.ends.vm_ticks ≡ V.home self.old.ends.vm_ticks }
        ensures ring_home { O.home self.new.ends.ring ≡ O.home self.old.ends.ring }
        ensures drops { DropsWhereFull (O.passed self.old.ends.ring) (O.fulls self.old.ends.ring) (O.fulls self.new.ends.ring) self.old.progress.schedule.entries self.new.progress.schedule.entries }
        ensures ports { P.ports_home ports.new ≡ P.ports_home ports.old }
    {
        if self.begins_with_step() {
            return self.go_on_sampled(ports);
        }
        self.take_commands(ports);
        self.go_on(ports)
    }
}
