// The commands of the ports.
ghost use Rattle.std.specs.Prelude.{◌≡◌, ◌==◌, ◌<◌, ◌≤◌, List, [], ◌∷◌, ℕ, suc, length, true, false, None, Some, Option, IfSome, OnOk, IfErr, if◌then◌else◌};
ghost use Rattle.code_event.specs.declared.event.CodeEvent.TheVariants as event;
ghost use Rattle.code_event.specs.declared.event.Command.TheVariants as command;
ghost use Rattle.code_event.specs.declared.event.TheConstants.{MAX_SESSIONS};
ghost use Rattle.code_event.specs.declared.tick.Item.TheVariants as item;
ghost use Rattle.run_schedule.specs.Schedule.{HasSession};
ghost use Rattle.run_schedule.specs.declared.limits.TheConstants.{MAX_PORT};
ghost use Rattle.run_schedule.specs.declared.schedule.What.TheVariants as what;
ghost use Rattle.guest_machine.specs.Machine.{IsMachine};
ghost use Rattle.isolate_guest.specs.Guest.{IsAt};
ghost use Rattle.isolate_acts.specs.Acts.{cut_marks, event_of, numbered, start_mark, start_tick};
ghost use Rattle.isolate_acts.specs.Calls.{Call, answered, commanded, told, with_calls};
ghost use Rattle.isolate_acts.specs.Phases.{HasRoom, IsLegalCommand, IsRefused, after_command, after_ports, at_port, most_commands, unless_ended};
ghost use Rattle.isolate_acts.specs.Progress.{Moment, entry_count, entry_time, running_now, source_now};
ghost use Rattle.isolate_ends.specs.Ports.{IsOfPort};
ghost use Rattle.isolate_ends.specs.Queues.{HaveMore, shown};
ghost use Rattle.isolate_turns.specs.Ready.{IsIsolate, IsNow};
ghost use Rattle.isolate_ends.specs.Runs.{Obeys, Runs, Stays, whole};

use crate::state::Isolate;
use code_event::{Answer, CodeEvent, Command, EventRecord, Frames, MAX_SESSIONS, Options, Tick};
use isolate_ends::IsoPorts;
use pipe_core::{Offer, Tail};
use prof_base::SessionId;
use run_schedule::{EndCause, MAX_PORT};

// The number of commands that a turn takes at most, of all ports together.
const MOST_COMMANDS: u32 = 1_048_576;

impl<E, V, O> Isolate<E, V, O> {
    // Returns the event of a session's start, with a reading of the clock.
    fn start_mark(&self, options: Options, now: u64) -> EventRecord
        ensures mark { result ≡ event_of self.now.progress (start_mark self.now.progress options now) }
    {
        EventRecord {
            number: self.progress.events() + 1,
            ticks_before: self.progress.ticks(),
            event: CodeEvent::Start {
                session: self.progress.next_session(),
                options,
                time: self.progress.entry_time(now),
            },
        }
    }

    // Returns the event of a session's stop, with a reading of the clock.
    fn stop_mark(&self, number: SessionId, now: u64) -> EventRecord
        ensures mark { result ≡ event_of self.now.progress (event.Stop number (entry_time self.now.progress now)) }
    {
        EventRecord {
            number: self.progress.events() + 1,
            ticks_before: self.progress.ticks(),
            event: CodeEvent::Stop {
                session: number,
                time: self.progress.entry_time(now),
            },
        }
    }

    // Returns the tick of a session's start, with a reading of the clock: it is for this session alone.
    fn start_tick(&self, now: u64) -> Tick
        requires machine { IsMachine self.now.guest.machine }
        ensures tick { (moment : Moment) → IsAt self.now.guest.machine moment → result ≡ start_tick moment self.now.progress (entry_time self.now.progress now) }
        ensures no_hit { result.hit ≡ false }
    {
        let mut tick = Tick {
            order: self.progress.events() + 1,
            tick_number: self.progress.ticks() + 1,
            time: self.progress.entry_time(now),
            interval: 0,
            state: self.guest.state(),
            hit: false,
            only: Some(self.progress.next_session()),
            frames: Frames::new(),
        };
        self.guest.frames(&mut tick.frames);
        tick
    }

    // Returns the answer with which a command of this port is refused, or none if it is legal.
    fn refusal(&self, port: u8, given: Command) -> Option<Answer>
        requires own { IsOfPort port (Some given) }
        ensures refused { IfSome result (λ why. IsRefused self.now.progress port given why) }
        ensures going { result ≡ None → self.now.progress.ending ≡ None }
        ensures legal { result ≡ None → IsLegalCommand self.now.progress port given }
    {
        if !self.progress.goes_on() {
            return Some(Answer::Ended);
        }
        match given {
            Command::Start(_) if !self.progress.may_start() => Some(Answer::TooMany),
            Command::Stop(number) if !self.progress.runs(port, number) => Some(Answer::NoSession),
            _ => None,
        }
    }

    // Answers a command, and returns whether the port took the answer.
    fn answer<P: IsoPorts>(&self, ports: &mut P, port: u8, answer: Answer) -> bool
        ensures calls { P.calls ports.new ≡ with_calls (P.calls ports.old) (answered port answer (entry_count self.now.progress) result ∷ []) }
        ensures ports { P.ports_home ports.new ≡ P.ports_home ports.old }
    {
        let place = self.progress.entry_count();
        ports.answer(self.alloc, port, answer, place).is_ok()
    }

    // Tells the ports the interval of the sessions that run, answers a command that was entered, and
    // returns whether the port took the answer.
    fn confirm<P: IsoPorts>(&self, ports: &mut P, port: u8, answer: Answer) -> bool
        ensures calls { P.calls ports.new ≡ with_calls (P.calls ports.old) (told (source_now self.now.progress) ∷ answered port answer (entry_count self.now.progress) result ∷ []) }
        ensures ports { P.ports_home ports.new ≡ P.ports_home ports.old }
    {
        ports.set_interval(self.progress.source());
        self.answer(ports, port, answer)
    }
}

impl<E: Tail<EventRecord>, V: Tail<Tick>, O: Offer> Isolate<E, V, O> {
    // Raises a session's start: its mark and its tick. Out of memory, it returns whether the mark was raised.
    fn raise_start(&mut self, options: Options, now: u64) -> Result<(), bool>
        requires machine { IsMachine self.old.guest.machine }
        ensures same { self.new ≡ record self.old { ends = self.new.ends } }
        ensures ok { OnOk result ((moment : Moment) → IsAt self.old.guest.machine moment
            → HaveMore (shown E.passed V.passed O.passed E.holds V.holds O.holds self.old.ends) (shown E.passed V.passed O.passed E.holds V.holds O.holds self.new.ends)
            (item.Event (event_of self.old.progress (start_mark self.old.progress options now)) ∷ item.Tick (start_tick moment self.old.progress (entry_time self.old.progress now)) ∷ [])) }
        ensures err { IfErr result (λ is_marked. HaveMore (shown E.passed V.passed O.passed E.holds V.holds O.holds self.old.ends) (shown E.passed V.passed O.passed E.holds V.holds O.holds self.new.ends)
            (numbered self.old.progress.events self.old.progress.ticks (cut_marks self.old.progress (command.Start options) is_marked now))) }
        ensures spare { E.spare self.new.ends.events ≡ E.spare self.old.ends.events }
        ensures home { E.home self.new.ends.events ≡ E.home self.old.ends.events }
        ensures vm_home { V.home self.new.ends.vm_ticks ≡ V.home self.old.ends.vm_ticks }
        ensures ring { self.new.ends.ring ≡ self.old.ends.ring }
    {
        let mark = self.start_mark(options, now);
        if self.ends.put_event(self.alloc, mark).is_err() {
            return Err(false);
        }
        let tick = self.start_tick(now);
        if self.ends.put_tick(self.alloc, tick).is_err() {
            return Err(true);
        }
        Ok(())
    }

    // Starts a session, or ends the isolate out of memory. Returns whether the port took the answer.
    fn start<P: IsoPorts>(&mut self, ports: &mut P, options: Options) -> bool
        requires machine { IsMachine self.old.guest.machine }
        requires going { self.old.progress.ending ≡ None }
        requires room { HasRoom self.old.progress }
        requires spare { 1 ≤ E.spare self.old.ends.events }
        requires few { length (running_now self.old.progress) < MAX_SESSIONS }
        requires exists { options.port ≤ MAX_PORT }
        ensures obeys { (moment : Moment) → IsNow self.old.guest.machine self.old.progress self.old.printed.items moment
            → (calls : Option (List Call)) → P.calls ports.old ≡ with_calls calls (commanded options.port self.old.progress.step (Some (command.Start options)) ∷ [])
            → Obeys (whole moment self.old.progress calls (shown E.passed V.passed O.passed E.holds V.holds O.holds self.old.ends)) (whole moment self.new.progress (P.calls ports.new) (shown E.passed V.passed O.passed E.holds V.holds O.holds self.new.ends)) options.port result }
        ensures guest { self.new.guest ≡ self.old.guest }
        ensures printed { self.new.printed ≡ self.old.printed }
        ensures stays { Stays self.old.progress self.new.progress }
        ensures spare { self.new.progress.ending ≡ None → E.spare self.new.ends.events ≡ E.spare self.old.ends.events }
        ensures home { E.home self.new.ends.events ≡ E.home self.old.ends.events }
        ensures vm_home { V.home self.new.ends.vm_ticks ≡ V.home self.old.ends.vm_ticks }
        ensures ring { self.new.ends.ring ≡ self.old.ends.ring }
        ensures ports { P.ports_home ports.new ≡ P.ports_home ports.old }
    {
        let now = ports.now(self.progress.step());
        match self.raise_start(options, now) {
            Ok(()) => {
                let session = self.progress.next_session();
                self.progress.start(options, now);
                self.confirm(ports, options.port, Answer::Started(session))
            }
            Err(is_marked) => {
                self.end_short(ports, u32::from(is_marked), now);
                self.answer(ports, options.port, Answer::Ended)
            }
        }
    }

    // Stops a session, or ends the isolate out of memory. Returns whether the port took the answer.
    fn stop<P: IsoPorts>(&mut self, ports: &mut P, port: u8, number: SessionId) -> bool
        requires machine { IsMachine self.old.guest.machine }
        requires going { self.old.progress.ending ≡ None }
        requires room { HasRoom self.old.progress }
        requires spare { 1 ≤ E.spare self.old.ends.events }
        requires runs { HasSession (running_now self.old.progress) (what.Stop port number) }
        requires exists { port ≤ MAX_PORT }
        ensures obeys { (moment : Moment) → IsNow self.old.guest.machine self.old.progress self.old.printed.items moment
            → (calls : Option (List Call)) → P.calls ports.old ≡ with_calls calls (commanded port self.old.progress.step (Some (command.Stop number)) ∷ [])
            → Obeys (whole moment self.old.progress calls (shown E.passed V.passed O.passed E.holds V.holds O.holds self.old.ends)) (whole moment self.new.progress (P.calls ports.new) (shown E.passed V.passed O.passed E.holds V.holds O.holds self.new.ends)) port result }
        ensures guest { self.new.guest ≡ self.old.guest }
        ensures printed { self.new.printed ≡ self.old.printed }
        ensures stays { Stays self.old.progress self.new.progress }
        ensures spare { self.new.progress.ending ≡ None → E.spare self.new.ends.events ≡ E.spare self.old.ends.events }
        ensures home { E.home self.new.ends.events ≡ E.home self.old.ends.events }
        ensures vm_home { V.home self.new.ends.vm_ticks ≡ V.home self.old.ends.vm_ticks }
        ensures ring { self.new.ends.ring ≡ self.old.ends.ring }
        ensures ports { P.ports_home ports.new ≡ P.ports_home ports.old }
    {
        let now = ports.now(self.progress.step());
        let mark = self.stop_mark(number, now);
        if self.ends.put_event(self.alloc, mark).is_err() {
            self.end_short(ports, 0, now);
            return self.answer(ports, port, Answer::Ended);
        }
        self.progress.stop(port, number, now);
        self.confirm(ports, port, Answer::Stopped)
    }

    // Obeys a command, or refuses it. Returns whether the port took the answer.
    fn obey<P: IsoPorts>(&mut self, ports: &mut P, port: u8, given: Command) -> bool
        requires whole { IsIsolate self.old.guest.machine self.old.progress }
        requires not_sampled { self.old.progress.ending ≡ None → self.old.progress.is_sampled ≡ false }
        requires spare { self.old.progress.ending ≡ None → 1 ≤ E.spare self.old.ends.events }
        requires own { IsOfPort port (Some given) }
        requires exists { port ≤ MAX_PORT }
        ensures obeys { (moment : Moment) → IsNow self.old.guest.machine self.old.progress self.old.printed.items moment
            → (calls : Option (List Call)) → P.calls ports.old ≡ with_calls calls (commanded port self.old.progress.step (Some given) ∷ [])
            → Obeys (whole moment self.old.progress calls (shown E.passed V.passed O.passed E.holds V.holds O.holds self.old.ends)) (whole moment self.new.progress (P.calls ports.new) (shown E.passed V.passed O.passed E.holds V.holds O.holds self.new.ends)) port result }
        ensures guest { self.new.guest ≡ self.old.guest }
        ensures printed { self.new.printed ≡ self.old.printed }
        ensures stays { Stays self.old.progress self.new.progress }
        ensures spare { self.new.progress.ending ≡ None → E.spare self.new.ends.events ≡ E.spare self.old.ends.events }
        ensures home { E.home self.new.ends.events ≡ E.home self.old.ends.events }
        ensures vm_home { V.home self.new.ends.vm_ticks ≡ V.home self.old.ends.vm_ticks }
        ensures ring { self.new.ends.ring ≡ self.old.ends.ring }
        ensures ports { P.ports_home ports.new ≡ P.ports_home ports.old }
    {
        if let Some(answer) = self.refusal(port, given) {
            return self.answer(ports, port, answer);
        }
        match given {
            Command::Start(options) => self.start(ports, options),
            Command::Stop(number) => self.stop(ports, port, number),
        }
    }

    // Ends the isolate after a command, if it goes on and one place is left in the schedule, or the port was
    // out of memory for its answer.
    fn end_if_must<P: IsoPorts>(&mut self, ports: &mut P, is_taken: bool)
        requires place { self.old.progress.ending ≡ None → entry_count self.old.progress < self.old.progress.schedule.limit }
        requires spare { self.old.progress.ending ≡ None → 1 ≤ E.spare self.old.ends.events }
        ensures runs { (moment : Moment) (port commands : ℕ)
            → Runs (whole moment self.old.progress (P.calls ports.old) (shown E.passed V.passed O.passed E.holds V.holds O.holds self.old.ends)) (whole moment self.new.progress (P.calls ports.new) (shown E.passed V.passed O.passed E.holds V.holds O.holds self.new.ends))
            (unless_ended self.old.progress is_taken (after_command self.old.progress port commands)) (after_command self.new.progress port commands) }
        ensures room { self.new.progress.ending ≡ None → (self.new.progress ≡ self.old.progress) × HasRoom self.new.progress }
        ensures guest { self.new.guest ≡ self.old.guest }
        ensures printed { self.new.printed ≡ self.old.printed }
        ensures stays { Stays self.old.progress self.new.progress }
        ensures spare { self.new.progress.ending ≡ None → E.spare self.new.ends.events ≡ E.spare self.old.ends.events }
        ensures home { E.home self.new.ends.events ≡ E.home self.old.ends.events }
        ensures vm_home { V.home self.new.ends.vm_ticks ≡ V.home self.old.ends.vm_ticks }
        ensures ring { self.new.ends.ring ≡ self.old.ends.ring }
        ensures ports { P.ports_home ports.new ≡ P.ports_home ports.old }
    {
        if !self.progress.goes_on() {
            return;
        }
        if self.progress.is_filled() {
            self.end(ports, EndCause::Full);
        } else if !is_taken {
            self.end(ports, EndCause::Memory);
        }
    }

    // Asks a port for its next command, and obeys it. Returns whether there was one.
    fn serve_one<P: IsoPorts>(&mut self, ports: &mut P, port: u8) -> bool
        requires whole { IsIsolate self.old.guest.machine self.old.progress }
        requires not_sampled { self.old.progress.ending ≡ None → self.old.progress.is_sampled ≡ false }
        requires spare { self.old.progress.ending ≡ None → 1 ≤ E.spare self.old.ends.events }
        requires exists { port ≤ MAX_PORT }
        ensures runs { (moment : Moment) → IsNow self.old.guest.machine self.old.progress self.old.printed.items moment → (commands : ℕ) → commands < most_commands
            → Runs (whole moment self.old.progress (P.calls ports.old) (shown E.passed V.passed O.passed E.holds V.holds O.holds self.old.ends)) (whole moment self.new.progress (P.calls ports.new) (shown E.passed V.passed O.passed E.holds V.holds O.holds self.new.ends))
            (at_port port commands) (if result then after_command self.new.progress port (suc commands) else (if port == MAX_PORT then after_ports self.new.progress else at_port (suc port) commands)) }
        ensures whole { IsIsolate self.new.guest.machine self.new.progress }
        ensures guest { self.new.guest ≡ self.old.guest }
        ensures printed { self.new.printed ≡ self.old.printed }
        ensures stays { Stays self.old.progress self.new.progress }
        ensures spare { self.new.progress.ending ≡ None → E.spare self.new.ends.events ≡ E.spare self.old.ends.events }
        ensures home { E.home self.new.ends.events ≡ E.home self.old.ends.events }
        ensures vm_home { V.home self.new.ends.vm_ticks ≡ V.home self.old.ends.vm_ticks }
        ensures ring { self.new.ends.ring ≡ self.old.ends.ring }
        ensures ports { P.ports_home ports.new ≡ P.ports_home ports.old }
    {
        match ports.command(port, self.progress.step()) {
            Some(given) => {
                let is_taken = self.obey(ports, port, given);
                self.end_if_must(ports, is_taken);
                true
            }
            None => false,
        }
    }

    // Takes the commands of a port, after this many of all ports, and returns their number then.
    fn serve<P: IsoPorts>(&mut self, ports: &mut P, port: u8, commands: u32) -> u32
        requires few { commands < most_commands }
        requires whole { IsIsolate self.old.guest.machine self.old.progress }
        requires not_sampled { self.old.progress.ending ≡ None → self.old.progress.is_sampled ≡ false }
        requires spare { self.old.progress.ending ≡ None → 1 ≤ E.spare self.old.ends.events }
        requires exists { port ≤ MAX_PORT }
        ensures runs { (moment : Moment) → IsNow self.old.guest.machine self.old.progress self.old.printed.items moment
            → Runs (whole moment self.old.progress (P.calls ports.old) (shown E.passed V.passed O.passed E.holds V.holds O.holds self.old.ends)) (whole moment self.new.progress (P.calls ports.new) (shown E.passed V.passed O.passed E.holds V.holds O.holds self.new.ends))
            (at_port port commands) (if result == most_commands then after_ports self.new.progress else (if port == MAX_PORT then after_ports self.new.progress else at_port (suc port) result)) }
        ensures most { result ≤ most_commands }
        ensures whole { IsIsolate self.new.guest.machine self.new.progress }
        ensures guest { self.new.guest ≡ self.old.guest }
        ensures printed { self.new.printed ≡ self.old.printed }
        ensures stays { Stays self.old.progress self.new.progress }
        ensures spare { self.new.progress.ending ≡ None → E.spare self.new.ends.events ≡ E.spare self.old.ends.events }
        ensures home { E.home self.new.ends.events ≡ E.home self.old.ends.events }
        ensures vm_home { V.home self.new.ends.vm_ticks ≡ V.home self.old.ends.vm_ticks }
        ensures ring { self.new.ends.ring ≡ self.old.ends.ring }
        ensures ports { P.ports_home ports.new ≡ P.ports_home ports.old }
    {
        for taken in commands..MOST_COMMANDS {
            if !self.serve_one(ports, port) {
                return taken;
            }
        }
        MOST_COMMANDS
    }

    // Takes the commands of all ports, one port after another, as many as a turn takes.
    pub(crate) fn take_commands<P: IsoPorts>(&mut self, ports: &mut P)
        requires whole { IsIsolate self.old.guest.machine self.old.progress }
        requires not_sampled { self.old.progress.ending ≡ None → self.old.progress.is_sampled ≡ false }
        requires spare { self.old.progress.ending ≡ None → 1 ≤ E.spare self.old.ends.events }
        ensures runs { (moment : Moment) → IsNow self.old.guest.machine self.old.progress self.old.printed.items moment
            → Runs (whole moment self.old.progress (P.calls ports.old) (shown E.passed V.passed O.passed E.holds V.holds O.holds self.old.ends)) (whole moment self.new.progress (P.calls ports.new) (shown E.passed V.passed O.passed E.holds V.holds O.holds self.new.ends))
            (at_port 0 0) (after_ports self.new.progress) }
        ensures whole { IsIsolate self.new.guest.machine self.new.progress }
        ensures guest { self.new.guest ≡ self.old.guest }
        ensures printed { self.new.printed ≡ self.old.printed }
        ensures stays { Stays self.old.progress self.new.progress }
        ensures spare { self.new.progress.ending ≡ None → E.spare self.new.ends.events ≡ E.spare self.old.ends.events }
        ensures home { E.home self.new.ends.events ≡ E.home self.old.ends.events }
        ensures vm_home { V.home self.new.ends.vm_ticks ≡ V.home self.old.ends.vm_ticks }
        ensures ring { self.new.ends.ring ≡ self.old.ends.ring }
        ensures ports { P.ports_home ports.new ≡ P.ports_home ports.old }
    {
        let mut commands = 0u32;
        for port in 0..=MAX_PORT {
            commands = self.serve(ports, port, commands);
            if commands == MOST_COMMANDS {
                return;
            }
        }
    }
}
