// The ports of the step clock.
ghost use Rattle.std.specs.Prelude.{◌≡◌, ◌≤◌, ◌++◌, [], ◌∷◌, ◌&&◌, ◌||◌, ◌==◌, not, map, true, false, Some, None, if◌then◌else◌};
ghost use Rattle.prof_base.specs.declared.interval.TheConstants.{MAX_INTERVAL};
ghost use Rattle.code_event.specs.declared.event.Command.TheVariants as command;
ghost use Rattle.port_calls.specs.PortCalls.{call_of};
ghost use Rattle.step_clock.specs.ClockCalls.{AreByClock, as_answered, asks_port, begun_on};
ghost use Rattle.step_clock.specs.StepClock.{IsWholeRecording, is_asked};

use code_event::{Answer, Command, Mode, Options};
use history::History;
use isolate_ends::IsoPorts;
use port_calls::PortCall;
use prof_base::{MAX_INTERVAL, Memory};
use std::alloc::Global;

/// The ports of a run on the step clock.
#[derive(Drop)]
pub struct StepClock {
    /// The recording that port 0 starts: all samples at this interval.
    pub recording: Options,
    has_begun: bool,
    pub history: History<PortCall>,
    pub ghost whole: { IsWholeRecording recording.interval recording },
    pub ghost begun: { has_begun ≡ begun_on false (map call_of history.items) },
    pub ghost by_clock: { AreByClock recording false (map call_of history.items) },
}

impl StepClock {
    /// Makes the ports of a run that samples at this interval, in steps, before any call.
    pub fn new(every: u32) -> StepClock
        requires low { 1 ≤ every }
        requires high { every ≤ MAX_INTERVAL }
        ensures interval { result.recording.interval ≡ every }
        ensures new { result.history.items ≡ [] }
    {
        StepClock {
            recording: Options {
                port: 0,
                interval: every,
                mode: Mode::Leaf,
                max_samples: None,
            },
            has_begun: false,
            history: History::new(),
        }
    }

    // Adds a call to the history, with which the recording has begun or not.
    fn note(&mut self, call: PortCall, has_begun: bool)
        requires by_clock { call_of call ≡ as_answered self.old.recording self.old.has_begun (call_of call) }
        requires begun { has_begun ≡ (self.old.has_begun || asks_port (call_of call)) }
        ensures recording { self.new.recording ≡ self.old.recording }
        ensures calls { map call_of self.new.history.items ≡ map call_of self.old.history.items ++ call_of call ∷ [] }
    {
        *self = StepClock {
            recording: self.recording,
            has_begun,
            history: self.history.with(&call),
        };
    }
}

impl IsoPorts for StepClock {
    ghost calls = { λ c. Some (map call_of c.history.items) };

    ghost ports_home = { λ c. c.recording.interval ∷ [] };

    fn command(&mut self, port: u8, step: u64) -> Option<Command> {
        let given = if port == 0 && !self.has_begun {
            Some(Command::Start(self.recording))
        } else {
            None
        };
        let has_begun = self.has_begun || port == 0;
        self.note(PortCall::Commanded { port, step, given }, has_begun);
        given
    }

    fn answer(
        &mut self,
        _alloc: Global,
        port: u8,
        answer: Answer,
        place: u32,
    ) -> Result<(), Memory> {
        let call = PortCall::Answered {
            port,
            answer,
            place,
            is_taken: true,
        };
        let has_begun = self.has_begun;
        self.note(call, has_begun);
        Ok(())
    }

    fn asked(&mut self, step: u64) -> bool {
        let result = step != 0 && step % u64::from(self.recording.interval) == 0;
        let has_begun = self.has_begun;
        self.note(PortCall::Asked { step, result }, has_begun);
        result
    }

    fn now(&mut self, step: u64) -> u64 {
        let has_begun = self.has_begun;
        self.note(PortCall::Read { step, now: step }, has_begun);
        step
    }

    fn set_interval(&mut self, interval: u32) {
        let has_begun = self.has_begun;
        self.note(PortCall::Told { interval }, has_begun);
    }
}
