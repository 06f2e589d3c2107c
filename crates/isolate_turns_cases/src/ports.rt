// The ports of a case, which write down what an isolate asks and tells.
ghost use Rattle.std.specs.Prelude.{[], None};

use crate::setting::{Order, numbers_after, orders_of};
use code_event::{Answer, Command, Options};
use isolate_turns::IsoPorts;
use prof_base::Memory;
use std::alloc::{AllocError, Global};
use std::mem;

/// The ports of a case.
#[derive(Drop)]
pub(crate) struct CasePorts {
    alloc: Global,
    orders: Vec<Order>,
    /// The numbers of the answers, from 1, that the ports do not take.
    refused: Vec<u64>,
    answers: u64,
    /// The steps at which samples are asked for, or none where the interval decides.
    asks: Option<Vec<u64>>,
    interval: u32,
    /// The readings of the clock, of which the last is given again and again; or none where it reads the step.
    clock: Option<Vec<u64>>,
    readings: u64,
    /// The words of this turn, and the step that they are at.
    words: String,
    step: Option<u64>,
}

impl CasePorts {
    /// Makes the ports that the lines of a case describe.
    pub(crate) fn new(alloc: Global, lines: &str) -> Result<CasePorts, AllocError> {
        Ok(CasePorts {
            alloc,
            orders: orders_of(alloc, lines)?,
            refused: numbers_after(alloc, lines, "refuse ")?.unwrap_or(Vec::new(alloc)),
            answers: 0,
            asks: numbers_after(alloc, lines, "ask ")?,
            interval: 0,
            clock: numbers_after(alloc, lines, "clock ")?,
            readings: 0,
            words: String::new(alloc),
            step: None,
        })
    }

    /// Returns the number of readings so far.
    pub(crate) fn readings(&self) -> u64 {
        self.readings
    }

    /// Reads the clock at a step.
    pub(crate) fn read(&mut self, step: u64) -> u64 {
        let place = self.readings;
        self.readings = self.readings.saturating_add(1);
        let Some(clock) = &self.clock else {
            return step;
        };
        match usize::try_from(place) {
            Ok(place) if place < clock.len() => clock[place],
            _ => clock.last().copied().unwrap_or(step),
        }
    }

    /// Adds a word to the line of this turn.
    pub(crate) fn write(&mut self, word: &str) -> Result<(), AllocError> {
        let is_one_of_many = word == "." && self.words.as_str().ends_with('.');
        if !is_one_of_many {
            self.words.push(' ')?;
        }
        self.words.push_str(word)
    }

    // Adds a word, or less of it when out of memory.
    fn note(&mut self, word: Result<String, AllocError>) {
        if let Ok(word) = word {
            let _written = self.write(&word).is_ok();
        }
    }

    // Keeps the step of a call, and writes a mark where it is not that of the turn's other calls.
    fn see(&mut self, step: u64) {
        match self.step {
            None => self.step = Some(step),
            Some(seen) if seen == step => {}
            Some(_) => self.note(String::from_str(self.alloc, "!")),
        }
    }

    /// Returns the words of this turn, after the turn's step where that is not its number, and begins a new
    /// line.
    pub(crate) fn turned(&mut self, turn: u64) -> Result<String, AllocError> {
        let words = mem::replace(&mut self.words, String::new(self.alloc));
        match mem::replace(&mut self.step, None) {
            Some(step) if step != turn => format!(in self.alloc; " at {step}:{words}"),
            _ => format!(in self.alloc; ":{words}"),
        }
    }

    // Returns the place of a port's next command.
    fn place_of(&self, port: u8, step: u64) -> Option<usize> {
        for (at, order) in self.orders.iter().enumerate() {
            if order.port == port && order.step <= step {
                return Some(at);
            }
        }
        None
    }

    // Takes the next command of a port.
    fn order_at(&mut self, port: u8, step: u64) -> Option<Order> {
        let at = self.place_of(port, step)?;
        if at < self.orders.len() {
            Some(self.orders.remove(at))
        } else {
            None
        }
    }

    // Returns whether a sample is asked for at a step.
    fn is_asked(&self, step: u64) -> bool {
        match &self.asks {
            Some(steps) => steps.as_slice().contains(&step),
            None => step >= 1 && step.checked_rem(u64::from(self.interval)) == Some(0),
        }
    }

    // Returns the words of an answer.
    fn answer_words(
        &self,
        port: u8,
        answer: Answer,
        place: u32,
        is_taken: bool,
    ) -> Result<String, AllocError> {
        let mark = if is_taken { "" } else { " refused" };
        match answer {
            Answer::Started(session) => {
                format!(in self.alloc; "{port}=started {} at {place}{mark}", session.0)
            }
            Answer::TooMany => format!(in self.alloc; "{port}=too many at {place}{mark}"),
            Answer::Stopped => format!(in self.alloc; "{port}=stopped at {place}{mark}"),
            Answer::NoSession => format!(in self.alloc; "{port}=no session at {place}{mark}"),
            Answer::Ended => format!(in self.alloc; "{port}=ended at {place}{mark}"),
        }
    }

    // Writes a command down.
    fn note_command(&mut self, port: u8, command: Option<Command>) {
        let word = match command {
            None => String::from_str(self.alloc, "."),
            Some(Command::Start(options)) => {
                format!(in self.alloc; "{port}:start {}", options.interval)
            }
            Some(Command::Stop(session)) => format!(in self.alloc; "{port}:stop {}", session.0),
        };
        self.note(word);
    }
}

impl IsoPorts for CasePorts {
    ghost calls = { λ _. None };

    ghost ports_home = { λ _. [] };

    fn command(&mut self, port: u8, step: u64) -> Option<Command> {
        self.see(step);
        let command = match self.order_at(port, step) {
            None => None,
            Some(
                Order {
                    command: Command::Start(options),
                    ..
                },
            ) => Some(Command::Start(Options {
                port,
                interval: options.interval,
                mode: options.mode,
                max_samples: options.max_samples,
            })),
            Some(
                Order {
                    command: Command::Stop(session),
                    ..
                },
            ) => Some(Command::Stop(session)),
        };
        self.note_command(port, command);
        command
    }

    fn answer(
        &mut self,
        _alloc: Global,
        port: u8,
        answer: Answer,
        place: u32,
    ) -> Result<(), Memory> {
        self.answers = self.answers.saturating_add(1);
        let is_taken = !self.refused.as_slice().contains(&self.answers);
        let words = self.answer_words(port, answer, place, is_taken);
        self.note(words);
        if is_taken { Ok(()) } else { Err(Memory) }
    }

    fn asked(&mut self, step: u64) -> bool {
        self.see(step);
        let is_asked = self.is_asked(step);
        let word = if is_asked { "asked yes" } else { "asked no" };
        self.note(String::from_str(self.alloc, word));
        is_asked
    }

    fn now(&mut self, step: u64) -> u64 {
        self.read(step)
    }

    fn set_interval(&mut self, interval: u32) {
        self.interval = interval;
        self.note(format!(in self.alloc; "told {interval}"));
    }
}
