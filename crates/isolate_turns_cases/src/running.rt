// An isolate that runs to its end, and one turn more.
ghost use Rattle.std.specs.Prelude.{◌≤◌, IfOk};
ghost use Rattle.isolate_turns_cases.specs.Ready.{IsReadyToTurn};

use crate::log::Log;
use crate::out_of_memory;
use crate::ports::CasePorts;
use crate::queue::RefusingQueue;
use crate::ring::CountingRing;
use crate::setting::{config_of, is_held, numbers_after};
use crate::taken::{CaseEnds, Taken};
use code_event::{EventRecord, Tick};
use guest_program::Program;
use isolate_turns::{Ends, IsoTurn, Isolate};
use pipe_core::PlainRing;
use run_schedule::{EndCause, Schedule};
use std::alloc::{AllocError, Global};

/// The isolate of a case.
pub(crate) type CaseIsolate = Isolate<
    RefusingQueue<EventRecord>,
    RefusingQueue<Tick>,
    CountingRing,
>;

/// What a run leaves.
#[derive(Drop)]
pub(crate) struct Outcome {
    pub(crate) schedule: Schedule,
    pub(crate) log: Log,
    pub(crate) taken: Taken,
    pub(crate) printed: Vec<u8>,
    pub(crate) readings: u64,
    pub(crate) fulls: u64,
}

// What goes on beside an isolate: its ports, what was taken out, and the lines of the turns.
#[derive(Drop)]
struct Beside {
    ports: CasePorts,
    taken: Taken,
    log: Log,
    takes: Vec<u64>,
    is_held: bool,
}

// The greatest number of turns.
const MOST_TURNS: u64 = 10_000_000;

/// Returns the word of a cause.
pub(crate) fn cause_word(why: EndCause) -> &'static str {
    match why {
        EndCause::Halt => "halt",
        EndCause::Overflow => "overflow",
        EndCause::OffEnd => "offend",
        EndCause::Budget => "budget",
        EndCause::Full => "full",
        EndCause::Memory => "memory",
    }
}

// Makes a queue that refuses the items that the line with a word names.
fn new_queue<T>(alloc: Global, lines: &str, word: &str) -> Result<RefusingQueue<T>, AllocError>
    ensures spare { IfOk result (λ q. 1 ≤ q.queue.spare) }
{
    let refused = numbers_after(alloc, lines, word)?.unwrap_or(Vec::new(alloc));
    RefusingQueue::new(alloc, refused).map_err(out_of_memory)
}

// Makes the ends of new queues.
fn new_ends(alloc: Global, lines: &str) -> Result<CaseEnds, AllocError>
    ensures spare { IfOk result (λ ends. 1 ≤ ends.events.queue.spare) }
{
    let ring = PlainRing::new(alloc, config_of(lines).ring).map_err(out_of_memory)?;
    Ok(Ends {
        events: new_queue(alloc, lines, "lose event ")?,
        vm_ticks: new_queue(alloc, lines, "lose tick ")?,
        ring: CountingRing::new(ring),
    })
}

// Opens the isolate of a case.
fn open(alloc: Global, lines: &str, program: Program) -> Result<CaseIsolate, AllocError>
    ensures ready { IfOk result IsReadyToTurn }
{
    let ends = new_ends(alloc, lines)?;
    Isolate::new(alloc, program, config_of(lines), ends).map_err(out_of_memory)
}

// Takes a sample before a turn, where one may be taken, and returns the word of its answer.
fn sample(ports: &mut CasePorts, isolate: &mut CaseIsolate, turn: u64) -> &'static str
    requires ready { IsReadyToTurn isolate.old }
    ensures ready { IsReadyToTurn isolate.new }
{
    if !isolate.may_take_sample() {
        return "take: no";
    }
    let now = ports.read(turn);
    if isolate.take_sample(now) {
        "take: in"
    } else {
        "take: full"
    }
}

// Takes out what the queues of an isolate hold.
fn drain(taken: &mut Taken, isolate: &mut CaseIsolate) -> Result<(), AllocError>
    requires ready { IsReadyToTurn isolate.old }
    ensures ready { IsReadyToTurn isolate.new }
{
    taken.take_all(isolate.ends())
}

impl Beside {
    // Makes it for the lines of a case.
    fn new(alloc: Global, lines: &str) -> Result<Beside, AllocError> {
        Ok(Beside {
            ports: CasePorts::new(alloc, lines)?,
            taken: Taken::new(alloc),
            log: Log::new(alloc),
            takes: numbers_after(alloc, lines, "take ")?.unwrap_or(Vec::new(alloc)),
            is_held: is_held(lines),
        })
    }

    // Takes the sample that is to be taken before a turn, if there is one.
    fn sample_before(&mut self, isolate: &mut CaseIsolate, turn: u64) -> Result<(), AllocError>
        requires ready { IsReadyToTurn isolate.old }
        ensures ready { IsReadyToTurn isolate.new }
    {
        if !self.takes.as_slice().contains(&turn) {
            return Ok(());
        }
        let word = sample(&mut self.ports, isolate, turn);
        self.ports.write(word)
    }

    // Writes the line of a turn.
    fn write_line(&mut self, turn: u64, answer: IsoTurn) -> Result<(), AllocError> {
        let mut words = self.ports.turned(turn)?;
        if let IsoTurn::Ended(why) = answer {
            words.push_str(" -> ")?;
            words.push_str(cause_word(why))?;
        }
        self.log.add(turn, words)
    }

    // Does a turn, and returns whether the isolate has ended.
    fn turn(&mut self, isolate: &mut CaseIsolate, turn: u64) -> Result<bool, AllocError>
        requires ready { IsReadyToTurn isolate.old }
        ensures ready { IsReadyToTurn isolate.new }
    {
        self.sample_before(isolate, turn)?;
        let answer = isolate.turn(&mut self.ports);
        self.write_line(turn, answer)?;
        if !self.is_held {
            drain(&mut self.taken, isolate)?;
        }
        Ok(answer != IsoTurn::Ran)
    }

    // Does turns until the isolate has ended, and one more.
    fn turns(&mut self, isolate: &mut CaseIsolate) -> Result<(), AllocError>
        requires ready { IsReadyToTurn isolate.old }
        ensures ready { IsReadyToTurn isolate.new }
    {
        let mut has_ended = false;
        for turn in 0..MOST_TURNS {
            if self.turn(isolate, turn)? {
                if has_ended {
                    return Ok(());
                }
                has_ended = true;
            }
        }
        Ok(())
    }
}

/// Runs the isolate of a case.
pub(crate) fn run(alloc: Global, lines: &str, program: Program) -> Result<Outcome, AllocError> {
    let mut beside = Beside::new(alloc, lines)?;
    let mut isolate = open(alloc, lines, program)?;
    beside.turns(&mut isolate)?;
    beside.log.finish_line()?;
    let (schedule, printed, mut ends) = isolate.close();
    let Beside {
        ports,
        mut taken,
        log,
        ..
    } = beside;
    taken.take_all(&mut ends)?;
    Ok(Outcome {
        schedule,
        log,
        taken,
        printed,
        readings: ports.readings(),
        fulls: ends.ring.fulls(),
    })
}
