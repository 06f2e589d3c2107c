// The forms of the lines of a schedule's text.
ghost use Rattle.std.specs.Prelude.{◌≡◌, ◌≤◌, Ok};
ghost use Rattle.prof_base.specs.declared.interval.TheConstants.{MAX_INTERVAL};
ghost use Rattle.prof_lines.specs.Answers.{Gives};
ghost use Rattle.run_schedule.specs.declared.schedule.What.TheVariants.{Start};
ghost use Rattle.record_text.specs.ScheduleForms.{cause_of, head_at, port_at, start_of, start_at, stop_at, ending_at, alone_at, what_of, entry_at};

use crate::rule::Rule;
use crate::schedule_line::ScheduleHead;
use crate::words::{bound_of, mode_of, session, time};
use code_event::{Mode, Options};
use prof_base::{MAX_INTERVAL, Micros, SessionId};
use prof_lines::{Cause, LineFault, end, fixed, number, word};
use run_schedule::{
    EndCause, MAX_BUDGET, MAX_ENTRIES, MAX_PORT, MAX_RING, MIN_ENTRIES, ScheduleEntry, What,
};

fn cause_of(word: &[u8]) -> Result<EndCause, LineFault<Rule>>
    ensures { Gives (λ cause. cause) result (cause_of word.now) }
{
    if word == b"halt".as_slice() {
        Ok(EndCause::Halt)
    } else if word == b"overflow".as_slice() {
        Ok(EndCause::Overflow)
    } else if word == b"offend".as_slice() {
        Ok(EndCause::OffEnd)
    } else if word == b"budget".as_slice() {
        Ok(EndCause::Budget)
    } else if word == b"full".as_slice() {
        Ok(EndCause::Full)
    } else if word == b"memory".as_slice() {
        Ok(EndCause::Memory)
    } else {
        Err(LineFault::At(Cause::Word))
    }
}

/// What the first line says.
#[tactic(auto, unfolding(crate::specs::ScheduleForms::head_at))]
pub(crate) fn head(bytes: &[u8]) -> Result<ScheduleHead, LineFault<Rule>>
    ensures { Gives (λ head. head) result (head_at bytes.now) }
{
    let rest = fixed(b"schedule", bytes)?;
    let rest = fixed(b"1", rest)?;
    let (base, rest) = number(rest, 1, u64::from(MAX_INTERVAL))?;
    let (ring, rest) = number(rest, 1, u64::from(MAX_RING))?;
    let (budget, rest) = number(rest, 1, MAX_BUDGET)?;
    let (limit, rest) = number(rest, u64::from(MIN_ENTRIES), u64::from(MAX_ENTRIES))?;
    end(rest)?;
    Ok(ScheduleHead {
        base: base as u32,
        ring: ring as u32,
        budget,
        limit: limit as u32,
    })
}

fn port(bytes: &[u8]) -> Result<(u8, &[u8]), LineFault<Rule>>
    ensures { Gives (λ x. (x.0, x.1.now)) result (port_at bytes.now) }
{
    let (port, rest) = number(bytes, 0, u64::from(MAX_PORT))?;
    Ok((port as u8, rest))
}

fn options(port: u8, interval: u32, mode: Mode, max_samples: Option<u32>) -> Options
    requires low { 1 ≤ interval }
    requires high { interval ≤ MAX_INTERVAL }
    ensures { start_of port interval mode max_samples ≡ Ok (Start result) }
{
    Options {
        port,
        interval,
        mode,
        max_samples,
    }
}

#[tactic(auto, unfolding(crate::specs::ScheduleForms::start_at))]
fn start(bytes: &[u8]) -> Result<What, LineFault<Rule>>
    ensures { Gives (λ what. what) result (start_at bytes.now) }
{
    let (port, rest) = port(bytes)?;
    let (interval, rest) = number(rest, 1, u64::from(MAX_INTERVAL))?;
    let (mode, rest) = word(rest)?;
    let mode = mode_of(mode)?;
    let (most, rest) = word(rest)?;
    let max_samples = bound_of(most, 0)?;
    end(rest)?;
    Ok(What::Start(options(port, interval as u32, mode, max_samples)))
}

#[tactic(auto, unfolding(crate::specs::ScheduleForms::stop_at))]
fn stop(bytes: &[u8]) -> Result<What, LineFault<Rule>>
    ensures { Gives (λ what. what) result (stop_at bytes.now) }
{
    let (port, rest) = port(bytes)?;
    let (session, rest) = session(rest)?;
    end(rest)?;
    Ok(What::Stop {
        port,
        session: SessionId(session),
    })
}

#[tactic(auto, unfolding(crate::specs::ScheduleForms::ending_at))]
fn ending(bytes: &[u8]) -> Result<What, LineFault<Rule>>
    ensures { Gives (λ what. what) result (ending_at bytes.now) }
{
    let (cause, rest) = word(bytes)?;
    let cause = cause_of(cause)?;
    end(rest)?;
    Ok(What::End(cause))
}

// What happened, where no further word says more of it.
fn alone(what: What, bytes: &[u8]) -> Result<What, LineFault<Rule>>
    ensures { Gives (λ what. what) result (alone_at what bytes.now) }
{
    end(bytes)?;
    Ok(what)
}

fn what_of(word: &[u8], bytes: &[u8]) -> Result<What, LineFault<Rule>>
    ensures { Gives (λ what. what) result (what_of word.now bytes.now) }
{
    if word == b"sampled".as_slice() {
        alone(What::Sampled, bytes)
    } else if word == b"dropped".as_slice() {
        alone(What::Dropped, bytes)
    } else if word == b"start".as_slice() {
        start(bytes)
    } else if word == b"stop".as_slice() {
        stop(bytes)
    } else if word == b"end".as_slice() {
        ending(bytes)
    } else {
        Err(LineFault::At(Cause::Word))
    }
}

/// A line after the first.
#[tactic(auto, unfolding(crate::specs::ScheduleForms::entry_at))]
pub(crate) fn entry(bytes: &[u8]) -> Result<ScheduleEntry, LineFault<Rule>>
    ensures { Gives (λ entry. entry) result (entry_at bytes.now) }
{
    let (step, rest) = number(bytes, 0, MAX_BUDGET)?;
    let (time, rest) = time(rest)?;
    let (word, rest) = word(rest)?;
    let what = what_of(word, rest)?;
    Ok(ScheduleEntry {
        step,
        time: Micros::new(time),
        what,
    })
}
