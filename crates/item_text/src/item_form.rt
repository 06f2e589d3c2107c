// The forms of the lines of an item list's text.
ghost use Rattle.std.specs.Prelude.{◌≡◌, ◌-◌, ◌^◌, ◌≤◌, IfOk};
ghost use Rattle.prof_lines.specs.Answers.{Gives};
ghost use Rattle.prof_lines.specs.Words.{number_at, numbers_at};
ghost use Rattle.code_event.specs.declared.tick.TheConstants.Frames.{MAX_LEN};
ghost use Rattle.item_text.specs.ItemLine.{MAX_ADDRESS, IsItemLine};
ghost use Rattle.item_text.specs.ItemForms.{state_of, flag_of, numbered, only_of, address_at, line_at, index_at};
ghost use Rattle.item_text.specs.ItemForms.{head_at, create_at, entry_at, no_parent_at, site_at, parent_at, unit_at, slot_at, move_at, reason_at, no_opt_at, deopt_at, delete_at, start_at, stop_at, finish_at, event_of, tick_at, item_of, item_at};

use crate::item_line::{ItemLine, LineEvent, TickLine};
use code_event::{Entry, Frames, Site, Slot, Unit, VmState};
use prof_base::{FuncId, MAX_INTERVAL, MAX_ROUNDED, Micros, SessionId, Text};
use prof_lines::{Cause, LineFault, end, fixed, is_end, number, number_of, quoted, word};
use record_text::{Rule, bound_of, mode_of, session, time};
use run_schedule::MAX_PORT;
use std::alloc::Global;

fn state_of(word: &[u8]) -> Result<VmState, LineFault<Rule>>
    ensures { Gives (λ state. state) result (state_of word.now) }
{
    if word == b"js".as_slice() {
        Ok(VmState::Js)
    } else if word == b"idle".as_slice() {
        Ok(VmState::Idle)
    } else if word == b"native".as_slice() {
        Ok(VmState::Native)
    } else if word == b"gc".as_slice() {
        Ok(VmState::Gc)
    } else {
        Err(LineFault::At(Cause::Word))
    }
}

fn flag_of(on: &[u8], off: &[u8], word: &[u8]) -> Result<bool, LineFault<Rule>>
    ensures { Gives (λ flag. flag) result (flag_of on.now off.now word.now) }
{
    if word == on {
        Ok(true)
    } else if word == off {
        Ok(false)
    } else {
        Err(LineFault::At(Cause::Word))
    }
}

fn only_of(word: &[u8]) -> Result<Option<SessionId>, LineFault<Rule>>
    ensures { Gives (λ only. only) result (only_of word.now) }
{
    match bound_of(word, 1)? {
        None => Ok(None),
        Some(number) => Ok(Some(SessionId(number))),
    }
}

fn address(bytes: &[u8]) -> Result<(u32, &[u8]), LineFault<Rule>>
    ensures { Gives (λ x. (x.0, x.1.now)) result (address_at bytes.now) }
{
    let (address, rest) = number(bytes, 0, 4_294_967_295)?;
    Ok((address as u32, rest))
}

// A number of a script's lines or columns.
fn line(bytes: &[u8]) -> Result<(u32, &[u8]), LineFault<Rule>>
    ensures { Gives (λ x. (x.0, x.1.now)) result (line_at bytes.now) }
{
    let (line, rest) = number(bytes, 0, 1_000_000)?;
    Ok((line as u32, rest))
}

// The number of a unit, or an index in a body.
fn index(bytes: &[u8]) -> Result<(u16, &[u8]), LineFault<Rule>>
    ensures { Gives (λ x. (x.0, x.1.now)) result (index_at bytes.now) }
{
    let (index, rest) = number(bytes, 0, 4_095)?;
    Ok((index as u16, rest))
}

/// The base that the first line gives.
#[tactic(auto, unfolding(crate::specs::ItemForms::head_at))]
pub(crate) fn head(bytes: &[u8]) -> Result<u32, LineFault<Rule>>
    ensures base { Gives (λ base. base) result (head_at bytes.now) }
{
    let rest = fixed(b"items", bytes)?;
    let rest = fixed(b"1", rest)?;
    let (base, rest) = number(rest, 1, u64::from(MAX_INTERVAL))?;
    end(rest)?;
    Ok(base as u32)
}

#[tactic(auto, unfolding(crate::specs::ItemForms::create_at))]
fn create(bytes: &[u8]) -> Result<ItemLine, LineFault<Rule>>
    ensures { Gives (λ line. line) result (create_at bytes.now) }
{
    let (start, rest) = address(bytes)?;
    end(rest)?;
    Ok(ItemLine::Create(start))
}

#[tactic(auto, unfolding(crate::specs::ItemForms::entry_at))]
fn entry(alloc: Global, bytes: &[u8]) -> Result<(Entry, &[u8]), LineFault<Rule>>
    ensures { Gives (λ x. (x.0, x.1.now)) result (entry_at bytes.now) }
{
    let (name, rest) = quoted(alloc, bytes)?;
    let (url, rest) = quoted(alloc, rest)?;
    let (script, rest) = number(rest, 0, 4_294_967_295)?;
    let (begins, rest) = line(rest)?;
    let (column, rest) = line(rest)?;
    let entry = Entry {
        name,
        url,
        script: script as u32,
        line: begins,
        column,
    };
    Ok((entry, rest))
}

#[tactic(auto, unfolding(crate::specs::ItemForms::no_parent_at))]
fn no_parent(bytes: &[u8]) -> Result<Option<Site>, LineFault<Rule>>
    ensures { Gives (λ parent. parent) result (no_parent_at bytes.now) }
{
    let rest = fixed(b"-", bytes)?;
    let rest = fixed(b"-", rest)?;
    let rest = fixed(b"-", rest)?;
    end(rest)?;
    Ok(None)
}

#[tactic(auto, unfolding(crate::specs::ItemForms::site_at))]
fn site(bytes: &[u8]) -> Result<Option<Site>, LineFault<Rule>>
    ensures { Gives (λ parent. parent) result (site_at bytes.now) }
{
    let (unit, rest) = index(bytes)?;
    let (index, rest) = index(rest)?;
    let (line, rest) = line(rest)?;
    end(rest)?;
    Ok(Some(Site { unit, index, line }))
}

fn parent(first: bool, bytes: &[u8]) -> Result<Option<Site>, LineFault<Rule>>
    ensures { Gives (λ parent. parent) result (parent_at first bytes.now) }
{
    if first { no_parent(bytes) } else { site(bytes) }
}

#[tactic(auto, unfolding(crate::specs::ItemForms::unit_at))]
fn unit(alloc: Global, first: bool, bytes: &[u8]) -> Result<ItemLine, LineFault<Rule>>
    ensures { Gives (λ line. line) result (unit_at first bytes.now) }
{
    let (func, rest) = number(bytes, 0, 255)?;
    let (entry, rest) = entry(alloc, rest)?;
    let parent = parent(first, rest)?;
    Ok(ItemLine::Unit(Unit {
        func: FuncId(func as u16),
        entry,
        parent,
    }))
}

#[tactic(auto, unfolding(crate::specs::ItemForms::slot_at))]
fn slot(bytes: &[u8]) -> Result<ItemLine, LineFault<Rule>>
    ensures { Gives (λ line. line) result (slot_at bytes.now) }
{
    let (unit, rest) = index(bytes)?;
    let (index, rest) = index(rest)?;
    let (line, rest) = line(rest)?;
    end(rest)?;
    Ok(ItemLine::Slot(Slot { unit, index, line }))
}

#[tactic(auto, unfolding(crate::specs::ItemForms::move_at))]
fn moved(bytes: &[u8]) -> Result<LineEvent, LineFault<Rule>>
    ensures { Gives (λ event. event) result (move_at bytes.now) }
{
    let (from, rest) = address(bytes)?;
    let (to, rest) = address(rest)?;
    end(rest)?;
    Ok(LineEvent::Move { from, to })
}

#[tactic(auto, unfolding(crate::specs::ItemForms::reason_at))]
fn reason(alloc: Global, bytes: &[u8]) -> Result<(u32, Text), LineFault<Rule>>
    ensures { Gives (λ x. (x.0, x.1)) result (reason_at bytes.now) }
{
    let (start, rest) = address(bytes)?;
    let (reason, rest) = quoted(alloc, rest)?;
    end(rest)?;
    Ok((start, reason))
}

fn no_opt(alloc: Global, bytes: &[u8]) -> Result<LineEvent, LineFault<Rule>>
    ensures { Gives (λ event. event) result (no_opt_at bytes.now) }
{
    let (start, reason) = reason(alloc, bytes)?;
    Ok(LineEvent::NoOpt { start, reason })
}

fn deopt(alloc: Global, bytes: &[u8]) -> Result<LineEvent, LineFault<Rule>>
    ensures { Gives (λ event. event) result (deopt_at bytes.now) }
{
    let (start, reason) = reason(alloc, bytes)?;
    Ok(LineEvent::Deopt { start, reason })
}

#[tactic(auto, unfolding(crate::specs::ItemForms::delete_at))]
fn delete(bytes: &[u8]) -> Result<LineEvent, LineFault<Rule>>
    ensures { Gives (λ event. event) result (delete_at bytes.now) }
{
    let (start, rest) = address(bytes)?;
    end(rest)?;
    Ok(LineEvent::Delete { start })
}

#[tactic(auto, unfolding(crate::specs::ItemForms::start_at))]
fn start(bytes: &[u8]) -> Result<LineEvent, LineFault<Rule>>
    ensures { Gives (λ event. event) result (start_at bytes.now) }
{
    let (session, rest) = session(bytes)?;
    let (port, rest) = number(rest, 0, u64::from(MAX_PORT))?;
    let (interval, rest) = number(rest, 1, u64::from(MAX_INTERVAL))?;
    let (mode, rest) = word(rest)?;
    let mode = mode_of(mode)?;
    let (most, rest) = word(rest)?;
    let max_samples = bound_of(most, 0)?;
    let (time, rest) = time(rest)?;
    end(rest)?;
    Ok(LineEvent::Start {
        session: SessionId(session),
        port: port as u8,
        interval: interval as u32,
        mode,
        max_samples,
        time: Micros::new(time),
    })
}

#[tactic(auto, unfolding(crate::specs::ItemForms::stop_at))]
fn stop(bytes: &[u8]) -> Result<LineEvent, LineFault<Rule>>
    ensures { Gives (λ event. event) result (stop_at bytes.now) }
{
    let (session, rest) = session(bytes)?;
    let (time, rest) = time(rest)?;
    end(rest)?;
    Ok(LineEvent::Stop {
        session: SessionId(session),
        time: Micros::new(time),
    })
}

#[tactic(auto, unfolding(crate::specs::ItemForms::finish_at))]
fn finish(bytes: &[u8]) -> Result<LineEvent, LineFault<Rule>>
    ensures { Gives (λ event. event) result (finish_at bytes.now) }
{
    let (time, rest) = time(bytes)?;
    let (files, rest) = word(rest)?;
    let files = flag_of(b"files", b"none", files)?;
    end(rest)?;
    Ok(LineEvent::Finish {
        time: Micros::new(time),
        files,
    })
}

fn event_of(alloc: Global, word: &[u8], bytes: &[u8]) -> Result<LineEvent, LineFault<Rule>>
    ensures { Gives (λ event. event) result (event_of word.now bytes.now) }
{
    if word == b"move".as_slice() {
        moved(bytes)
    } else if word == b"noopt".as_slice() {
        no_opt(alloc, bytes)
    } else if word == b"deopt".as_slice() {
        deopt(alloc, bytes)
    } else if word == b"delete".as_slice() {
        delete(bytes)
    } else if word == b"start".as_slice() {
        start(bytes)
    } else if word == b"stop".as_slice() {
        stop(bytes)
    } else if word == b"finish".as_slice() {
        finish(bytes)
    } else {
        Err(LineFault::At(Cause::Word))
    }
}

// The addresses up to the end of the line.
fn frames(bytes: &[u8]) -> Result<Frames, LineFault<Rule>>
    ensures { Gives (λ frames. frames) result (numbers_at 0 MAX_ADDRESS MAX_LEN bytes.now) }
{
    let mut frames = Frames::new();
    let mut rest = bytes;
    for done in 0..255u32 {
        if is_end(rest) {
            return Ok(frames);
        }
        match address(rest) {
            Ok((next, after)) => {
                frames.push(next);
                rest = after;
            }
            Err(fault) => return Err(fault),
        }
    }
    match end(rest) {
        Ok(()) => Ok(frames),
        Err(fault) => Err(fault),
    }
}

#[tactic(auto, unfolding(crate::specs::ItemForms::tick_at))]
fn tick(bytes: &[u8]) -> Result<ItemLine, LineFault<Rule>>
    ensures { Gives (λ line. line) result (tick_at bytes.now) }
{
    let (time, rest) = time(bytes)?;
    let (interval, rest) = number(rest, 0, u64::from(MAX_ROUNDED))?;
    let (state, rest) = word(rest)?;
    let state = state_of(state)?;
    let (hit, rest) = word(rest)?;
    let hit = flag_of(b"hit", b"nohit", hit)?;
    let (only, rest) = word(rest)?;
    let only = only_of(only)?;
    let frames = frames(rest)?;
    Ok(ItemLine::Tick(TickLine {
        time: Micros::new(time),
        interval: interval as u32,
        state,
        hit,
        only,
        frames,
    }))
}

fn item_of(
    alloc: Global,
    first: bool,
    word: &[u8],
    bytes: &[u8],
) -> Result<ItemLine, LineFault<Rule>>
    ensures { Gives (λ line. line) result (item_of first word.now bytes.now) }
{
    if word == b"tick".as_slice() {
        tick(bytes)
    } else if word == b"create".as_slice() {
        create(bytes)
    } else if word == b"unit".as_slice() {
        unit(alloc, first, bytes)
    } else if word == b"slot".as_slice() {
        slot(bytes)
    } else {
        let event = event_of(alloc, word, bytes)?;
        Ok(ItemLine::Event(event))
    }
}

/// A line after the first. `first` says whether a unit is the first of its code object.
#[tactic(auto, unfolding(crate::specs::ItemForms::item_at))]
pub(crate) fn item(alloc: Global, first: bool, bytes: &[u8]) -> Result<ItemLine, LineFault<Rule>>
    ensures line { Gives (λ line. line) result (item_at first bytes.now) }
    ensures fits { IfOk result (λ line. IsItemLine first line) }
{
    let (word, rest) = word(bytes)?;
    item_of(alloc, first, word, rest)
}
