// The latest time of an item list, and its sessions.
ghost use Rattle.std.specs.Prelude.{◌≡◌, [], ◌∷◌, IfOk};
ghost use Rattle.code_event.specs.ItemList.{without};
ghost use Rattle.item_text.specs.ItemRules.{event_time, item_time, is_earlier, is_among, event_breaks_session, breaks_session, list_after_event};
ghost use Rattle.item_text.specs.ItemDraft.{Agree};

use crate::item_line::{ItemLine, LineEvent};
use code_event::MAX_SESSIONS;
use prof_base::{Memory, Micros, SessionId};
use std::alloc::Global;
use std::collections::BTreeSet;
use std::marker::Model;

#[derive(Drop)]
pub(crate) struct Progress {
    time: Micros,
    started: BTreeSet<u32>,
    // The sessions that run, the latest first.
    running: Vec<u32>,
}

impl Model for Progress {
    ghost use Rattle.code_event.specs.ItemList.{ListSoFar};

    ghost Value = { ListSoFar };

    ghost view = { λ p. record { time = p.time; started = p.started.keys; running = p.running.items } };
}

fn event_time(event: &LineEvent) -> Option<Micros>
    ensures { result ≡ event_time event.now }
{
    match event {
        LineEvent::Start { time, .. } => Some(*time),
        LineEvent::Stop { time, .. } => Some(*time),
        LineEvent::Finish { time, .. } => Some(*time),
        LineEvent::Move { .. } => None,
        LineEvent::NoOpt { .. } => None,
        LineEvent::Deopt { .. } => None,
        LineEvent::Delete { .. } => None,
    }
}

fn item_time(line: &ItemLine) -> Option<Micros>
    ensures { result ≡ item_time line.now }
{
    match line {
        ItemLine::Event(event) => event_time(event),
        ItemLine::Tick(tick) => Some(tick.time),
        ItemLine::Create(_) => None,
        ItemLine::Unit(_) => None,
        ItemLine::Slot(_) => None,
    }
}

fn is_among(numbers: &[u32], session: SessionId) -> bool
    ensures { result ≡ is_among numbers.now session.0 }
{
    numbers.iter().any(|number| *number == session.0)
}

fn without(alloc: Global, numbers: &[u32], session: SessionId) -> Result<Vec<u32>, Memory>
    ensures { IfOk result (λ others. others.items ≡ without session.0 numbers.now) }
{
    let mut others = Vec::new(alloc);
    for number in numbers {
        if *number != session.0 {
            others.push(*number)?;
        }
    }
    Ok(others)
}

impl Progress {
    pub(crate) fn new(alloc: Global) -> Progress
        ensures { result ≡ record { time = 0; started = []; running = [] } }
    {
        Progress {
            time: Micros::new(0),
            started: BTreeSet::new(alloc),
            running: Vec::new(alloc),
        }
    }

    /// Returns whether the line has a time that is before the latest.
    pub(crate) fn is_earlier(&self, line: &ItemLine) -> bool
        ensures { result ≡ is_earlier self.now.time (item_time line.now) }
    {
        match item_time(line) {
            None => false,
            Some(time) => time.value() < self.time.value(),
        }
    }

    fn was_started(&self, session: SessionId) -> bool
        ensures { result ≡ is_among self.now.started session.0 }
    {
        self.started.contains(&session.0)
    }

    fn event_breaks_session(&self, event: &LineEvent) -> bool
        ensures { result ≡ event_breaks_session self.now event.now }
    {
        match event {
            LineEvent::Start { session, .. } => {
                self.was_started(*session) || self.running.len() >= MAX_SESSIONS
            }
            LineEvent::Stop { session, .. } => !is_among(self.running.as_slice(), *session),
            LineEvent::Finish { .. } => false,
            LineEvent::Move { .. } => false,
            LineEvent::NoOpt { .. } => false,
            LineEvent::Deopt { .. } => false,
            LineEvent::Delete { .. } => false,
        }
    }

    pub(crate) fn breaks_session(&self, line: &ItemLine) -> bool
        ensures { result ≡ breaks_session self.now line.now }
    {
        match line {
            ItemLine::Event(event) => self.event_breaks_session(event),
            ItemLine::Tick(_) => false,
            ItemLine::Create(_) => false,
            ItemLine::Unit(_) => false,
            ItemLine::Slot(_) => false,
        }
    }

    pub(crate) fn at(self, time: Micros) -> Progress
        ensures { result ≡ record { time = time; started = self.started; running = self.running } }
    {
        Progress {
            time,
            started: self.started,
            running: self.running,
        }
    }

    fn started(self, session: SessionId, time: Micros) -> Result<Progress, Memory>
        ensures { IfOk result (λ progress. Agree progress (record { time = time; started = session.0 ∷ self.started; running = session.0 ∷ self.running })) }
    {
        let Progress {
            time: _,
            started,
            running,
        } = self;
        let mut started = started;
        started.insert(session.0)?;
        let mut running = running;
        running.insert(0, session.0)?;
        Ok(Progress {
            time,
            started,
            running,
        })
    }

    fn stopped(self, session: SessionId, time: Micros) -> Result<Progress, Memory>
        ensures { IfOk result (λ progress. progress ≡ record { time = time; started = self.started; running = without session.0 self.running }) }
    {
        let alloc = *self.running.allocator();
        let running = without(alloc, self.running.as_slice(), session)?;
        Ok(Progress {
            time,
            started: self.started,
            running,
        })
    }

    pub(crate) fn after_event(self, event: &LineEvent) -> Result<Progress, Memory>
        ensures { IfOk result (λ progress. Agree progress (list_after_event self event.now)) }
    {
        match event {
            LineEvent::Start { session, time, .. } => self.started(*session, *time),
            LineEvent::Stop { session, time } => self.stopped(*session, *time),
            LineEvent::Finish { time, .. } => Ok(self.at(*time)),
            LineEvent::Move { .. } => Ok(self),
            LineEvent::NoOpt { .. } => Ok(self),
            LineEvent::Deopt { .. } => Ok(self),
            LineEvent::Delete { .. } => Ok(self),
        }
    }
}
