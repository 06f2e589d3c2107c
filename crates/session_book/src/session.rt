// Running sessions.
ghost use Rattle.std.specs.Prelude.{◌≡◌, ◌≤◌, ◌<◌, ◌-◌, ◌^◌, ◌++◌, [], ◌∷◌, ℕ, List, length, IfOk, OnOk, if◌then◌else◌};
ghost use Rattle.std.specs.List.{All, AllZip};
ghost use Rattle.prof_base.specs.declared.interval.TheConstants.{MAX_INTERVAL};
ghost use Rattle.code_event.specs.Recording.{is_for};
ghost use Rattle.session_book.specs.Begun.{fresh};
ghost use Rattle.session_book.specs.Session.{HasBegun, Keeps, TakesTick, IsProfile, has_room, path_in};

use crate::counter::Counter;
use crate::sampled::Sampled;
use code_event::{Finished, Mode, Options, PathPair, PathStep, Tick};
use prof_base::{MAX_INTERVAL, Memory, Micros, Sequence, SessionId, rounded};
use std::alloc::Global;

/// A session that runs.
#[derive(Drop)]
pub(crate) struct Session {
    pub(crate) id: SessionId,
    pub(crate) options: Options,
    start: Micros,
    counter: Counter,
    sampled: Sampled,
    // Of the listed samples, as in a finished profile.
    deltas: Sequence<u64>,
    // The time of the last listed sample, or the start.
    last: Micros,
}

// Returns whether a tick is for a session.
fn is_for(id: SessionId, only: Option<SessionId>) -> bool
    ensures { result ≡ is_for id.0 only }
{
    match only {
        None => true,
        Some(only) => only.0 == id.0,
    }
}

// Returns whether one more sample can be listed.
fn has_room(most: Option<u32>, count: usize) -> bool
    ensures { result ≡ has_room most count }
{
    match most {
        None => true,
        Some(most) => count < most as usize,
    }
}

// Returns the path of a tick in a mode.
fn path_in(mode: Mode, paths: &PathPair) -> &[PathStep]
    ensures { result.now ≡ path_in mode paths.now }
{
    match mode {
        Mode::Leaf => paths.leaf.as_slice(),
        Mode::Caller => paths.caller.as_slice(),
    }
}

impl Session {
    /// Begins a session.
    pub(crate) fn new(
        alloc: Global,
        base: u32,
        id: SessionId,
        options: Options,
        start: Micros,
    ) -> Result<Session, Memory>
        requires low { 1 ≤ base }
        requires high { base ≤ MAX_INTERVAL }
        ensures id { IfOk result (λ session. session.id ≡ id) }
        ensures options { IfOk result (λ session. session.options ≡ options) }
        ensures begun { IfOk result (λ session. HasBegun base session (fresh options start)) }
    {
        Ok(Session {
            id,
            options,
            start,
            counter: Counter::new(rounded(base, options.interval)),
            sampled: Sampled::new(alloc)?,
            deltas: Sequence::new(alloc),
            last: start,
        })
    }

    // Adds a tick that is kept.
    fn keep(&mut self, tick: &Tick, path: &[PathStep], line: u32) -> Result<(), Memory>
        ensures id { self.new.id ≡ self.old.id }
        ensures options { self.new.options ≡ self.old.options }
        ensures kept { OnOk result (Keeps tick.now path.now line self.old self.new) }
    {
        let listed = has_room(self.options.max_samples, self.sampled.len());
        self.sampled.add(path, line, tick.hit, listed)?;
        if listed {
            let delta = tick.time.value().saturating_sub(self.last.value());
            self.deltas.push(delta)?;
            self.last = tick.time;
        }
        Ok(())
    }

    /// Takes a tick with its paths: counts it, and adds it if it is kept; does nothing if it is for
    /// another session alone. Out of memory, the session is spent.
    pub(crate) fn tick(&mut self, tick: &Tick, paths: &PathPair) -> Result<(), Memory>
        ensures id { self.new.id ≡ self.old.id }
        ensures options { self.new.options ≡ self.old.options }
        ensures taken { OnOk result (TakesTick tick.now paths.now self.old self.new) }
    {
        if !is_for(self.id, tick.only) {
            return Ok(());
        }
        if !self.counter.count(tick.interval) {
            return Ok(());
        }
        let path = path_in(self.options.mode, paths);
        self.keep(tick, path, paths.leaf_line)
    }

    /// Ends the session.
    pub(crate) fn finished(self, end: Micros) -> Result<Finished, Memory>
        ensures profile { IfOk result (IsProfile self end) }
        ensures few_hits { IfOk result (λ finished. All (λ node. node.hits < 2 ^ 53) finished.nodes) }
    {
        let (nodes, samples) = self.sampled.finished()?;
        Ok(Finished {
            session: self.id,
            port: self.options.port,
            start: self.start,
            end,
            nodes,
            samples,
            deltas: self.deltas,
        })
    }
}
