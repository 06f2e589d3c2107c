// The book.
ghost use Rattle.std.specs.Prelude.{◌≡◌, ◌≤◌, ◌<◌, ◌^◌, ◌++◌, [], ◌∷◌, List, Some, false, option_map, IfOk, IfErr, OnOk, OnErr};
ghost use Rattle.std.specs.List.{All, AllByRecursion, Contains, slice_get};
ghost use Rattle.std.specs.Ordering.{nat_cmp};
ghost use Rattle.prof_base.specs.Interval.{IsSourceInterval};
ghost use Rattle.prof_base.specs.Ordered.{Rises, insert_sorted};
ghost use Rattle.prof_base.specs.declared.interval.TheConstants.{MAX_INTERVAL, MAX_ROUNDED};
ghost use Rattle.code_event.specs.DeoptReasons.{DeoptReasons};
ghost use Rattle.code_event.specs.ItemList.{without};
ghost use Rattle.code_event.specs.Profile.{finished_of};
ghost use Rattle.code_event.specs.RecordingLaws.{closes};
ghost use Rattle.code_event.specs.Seen.{Seen, started, stopped, ticked};
ghost use Rattle.code_event.specs.declared.seen.ResolvedFrame.{ResolvedFrame};
ghost use Rattle.session_book.specs.Book.{StandsFor, running, intervals};
ghost use Rattle.session_book.specs.Refused.{MayStart, IsStartRefused, IsStopRefused};
ghost use Rattle.session_book.specs.Session.{paths_over, seen_tick, without_reasons};

use crate::refused::{StartRefused, StopRefused};
use crate::session::Session;
use crate::sessions::{put_session, runs, take_session, tick_each};
use code_event::{Finished, MAX_SESSIONS, Options, PathPair, Tick};
use prof_base::{MAX_INTERVAL, MAX_ROUNDED, Memory, Micros, SessionId, gcd, rounded};
use std::alloc::Global;
use std::marker::Model;

/// The running sessions of an isolate.
#[derive(Drop)]
pub struct Book {
    alloc: Global,
    base: u32,
    // In the order of their ids.
    sessions: Vec<Session>,
}

impl Model for Book {
    ghost use Rattle.session_book.specs.Book.{BookParts, IsBook};

    ghost Value = { BookParts };

    ghost view = { λ b. record { base = b.base; sessions = b.sessions.items } };

    ghost invariant = { λ b. IsBook b.base b.sessions.items };
}

impl Book {
    /// Makes the book of an isolate with this base interval, in microseconds. No session runs. It
    /// allocates nothing.
    pub fn new(alloc: Global, base: u32) -> Book
        requires low { 1 ≤ base }
        requires high { base ≤ MAX_INTERVAL }
        ensures base { result.base ≡ base }
        ensures stands { StandsFor result [] }
    {
        Book {
            alloc,
            base,
            sessions: Vec::new(alloc),
        }
    }

    // Begins a session. When out of memory, it leaves the book unchanged.
    fn begin(&mut self, id: SessionId, options: Options, time: Micros) -> Result<(), Memory>
        requires { MayStart (running self.old) id.0 }
        ensures base { self.new.base ≡ self.old.base }
        ensures stands { OnOk result ((seen : List Seen) → StandsFor self.old seen
            → StandsFor self.new (seen ++ started id options time ∷ [])) }
        ensures running { OnOk result (running self.new ≡ insert_sorted nat_cmp id.0 (running self.old)) }
        ensures unchanged { OnErr result (self.new ≡ self.old) }
    {
        let session = Session::new(self.alloc, self.base, id, options, time)?;
        put_session(&mut self.sessions, session)
    }

    /// Starts a session. A refusal leaves the book unchanged.
    pub fn start(
        &mut self,
        id: SessionId,
        options: Options,
        time: Micros,
    ) -> Result<(), StartRefused>
        ensures base { self.new.base ≡ self.old.base }
        ensures stands { OnOk result ((seen : List Seen) → StandsFor self.old seen
            → StandsFor self.new (seen ++ started id options time ∷ [])) }
        ensures running { OnOk result (running self.new ≡ insert_sorted nat_cmp id.0 (running self.old)) }
        ensures unchanged { OnErr result (self.new ≡ self.old) }
        ensures ok { OnOk result (MayStart (running self.old) id.0) }
        ensures refused { IfErr result (λ refusal. IsStartRefused (running self.old) id.0 refusal) }
    {
        if runs(&self.sessions, id) {
            return Err(StartRefused::Already);
        }
        if self.sessions.len() >= MAX_SESSIONS {
            return Err(StartRefused::TooMany);
        }
        match self.begin(id, options, time) {
            Ok(()) => Ok(()),
            Err(Memory) => Err(StartRefused::Memory),
        }
    }

    /// Takes a tick with its paths in both modes, for each session that it is for. Out of memory, the
    /// book is spent.
    pub fn tick(&mut self, tick: &Tick, paths: &PathPair) -> Result<(), Memory>
        ensures base { self.new.base ≡ self.old.base }
        ensures running { running self.new ≡ running self.old }
        ensures stands { OnOk result ((seen : List Seen) (frames : List ResolvedFrame) → paths.now ≡ paths_over frames → StandsFor self.old seen
            → StandsFor self.new (seen ++ ticked (seen_tick tick.now frames) ∷ [])) }
    {
        tick_each(&mut self.sessions, tick, paths)
    }

    /// Stops a session, and returns its profile, whose nodes have no reasons yet. Where the session does
    /// not run, it leaves the book unchanged. Out of memory, the session is lost.
    pub fn stop(&mut self, id: SessionId, time: Micros) -> Result<Finished, StopRefused>
        ensures base { self.new.base ≡ self.old.base }
        ensures stands { OnOk result ((seen : List Seen) (reasons : DeoptReasons) → StandsFor self.old seen
            → StandsFor self.new (seen ++ stopped id time reasons ∷ [])) }
        ensures finished { IfOk result (λ finished. (seen : List Seen) (reasons : DeoptReasons) → StandsFor self.old seen
            → AllByRecursion (λ mark. closes id.0 mark ≡ false) seen
            → Some finished ≡ option_map without_reasons (finished_of self.old.base id (seen ++ stopped id time reasons ∷ []))) }
        ensures few_hits { IfOk result (λ finished. All (λ node. node.hits < 2 ^ 53) finished.nodes) }
        ensures unchanged { IfErr result (λ refusal. refusal ≡ StopRefused.NoSession → self.new ≡ self.old) }
        ensures running { running self.new ≡ without id.0 (running self.old) }
        ensures ok { OnOk result (Contains (running self.old) id.0) }
        ensures refused { IfErr result (λ refusal. IsStopRefused (running self.old) id.0 refusal) }
    {
        let Some(session) = take_session(&mut self.sessions, id) else {
            return Err(StopRefused::NoSession);
        };
        let Ok(finished) = session.finished(time) else {
            return Err(StopRefused::Memory);
        };
        Ok(finished)
    }

    /// Returns the least id of a running session.
    pub fn first_running(&self) -> Option<SessionId>
        ensures first { option_map (λ id. id.0) result ≡ slice_get (running self.now) 0 }
        ensures rises { Rises nat_cmp (running self.now) }
    {
        match self.sessions.first() {
            Some(session) => Some(session.id),
            None => None,
        }
    }

    /// Returns the interval at which the isolate takes samples, in microseconds: the greatest common
    /// divisor of the rounded intervals of the running sessions, or 0 if there are none.
    pub fn source_interval(&self) -> u32
        ensures source { IsSourceInterval self.now.base (intervals self.now) result }
        ensures bound { result ≤ MAX_ROUNDED }
    {
        let mut source = 0u64;
        for session in &self.sessions {
            source = gcd(
                source,
                u64::from(rounded(self.base, session.options.interval)),
            );
        }
        source as u32
    }
}
