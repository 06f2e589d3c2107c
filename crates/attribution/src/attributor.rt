// The attributor.
ghost use Rattle.std.specs.Prelude.{◌≡◌, ◌<◌, ◌≤◌, ◌++◌, [], ◌∷◌, List, Some, length, option_map, IfOk, IfErr, OnOk, OnErr};
ghost use Rattle.std.specs.List.{Contains, slice_get};
ghost use Rattle.std.specs.Ordering.{nat_cmp};
ghost use Rattle.prof_base.specs.Ordered.{Rises, insert_sorted};
ghost use Rattle.prof_base.specs.declared.interval.TheConstants.{MAX_INTERVAL};
ghost use Rattle.code_event.specs.ItemFile.{item_file};
ghost use Rattle.code_event.specs.ItemList.{without};
ghost use Rattle.code_event.specs.declared.event.CodeEvent.TheVariants.{Start, Stop};
ghost use Rattle.code_event.specs.declared.event.EventRecord.{EventRecord};
ghost use Rattle.code_event.specs.declared.tick.Item.{Item};
ghost use Rattle.code_event.specs.declared.tick.Item.TheVariants as item;
ghost use Rattle.session_book.specs.Refused.{MayStart, IsStartRefused, IsStopRefused};
ghost use Rattle.attribution.specs.Attribution.{StandsFor, TakesEvent, ChangesCode, HasNotEnded, IsFileOf, running_in};

use code_event::{CodeEvent, Finished, Options, Tick};
use code_map::CodeMap;
use cpuprofile::write_finished;
use prof_base::{MAX_INTERVAL, Memory, Micros, SessionId};
use session_book::{Book, StartRefused, StopRefused};
use std::alloc::Global;
use std::marker::Model;
use symbolizer::paths;

/// The code map and the running sessions of an isolate, after the items so far.
#[derive(Drop)]
pub struct Attributor {
    alloc: Global,
    map: CodeMap,
    book: Book,
}

impl Model for Attributor {
    ghost use Rattle.attribution.specs.Attribution.{AttributorParts};

    ghost Value = { AttributorParts };

    ghost view = { λ a. record { map = a.map; book = a.book } };
}

impl Attributor {
    /// Makes the attributor of an isolate with this base interval, in microseconds, before any item.
    /// It allocates nothing.
    pub fn new(alloc: Global, base: u32) -> Attributor
        requires low { 1 ≤ base }
        requires high { base ≤ MAX_INTERVAL }
        ensures base { result.book.base ≡ base }
        ensures stands { StandsFor result [] }
    {
        Attributor {
            alloc,
            map: CodeMap::new(alloc),
            book: Book::new(alloc, base),
        }
    }

    /// Takes an event that changes the code. Out of memory, the attributor is spent.
    pub fn change(&mut self, event: &CodeEvent) -> Result<(), Memory>
        requires { ChangesCode event.now }
        ensures base { self.new.book.base ≡ self.old.book.base }
        ensures running { running_in self.new ≡ running_in self.old }
        ensures stands { OnOk result (TakesEvent self.old self.new event.now) }
    {
        self.map.apply(event)
    }

    /// Takes a start of a session. A refusal leaves the attributor unchanged.
    pub fn start(
        &mut self,
        id: SessionId,
        options: Options,
        time: Micros,
    ) -> Result<(), StartRefused>
        ensures base { self.new.book.base ≡ self.old.book.base }
        ensures stands { OnOk result (TakesEvent self.old self.new (Start id options time)) }
        ensures running { OnOk result (running_in self.new ≡ insert_sorted nat_cmp id.0 (running_in self.old)) }
        ensures unchanged { OnErr result (self.new ≡ self.old) }
        ensures ok { OnOk result (MayStart (running_in self.old) id.0) }
        ensures refused { IfErr result (λ refusal. IsStartRefused (running_in self.old) id.0 refusal) }
    {
        self.book.start(id, options, time)
    }

    /// Takes a tick: finds its paths, and gives it to the sessions that it is for. Out of memory, the
    /// attributor is spent.
    pub fn tick(&mut self, tick: &Tick) -> Result<(), Memory>
        ensures base { self.new.book.base ≡ self.old.book.base }
        ensures running { running_in self.new ≡ running_in self.old }
        ensures stands { OnOk result ((items : List Item) → StandsFor self.old items
            → StandsFor self.new (items ++ item.Tick tick.now ∷ [])) }
    {
        // Shows that the time is below 2^53, as those in a file must be.
        let _ = tick.time.value();
        let paths = paths(self.alloc, &mut self.map, tick)?;
        self.book.tick(tick, &paths)
    }

    // Writes the file of a profile, whose nodes get the reasons of this moment.
    fn file_of(&self, finished: Finished) -> Result<Vec<u8>, Memory>
        ensures text { IfOk result (λ file. IsFileOf self.now finished file.items) }
        ensures some { IfOk result (λ file. 0 < length file.items) }
    {
        let mut finished = finished;
        self.map.fill_reasons(&mut finished)?;
        write_finished(self.alloc, &finished)
    }

    /// Takes a stop of a session, and returns the text of the session's file. Where the session does not
    /// run, it leaves the attributor unchanged. Out of memory, the session is lost.
    pub fn stop(&mut self, id: SessionId, time: Micros) -> Result<Vec<u8>, StopRefused>
        ensures base { self.new.book.base ≡ self.old.book.base }
        ensures stands { OnOk result (TakesEvent self.old self.new (Stop id time)) }
        ensures file { IfOk result (λ file. (items : List Item) (e : EventRecord) → e.event ≡ Stop id time → StandsFor self.old items
            → HasNotEnded id.0 items → item_file self.old.book.base (items ++ item.Event e ∷ []) id ≡ Some file.items) }
        ensures some { IfOk result (λ file. 0 < length file.items) }
        ensures running { running_in self.new ≡ without id.0 (running_in self.old) }
        ensures unchanged { IfErr result (λ refusal. refusal ≡ StopRefused.NoSession → self.new ≡ self.old) }
        ensures ok { OnOk result (Contains (running_in self.old) id.0) }
        ensures refused { IfErr result (λ refusal. IsStopRefused (running_in self.old) id.0 refusal) }
    {
        let finished = self.book.stop(id, time)?;
        match self.file_of(finished) {
            Ok(file) => Ok(file),
            Err(Memory) => Err(StopRefused::Memory),
        }
    }

    /// Returns the least id of a running session.
    pub fn first_running(&self) -> Option<SessionId>
        ensures first { option_map (λ id. id.0) result ≡ slice_get (running_in self.now) 0 }
        ensures rises { Rises nat_cmp (running_in self.now) }
    {
        self.book.first_running()
    }
}
