// A fold, item by item.
ghost use Rattle.std.specs.Prelude.{◌≡◌, ◌<◌, ◌≤◌, ◌++◌, ◌∷◌, [], ℕ, List, Option, Ok, true, false, length, IsErrOf};
ghost use Rattle.prof_base.specs.Causes.{Rose};
ghost use Rattle.prof_base.specs.declared.interval.TheConstants.{MAX_INTERVAL};
ghost use Rattle.attribution.specs.Attribution.{ChangesCode, StandsFor, running_in};
ghost use Rattle.code_event.specs.ItemFile.{SessionFile, item_files};
ghost use Rattle.code_event.specs.ItemList.{IsLegalItems, without};
ghost use Rattle.code_event.specs.declared.event.CodeEvent.TheVariants.{Start, Finish};
ghost use Rattle.code_event.specs.declared.tick.Item.TheVariants as item;
ghost use Rattle.out_stream.specs.Parts.{Parts};
ghost use Rattle.item_fold.specs.Delivered.{Delivers};
ghost use Rattle.item_fold.specs.Folding.{Folds, FoldsEvent, FoldsStop, HasFolded};

use crate::delivery::{FileNote, deliver_file};
use attribution::Attributor;
use code_event::{CodeEvent, Item, Options, Tick};
use out_stream::{OutputStream, Undelivered};
use prof_base::{MAX_INTERVAL, Memory, Micros, Sequence, SessionId};
use session_book::{StartRefused, StopRefused};
use std::alloc::Global;
use std::marker::Model;

/// What has been attributed and delivered so far.
#[derive(Drop)]
pub(crate) struct Folding {
    alloc: Global,
    attributor: Attributor,
    notes: Sequence<FileNote>,
}

impl Model for Folding {
    ghost use Rattle.item_fold.specs.Folding.{FoldingParts};

    ghost Value = { FoldingParts };

    ghost view = { λ f. record { attributor = f.attributor; notes = f.notes } };
}

impl Folding {
    /// Makes the fold before any item.
    pub(crate) fn new(alloc: Global, base: u32) -> Folding
        requires low { 1 ≤ base }
        requires high { base ≤ MAX_INTERVAL }
        ensures { (before : Option Parts) → HasFolded base [] (Ok tt) result before before }
    {
        Folding {
            alloc,
            attributor: Attributor::new(alloc, base),
            notes: Sequence::new(alloc),
        }
    }

    // Ends a session: delivers its file.
    fn end<S: OutputStream>(
        &mut self,
        session: SessionId,
        time: Micros,
        stream: &mut S,
    ) -> Result<(), Undelivered>
        ensures running { running_in self.new.attributor ≡ without session.0 (running_in self.old.attributor) }
        ensures folds { FoldsStop self.old (S.parts stream.old) session time result self.new (S.parts stream.new) }

        // Each abort and each fault is counted. The size of chunks stays the same, and no count falls.
        ensures aborted { IsErrOf result Undelivered.Aborted → Rose (S.aborts stream.old) (S.aborts stream.new) }
        ensures failed { IsErrOf result Undelivered.Failed → Rose (S.stream_faults stream.old) (S.stream_faults stream.new) }
        ensures chunk_size { S.chunk_bytes stream.new ≡ S.chunk_bytes stream.old }
        ensures aborts { S.aborts stream.old ≤ S.aborts stream.new }
        ensures faults { S.stream_faults stream.old ≤ S.stream_faults stream.new }
    {
        match self.attributor.stop(session, time) {
            Ok(file) => { deliver_file(self.alloc, session, &file, &mut self.notes, stream) }
            Err(StopRefused::NoSession) => Ok(()),
            Err(StopRefused::Memory) => Err(Undelivered::Memory),
        }
    }

    // Ends the running sessions, in the order of their ids.
    fn end_all<S: OutputStream>(&mut self, time: Micros, stream: &mut S) -> Result<(), Undelivered>
        ensures folds { FoldsEvent self.old (S.parts stream.old) (Finish time true) result self.new (S.parts stream.new) }

        // Each abort and each fault is counted. The size of chunks stays the same, and no count falls.
        ensures aborted { IsErrOf result Undelivered.Aborted → Rose (S.aborts stream.old) (S.aborts stream.new) }
        ensures failed { IsErrOf result Undelivered.Failed → Rose (S.stream_faults stream.old) (S.stream_faults stream.new) }
        ensures chunk_size { S.chunk_bytes stream.new ≡ S.chunk_bytes stream.old }
        ensures aborts { S.aborts stream.old ≤ S.aborts stream.new }
        ensures faults { S.stream_faults stream.old ≤ S.stream_faults stream.new }
    {
        while let Some(session) = self.attributor.first_running() {
            if let Err(fault) = self.end(session, time, stream) {
                return Err(fault);
            }
        }
        Ok(())
    }

    // Takes a finish: ends the running sessions where it asks for files.
    fn finish<S: OutputStream>(
        &mut self,
        time: Micros,
        files: bool,
        stream: &mut S,
    ) -> Result<(), Undelivered>
        ensures folds { FoldsEvent self.old (S.parts stream.old) (Finish time files) result self.new (S.parts stream.new) }

        // Each abort and each fault is counted. The size of chunks stays the same, and no count falls.
        ensures aborted { IsErrOf result Undelivered.Aborted → Rose (S.aborts stream.old) (S.aborts stream.new) }
        ensures failed { IsErrOf result Undelivered.Failed → Rose (S.stream_faults stream.old) (S.stream_faults stream.new) }
        ensures chunk_size { S.chunk_bytes stream.new ≡ S.chunk_bytes stream.old }
        ensures aborts { S.aborts stream.old ≤ S.aborts stream.new }
        ensures faults { S.stream_faults stream.old ≤ S.stream_faults stream.new }
    {
        if files {
            self.end_all(time, stream)
        } else {
            Ok(())
        }
    }

    // Takes a start of a session.
    fn start(
        &mut self,
        session: SessionId,
        options: Options,
        time: Micros,
    ) -> Result<(), Undelivered>
        ensures folds { (parts : Option Parts) → FoldsEvent self.old parts (Start session options time) result self.new parts }
        ensures memory { (IsErrOf result Undelivered.Aborted → ⊥) × (IsErrOf result Undelivered.Failed → ⊥) }
    {
        // No other start is refused in a legal list.
        match self.attributor.start(session, options, time) {
            Ok(()) => Ok(()),
            Err(StartRefused::Memory) => Err(Undelivered::Memory),
            Err(StartRefused::TooMany) => Ok(()),
            Err(StartRefused::Already) => Ok(()),
        }
    }

    // Takes an event that changes the code.
    fn change(&mut self, event: &CodeEvent) -> Result<(), Undelivered>
        requires { ChangesCode event.now }
        ensures folds { (parts : Option Parts) → FoldsEvent self.old parts event.now result self.new parts }
        ensures memory { (IsErrOf result Undelivered.Aborted → ⊥) × (IsErrOf result Undelivered.Failed → ⊥) }
    {
        match self.attributor.change(event) {
            Ok(()) => Ok(()),
            Err(Memory) => Err(Undelivered::Memory),
        }
    }

    // Takes a tick.
    fn tick(&mut self, tick: &Tick) -> Result<(), Undelivered>
        ensures folds { (parts : Option Parts) → Folds self.old parts (item.Tick tick.now) result self.new parts }
        ensures memory { (IsErrOf result Undelivered.Aborted → ⊥) × (IsErrOf result Undelivered.Failed → ⊥) }
    {
        match self.attributor.tick(tick) {
            Ok(()) => Ok(()),
            Err(Memory) => Err(Undelivered::Memory),
        }
    }

    // Takes an event.
    fn event<S: OutputStream>(
        &mut self,
        event: &CodeEvent,
        stream: &mut S,
    ) -> Result<(), Undelivered>
        ensures folds { FoldsEvent self.old (S.parts stream.old) event.now result self.new (S.parts stream.new) }

        // Each abort and each fault is counted. The size of chunks stays the same, and no count falls.
        ensures aborted { IsErrOf result Undelivered.Aborted → Rose (S.aborts stream.old) (S.aborts stream.new) }
        ensures failed { IsErrOf result Undelivered.Failed → Rose (S.stream_faults stream.old) (S.stream_faults stream.new) }
        ensures chunk_size { S.chunk_bytes stream.new ≡ S.chunk_bytes stream.old }
        ensures aborts { S.aborts stream.old ≤ S.aborts stream.new }
        ensures faults { S.stream_faults stream.old ≤ S.stream_faults stream.new }
    {
        match event {
            CodeEvent::Start {
                session,
                options,
                time,
            } => self.start(*session, *options, *time),
            CodeEvent::Stop { session, time } => self.end(*session, *time, stream),
            CodeEvent::Finish { time, files } => self.finish(*time, *files, stream),
            CodeEvent::Create { .. }
            | CodeEvent::Move { .. }
            | CodeEvent::NoOpt { .. }
            | CodeEvent::Deopt { .. }
            | CodeEvent::Delete { .. } => self.change(event),
        }
    }

    // Takes an item.
    fn take<S: OutputStream>(&mut self, item: &Item, stream: &mut S) -> Result<(), Undelivered>
        ensures folds { Folds self.old (S.parts stream.old) item.now result self.new (S.parts stream.new) }

        // Each abort and each fault is counted. The size of chunks stays the same, and no count falls.
        ensures aborted { IsErrOf result Undelivered.Aborted → Rose (S.aborts stream.old) (S.aborts stream.new) }
        ensures failed { IsErrOf result Undelivered.Failed → Rose (S.stream_faults stream.old) (S.stream_faults stream.new) }
        ensures chunk_size { S.chunk_bytes stream.new ≡ S.chunk_bytes stream.old }
        ensures aborts { S.aborts stream.old ≤ S.aborts stream.new }
        ensures faults { S.stream_faults stream.old ≤ S.stream_faults stream.new }
    {
        match item {
            Item::Event(record) => self.event(&record.event, stream),
            Item::Tick(tick) => self.tick(tick),
        }
    }

    /// Takes all items of a list, up to the first that something goes wrong with.
    pub(crate) fn take_all<S: OutputStream>(
        &mut self,
        items: &[Item],
        stream: &mut S,
    ) -> Result<(), Undelivered>
        ensures delivers { (base : ℕ) (before : Option Parts) → IsLegalItems items.now → HasFolded base [] (Ok tt) self.old before (S.parts stream.old)
            → Delivers (item_files base items.now) result self.new.notes before (S.parts stream.new) }

        // Each abort and each fault is counted. The size of chunks stays the same, and no count falls.
        ensures aborted { IsErrOf result Undelivered.Aborted → Rose (S.aborts stream.old) (S.aborts stream.new) }
        ensures failed { IsErrOf result Undelivered.Failed → Rose (S.stream_faults stream.old) (S.stream_faults stream.new) }
        ensures chunk_size { S.chunk_bytes stream.new ≡ S.chunk_bytes stream.old }
        ensures aborts { S.aborts stream.old ≤ S.aborts stream.new }
        ensures faults { S.stream_faults stream.old ≤ S.stream_faults stream.new }
    {
        for item in items {
            if let Err(fault) = self.take(item, stream) {
                return Err(fault);
            }
        }
        Ok(())
    }

    /// Returns the notes of the delivered files, in order.
    pub(crate) fn into_notes(self) -> Sequence<FileNote>
        ensures { result ≡ self.notes }
    {
        self.notes
    }
}
