// What is attributed, and what is done with the files of the sessions that end.
ghost use Rattle.std.specs.Prelude.{◌≡◌, ◌<◌, ◌≤◌, ◌++◌, ◌∷◌, [], ℕ, List, Option, Some, None, true, false, length, map, IfOk, OnOk, OnErr, IsErrOf, option_map};
ghost use Rattle.std.specs.List.{slice_get};
ghost use Rattle.prof_base.specs.Causes.{Rose};
ghost use Rattle.prof_base.specs.declared.interval.TheConstants.{MAX_INTERVAL};
ghost use Rattle.attribution.specs.Attribution.{ChangesCode, HasNotEnded, StandsFor, TakesEvent};
ghost use Rattle.code_event.specs.ItemFile.{SessionFile, item_file};
ghost use Rattle.code_event.specs.declared.event.CodeEvent.TheVariants.{Start, Stop};
ghost use Rattle.code_event.specs.declared.event.EventRecord.{EventRecord};
ghost use Rattle.code_event.specs.declared.tick.Item.{Item};
ghost use Rattle.code_event.specs.declared.tick.Item.TheVariants as item;
ghost use Rattle.out_stream.specs.Parts.{Parts, grown, closed, GrowsByPrefix};
ghost use Rattle.pipe_core.specs.Observed.{IfThere};
ghost use Rattle.processor.specs.Filing.{HasDelivered, HasFiled, Files, FilesEvent, AtStop, GivesFile, HandsOver, AreToldLost};
ghost use Rattle.processor.specs.Running.{port_in, sessions_of, without_session};

use crate::giving::{give, tell_lost};
use crate::ports::FilePorts;
use crate::running::Running;
use crate::turn::Delivery;
use attribution::Attributor;
use code_event::{CodeEvent, Options, PortFile, Tick};
use item_fold::FileNote;
use out_stream::{OutputStream, Undelivered};
use prof_base::{MAX_INTERVAL, Memory, Micros, Sequence, SessionId};
use std::alloc::Global;
use std::marker::Model;

/// What was attributed so far, and what was done with the files. An isolate's list of items is legal, so
/// that out of memory is the only refusal there can be; after that, nothing is attributed.
#[derive(Drop)]
pub(crate) struct Filing {
    alloc: Global,
    attributor: Attributor,
    running: Running,
    notes: Vec<FileNote>,
    delivery: Delivery,
    is_spent: bool,
}

impl Model for Filing {
    ghost use Rattle.processor.specs.Filing.{FilingParts};

    ghost Value = { FilingParts };

    ghost view = { λ f. record { attributor = f.attributor; running = f.running; notes = f.notes.items; delivery = f.delivery; is_spent = f.is_spent } };
}

impl Filing {
    /// Makes the filing before any item.
    pub(crate) fn new(alloc: Global, base: u32) -> Result<Filing, Memory>
        requires low { 1 ≤ base }
        requires high { base ≤ MAX_INTERVAL }
        ensures filed { IfOk result (λ filing. (before : Option Parts) → HasFiled base [] filing before before) }
        ensures delivery { IfOk result (λ filing. filing.delivery ≡ Delivery.Fine) }
        ensures spent { IfOk result (λ filing. filing.is_spent ≡ false) }
        ensures notes { IfOk result (λ filing. filing.notes ≡ []) }
    {
        Ok(Filing {
            alloc,
            attributor: Attributor::new(alloc, base),
            running: Running::new(alloc)?,
            notes: Vec::new(alloc),
            delivery: Delivery::Fine,
            is_spent: false,
        })
    }

    /// Returns whether memory has run out.
    pub(crate) fn is_spent(&self) -> bool
        ensures { result ≡ self.now.is_spent }
    {
        self.is_spent
    }

    /// Returns how the delivery of the files so far went.
    pub(crate) fn delivery(&self) -> Delivery
        ensures { result ≡ self.now.delivery }
    {
        self.delivery
    }

    /// Returns the notes of the files that were delivered whole, in order.
    pub(crate) fn notes(&self) -> &[FileNote]
        ensures { result.now ≡ self.now.notes }
    {
        self.notes.as_slice()
    }

    /// Returns the running session with the least id.
    pub(crate) fn first_running(&self) -> Option<SessionId>
        ensures { option_map (λ session. session.0) result ≡ slice_get (sessions_of self.now.running) 0 }
    {
        self.running.first()
    }

    /// Takes a start of a session.
    pub(crate) fn start(&mut self, session: SessionId, options: Options, time: Micros)
        ensures files { (parts : Option Parts) → FilesEvent self.old parts (Start session options time) self.new parts }
        ensures delivery { self.new.delivery ≡ self.old.delivery }
        ensures notes { self.new.notes ≡ self.old.notes }
        ensures spent { self.old.is_spent ≡ true → self.new.is_spent ≡ true }
    {
        self.running.start(session, options.port);
        if self.is_spent {
            return;
        }
        if self.attributor.start(session, options, time).is_err() {
            self.is_spent = true;
        }
    }

    /// Takes an event that changes the code.
    pub(crate) fn change(&mut self, event: &CodeEvent)
        requires { ChangesCode event.now }
        ensures files { (parts : Option Parts) → FilesEvent self.old parts event.now self.new parts }
        ensures delivery { self.new.delivery ≡ self.old.delivery }
        ensures notes { self.new.notes ≡ self.old.notes }
        ensures running { self.new.running ≡ self.old.running }
        ensures spent { self.old.is_spent ≡ true → self.new.is_spent ≡ true }
    {
        if self.is_spent {
            return;
        }
        if self.attributor.change(event).is_err() {
            self.is_spent = true;
        }
    }

    /// Takes a tick.
    pub(crate) fn tick(&mut self, tick: &Tick)
        ensures files { (parts : Option Parts) → Files self.old parts (item.Tick tick.now) self.new parts }
        ensures delivery { self.new.delivery ≡ self.old.delivery }
        ensures notes { self.new.notes ≡ self.old.notes }
        ensures running { self.new.running ≡ self.old.running }
        ensures spent { self.old.is_spent ≡ true → self.new.is_spent ≡ true }
    {
        if self.is_spent {
            return;
        }
        if self.attributor.tick(tick).is_err() {
            self.is_spent = true;
        }
    }

    // Ends a session, and returns the text of its file; None where the file is lost.
    fn text_of(&mut self, session: SessionId, time: Micros) -> Option<Vec<u8>>
        ensures base { self.new.attributor.book.base ≡ self.old.attributor.book.base }
        ensures running { self.new.running ≡ self.old.running }
        ensures notes { self.new.notes ≡ self.old.notes }
        ensures delivery { self.new.delivery ≡ self.old.delivery }
        ensures was_spent { IfThere result (Unit {0}) (λ _. self.old.is_spent ≡ false) }
        ensures spent { IfThere result (self.new.is_spent ≡ true) (λ _. self.new.is_spent ≡ false) }
        ensures stands { IfThere result (Unit {0}) (λ _. TakesEvent self.old.attributor self.new.attributor (Stop session time)) }
        ensures text { IfThere result (Unit {0}) (λ file. (items : List Item) (e : EventRecord) → e.event ≡ Stop session time → StandsFor self.old.attributor items
            → HasNotEnded session.0 items → item_file self.old.attributor.book.base (items ++ item.Event e ∷ []) session ≡ Some file.items) }
        ensures some { IfThere result (Unit {0}) (λ file. 0 < length file.items) }
    {
        if self.is_spent {
            return None;
        }
        match self.attributor.stop(session, time) {
            Ok(file) => Some(file),
            Err(_) => {
                self.is_spent = true;
                None
            }
        }
    }

    // Sends the file of a session to the stream, and notes it. The room for the note is taken first.
    fn send<S: OutputStream>(
        &mut self,
        session: SessionId,
        file: &[u8],
        stream: &mut S,
    ) -> Result<(), Undelivered>
        requires some { 0 < length file.now }
        ensures attributor { self.new.attributor ≡ self.old.attributor }
        ensures running { self.new.running ≡ self.old.running }
        ensures delivery { self.new.delivery ≡ self.old.delivery }
        ensures spent { self.new.is_spent ≡ self.old.is_spent }
        ensures noted { OnOk result (self.new.notes ≡ self.old.notes ++ record { session = session; length = length file.now } ∷ []) }
        ensures not_noted { OnErr result (self.new.notes ≡ self.old.notes) }
        ensures ok { OnOk result (S.parts stream.new ≡ closed (grown (S.parts stream.old) file.now)) }
        ensures err { OnErr result (GrowsByPrefix (S.parts stream.old) (S.parts stream.new) file.now) }

        // Each abort and each fault is counted. The size of chunks stays the same, and no count falls.
        ensures aborted { IsErrOf result Undelivered.Aborted → Rose (S.aborts stream.old) (S.aborts stream.new) }
        ensures failed { IsErrOf result Undelivered.Failed → Rose (S.stream_faults stream.old) (S.stream_faults stream.new) }
        ensures chunk_size { S.chunk_bytes stream.new ≡ S.chunk_bytes stream.old }
        ensures aborts { S.aborts stream.old ≤ S.aborts stream.new }
        ensures faults { S.stream_faults stream.old ≤ S.stream_faults stream.new }
    {
        if self.notes.reserve(1).is_err() {
            return Err(Undelivered::Memory);
        }
        if let Err(fault) = stream.deliver_part(self.alloc, file) {
            return Err(fault);
        }
        let length = file.len() as u64;
        self.notes.push_reserved(FileNote { session, length });
        Ok(())
    }

    // Delivers the file of a session, if the stream has refused nothing.
    fn deliver<S: OutputStream>(&mut self, session: SessionId, file: &[u8], stream: &mut S)
        requires some { 0 < length file.now }
        requires room { self.old.is_spent ≡ false }
        ensures attributor { self.new.attributor ≡ self.old.attributor }
        ensures running { self.new.running ≡ self.old.running }
        ensures delivers { (files : List SessionFile) (before : Option Parts) → HasDelivered files self.old.delivery false self.old.notes before (S.parts stream.old)
            → HasDelivered (files ++ record { session = session.0; text = file.now } ∷ []) self.new.delivery self.new.is_spent self.new.notes before (S.parts stream.new) }
        ensures untouched { (self.old.delivery ≡ Delivery.Fine → ⊥) → stream.new ≡ stream.old }
        ensures kept { (self.old.delivery ≡ Delivery.Fine → ⊥) → self.new.delivery ≡ self.old.delivery }

        // Each abort and each fault is counted. The size of chunks stays the same, and no count falls.
        ensures aborted { self.old.delivery ≡ Delivery.Fine → self.new.delivery ≡ Delivery.Aborted → Rose (S.aborts stream.old) (S.aborts stream.new) }
        ensures failed { self.old.delivery ≡ Delivery.Fine → self.new.delivery ≡ Delivery.Failed → Rose (S.stream_faults stream.old) (S.stream_faults stream.new) }
        ensures chunk_size { S.chunk_bytes stream.new ≡ S.chunk_bytes stream.old }
        ensures aborts { S.aborts stream.old ≤ S.aborts stream.new }
        ensures faults { S.stream_faults stream.old ≤ S.stream_faults stream.new }
    {
        if self.delivery != Delivery::Fine {
            return;
        }
        match self.send(session, file, stream) {
            Ok(()) => {}
            Err(Undelivered::Aborted) => self.delivery = Delivery::Aborted,
            Err(Undelivered::Failed) => self.delivery = Delivery::Failed,
            Err(Undelivered::Memory) => self.is_spent = true,
        }
    }

    // Gives a port a file.
    fn hand_over<X: FilePorts>(&mut self, port: u8, file: PortFile, ports: &mut X)
        ensures home { X.home ports.new ≡ X.home ports.old }
        ensures attributor { self.new.attributor ≡ self.old.attributor }
        ensures running { self.new.running ≡ self.old.running }
        ensures notes { self.new.notes ≡ self.old.notes }
        ensures delivery { self.new.delivery ≡ self.old.delivery }
        ensures spent { self.old.is_spent ≡ true → self.new.is_spent ≡ true }
        ensures hands { HandsOver port file self.new.is_spent (X.given ports.old) (X.given ports.new) }
    {
        if give(self.alloc, port, file, ports).is_err() {
            self.is_spent = true;
        }
    }

    /// Ends a session: delivers its file, and gives it to the session's port.
    pub(crate) fn stop<S: OutputStream, X: FilePorts>(
        &mut self,
        session: SessionId,
        time: Micros,
        stream: &mut S,
        ports: &mut X,
    )
        ensures home { X.home ports.new ≡ X.home ports.old }
        ensures files { AtStop self.old (S.parts stream.old) session time (λ base items before. HasFiled base items self.new before (S.parts stream.new)) }
        ensures gives { AtStop self.old (S.parts stream.old) session time (λ base items before. GivesFile (port_in self.old.running session.0) session (item_file base items session)
            self.old.is_spent self.new.is_spent (X.given ports.old) (X.given ports.new)) }
        ensures running { self.new.running ≡ without_session session.0 self.old.running }
        ensures spent { self.old.is_spent ≡ true → self.new.is_spent ≡ true }

        // Nothing more is sent after a refusal, and when out of memory.
        ensures untouched { (self.old.delivery ≡ Delivery.Fine → ⊥) → stream.new ≡ stream.old }
        ensures kept { (self.old.delivery ≡ Delivery.Fine → ⊥) → self.new.delivery ≡ self.old.delivery }
        ensures no_more { self.old.is_spent ≡ true → stream.new ≡ stream.old }

        // Each abort and each fault is counted. The size of chunks stays the same, and no count falls.
        ensures aborted { self.old.delivery ≡ Delivery.Fine → self.new.delivery ≡ Delivery.Aborted → Rose (S.aborts stream.old) (S.aborts stream.new) }
        ensures failed { self.old.delivery ≡ Delivery.Fine → self.new.delivery ≡ Delivery.Failed → Rose (S.stream_faults stream.old) (S.stream_faults stream.new) }
        ensures chunk_size { S.chunk_bytes stream.new ≡ S.chunk_bytes stream.old }
        ensures aborts { S.aborts stream.old ≤ S.aborts stream.new }
        ensures faults { S.stream_faults stream.old ≤ S.stream_faults stream.new }
    {
        let port = self.running.stop(session);
        match self.text_of(session, time) {
            Some(file) => {
                self.deliver(session, &file, stream);
                let bytes = Sequence::from_vec(file);
                self.hand_over(port, PortFile::File { session, bytes }, ports);
            }
            None => self.hand_over(port, PortFile::Lost { session }, ports),
        }
    }

    /// Tells the ports of the running sessions that their files are lost.
    pub(crate) fn lose<X: FilePorts>(&mut self, ports: &mut X)
        ensures home { X.home ports.new ≡ X.home ports.old }
        ensures attributor { self.new.attributor ≡ self.old.attributor }
        ensures running { self.new.running ≡ self.old.running }
        ensures notes { self.new.notes ≡ self.old.notes }
        ensures delivery { self.new.delivery ≡ self.old.delivery }
        ensures spent { self.old.is_spent ≡ true → self.new.is_spent ≡ true }
        ensures told { AreToldLost self.old.running self.new.is_spent (X.given ports.old) (X.given ports.new) }
    {
        if tell_lost(self.alloc, self.running.as_slice(), ports).is_err() {
            self.is_spent = true;
        }
    }
}
