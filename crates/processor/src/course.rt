// What is done with each item, and with the sessions that a finish ends.
ghost use Rattle.std.specs.Prelude.{◌≡◌, ◌≤◌, ◌++◌, ◌∷◌, [], ℕ, List, Option, true, false, IfOk, if◌then◌else◌};
ghost use Rattle.prof_base.specs.Causes.{Rose};
ghost use Rattle.prof_base.specs.declared.interval.TheConstants.{MAX_INTERVAL};
ghost use Rattle.code_event.specs.ItemList.{IsLegalItems};
ghost use Rattle.code_event.specs.declared.event.CodeEvent.{CodeEvent};
ghost use Rattle.code_event.specs.declared.event.EventRecord.{EventRecord};
ghost use Rattle.code_event.specs.declared.tick.Item.{Item};
ghost use Rattle.code_event.specs.declared.tick.Item.TheVariants as item;
ghost use Rattle.out_stream.specs.Parts.{Parts};
ghost use Rattle.processor.specs.Course.{EndsFirst, IsFinishing, IsOnCourse, Courses, CoursesEvent, GivesAt, GivesItem, GivesNext, event_answer, item_answer, waiting_answer};
ghost use Rattle.processor.specs.Running.{sessions_of};

use crate::filing::Filing;
use crate::ports::FilePorts;
use crate::turn::{Delivery, Phase, ProcTurn};
use code_event::{CodeEvent, Item};
use item_fold::FileNote;
use out_stream::OutputStream;
use prof_base::{MAX_INTERVAL, Memory, Micros};
use std::alloc::Global;
use std::marker::Model;

/// What was filed, and what is waited for.
#[derive(Drop)]
pub(crate) struct Course {
    phase: Phase,
    filing: Filing,
}

impl Model for Course {
    ghost use Rattle.processor.specs.Course.{CourseParts};

    ghost Value = { CourseParts };

    ghost view = { λ c. record { phase = c.phase; filing = c.filing } };
}

impl Course {
    /// Makes the course before any item.
    pub(crate) fn new(alloc: Global, base: u32) -> Result<Course, Memory>
        requires low { 1 ≤ base }
        requires high { base ≤ MAX_INTERVAL }
        ensures filed { IfOk result (λ course. (before : Option Parts) → IsOnCourse base [] course before before) }
        ensures phase { IfOk result (λ course. course.phase ≡ Phase.Open) }
        ensures delivery { IfOk result (λ course. course.filing.delivery ≡ Delivery.Fine) }
        ensures spent { IfOk result (λ course. course.filing.is_spent ≡ false) }
        ensures notes { IfOk result (λ course. course.filing.notes ≡ []) }
    {
        Ok(Course {
            phase: Phase::Open,
            filing: Filing::new(alloc, base)?,
        })
    }

    // Takes a finish.
    fn finish<X: FilePorts>(&mut self, time: Micros, files: bool, ports: &mut X)
        requires going { self.old.phase ≡ Phase.Open }
        ensures home { X.home ports.new ≡ X.home ports.old }
        ensures courses { (parts : Option Parts) → CoursesEvent self.old parts (CodeEvent.Finish time files) self.new parts }
        ensures gives { (base : ℕ) (items : List Item) → GivesAt base items (CodeEvent.Finish time files) self.old.filing self.new.filing.is_spent (X.given ports.old) (X.given ports.new) }
        ensures phase { self.new.phase ≡ (if files then Phase.Finishing time else Phase.Closed) }
        ensures spent { self.old.filing.is_spent ≡ true → self.new.filing.is_spent ≡ true }
        ensures delivery { self.new.filing.delivery ≡ self.old.filing.delivery }
    {
        if files {
            self.phase = Phase::Finishing { time };
        } else {
            self.filing.lose(ports);
            self.phase = Phase::Closed;
        }
    }

    /// Takes an event.
    fn event<S: OutputStream, X: FilePorts>(
        &mut self,
        event: &CodeEvent,
        stream: &mut S,
        ports: &mut X,
    ) -> ProcTurn
        requires going { self.old.phase ≡ Phase.Open }
        ensures home { X.home ports.new ≡ X.home ports.old }
        ensures answer { result ≡ event_answer event.now }
        ensures courses { CoursesEvent self.old (S.parts stream.old) event.now self.new (S.parts stream.new) }
        ensures gives { (base : ℕ) (items : List Item) (e : EventRecord) (before : Option Parts) → e.event ≡ event.now → IsLegalItems (items ++ item.Event e ∷ [])
            → IsOnCourse base items self.old before (S.parts stream.old)
            → GivesAt base (items ++ item.Event e ∷ []) event.now self.old.filing self.new.filing.is_spent (X.given ports.old) (X.given ports.new) }
        ensures spent { self.old.filing.is_spent ≡ true → self.new.filing.is_spent ≡ true }

        // Nothing more is sent after a refusal, and when out of memory.
        ensures untouched { (self.old.filing.delivery ≡ Delivery.Fine → ⊥) → stream.new ≡ stream.old }
        ensures kept { (self.old.filing.delivery ≡ Delivery.Fine → ⊥) → self.new.filing.delivery ≡ self.old.filing.delivery }
        ensures no_more { self.old.filing.is_spent ≡ true → stream.new ≡ stream.old }

        // Each abort and each fault is counted. The size of chunks stays the same, and no count falls.
        ensures aborted { self.old.filing.delivery ≡ Delivery.Fine → self.new.filing.delivery ≡ Delivery.Aborted → Rose (S.aborts stream.old) (S.aborts stream.new) }
        ensures failed { self.old.filing.delivery ≡ Delivery.Fine → self.new.filing.delivery ≡ Delivery.Failed → Rose (S.stream_faults stream.old) (S.stream_faults stream.new) }
        ensures chunk_size { S.chunk_bytes stream.new ≡ S.chunk_bytes stream.old }
        ensures aborts { S.aborts stream.old ≤ S.aborts stream.new }
        ensures faults { S.stream_faults stream.old ≤ S.stream_faults stream.new }
    {
        match event {
            CodeEvent::Start {
                session,
                options,
                time,
            } => self.filing.start(*session, *options, *time),
            CodeEvent::Stop { session, time } => {
                self.filing.stop(*session, *time, stream, ports);
                return ProcTurn::Finished(*session);
            }
            CodeEvent::Finish { time, files } => self.finish(*time, *files, ports),
            CodeEvent::Create { .. }
            | CodeEvent::Move { .. }
            | CodeEvent::NoOpt { .. }
            | CodeEvent::Deopt { .. }
            | CodeEvent::Delete { .. } => self.filing.change(event),
        }
        ProcTurn::TookEvent
    }

    /// Takes an item.
    pub(crate) fn take<S: OutputStream, X: FilePorts>(
        &mut self,
        item: Item,
        stream: &mut S,
        ports: &mut X,
    ) -> ProcTurn
        requires going { self.old.phase ≡ Phase.Open }
        ensures home { X.home ports.new ≡ X.home ports.old }
        ensures answer { result ≡ item_answer item }
        ensures courses { Courses self.old (S.parts stream.old) item self.new (S.parts stream.new) }
        ensures gives { (base : ℕ) (items : List Item) (before : Option Parts) → IsLegalItems (items ++ item ∷ []) → IsOnCourse base items self.old before (S.parts stream.old)
            → GivesItem base (items ++ item ∷ []) item self.old.filing self.new.filing.is_spent (X.given ports.old) (X.given ports.new) }
        ensures spent { self.old.filing.is_spent ≡ true → self.new.filing.is_spent ≡ true }

        // Nothing more is sent after a refusal, and when out of memory.
        ensures untouched { (self.old.filing.delivery ≡ Delivery.Fine → ⊥) → stream.new ≡ stream.old }
        ensures kept { (self.old.filing.delivery ≡ Delivery.Fine → ⊥) → self.new.filing.delivery ≡ self.old.filing.delivery }
        ensures no_more { self.old.filing.is_spent ≡ true → stream.new ≡ stream.old }

        // Each abort and each fault is counted. The size of chunks stays the same, and no count falls.
        ensures aborted { self.old.filing.delivery ≡ Delivery.Fine → self.new.filing.delivery ≡ Delivery.Aborted → Rose (S.aborts stream.old) (S.aborts stream.new) }
        ensures failed { self.old.filing.delivery ≡ Delivery.Fine → self.new.filing.delivery ≡ Delivery.Failed → Rose (S.stream_faults stream.old) (S.stream_faults stream.new) }
        ensures chunk_size { S.chunk_bytes stream.new ≡ S.chunk_bytes stream.old }
        ensures aborts { S.aborts stream.old ≤ S.aborts stream.new }
        ensures faults { S.stream_faults stream.old ≤ S.stream_faults stream.new }
    {
        match item {
            Item::Event(record) => self.event(&record.event, stream, ports),
            Item::Tick(tick) => {
                self.filing.tick(&tick);
                ProcTurn::TookTick
            }
        }
    }

    /// Returns what is waited for.
    pub(crate) fn phase(&self) -> Phase
        ensures { result ≡ self.now.phase }
    {
        self.phase
    }

    /// Returns whether memory has run out.
    pub(crate) fn is_spent(&self) -> bool
        ensures { result ≡ self.now.filing.is_spent }
    {
        self.filing.is_spent()
    }

    /// Returns how the delivery of the files so far went.
    pub(crate) fn delivery(&self) -> Delivery
        ensures { result ≡ self.now.filing.delivery }
    {
        self.filing.delivery()
    }

    /// Returns the notes of the files that were delivered whole, in order.
    pub(crate) fn notes(&self) -> &[FileNote]
        ensures { result.now ≡ self.now.filing.notes }
    {
        self.filing.notes()
    }

    /// Ends the next of the sessions that wait for their files.
    pub(crate) fn end_next<S: OutputStream, X: FilePorts>(
        &mut self,
        time: Micros,
        stream: &mut S,
        ports: &mut X,
    ) -> ProcTurn
        requires finishing { self.old.phase ≡ Phase.Finishing time }
        ensures home { X.home ports.new ≡ X.home ports.old }
        ensures answer { result ≡ waiting_answer (Phase.Finishing time) (sessions_of self.old.filing.running) }
        ensures phase { self.new.phase ≡ self.old.phase }
        ensures over { result ≡ ProcTurn.Over → sessions_of self.new.filing.running ≡ [] }
        ensures ends { EndsFirst self.old.filing.running self.old.filing self.new.filing }
        ensures goes_on { (base : ℕ) (items : List Item) (before : Option Parts) → IsLegalItems items → IsFinishing base items time self.old.filing before (S.parts stream.old)
            → IsFinishing base items time self.new.filing before (S.parts stream.new) }
        ensures gives { (base : ℕ) (items : List Item) (before : Option Parts) → IsLegalItems items → IsFinishing base items time self.old.filing before (S.parts stream.old)
            → GivesNext base items (sessions_of self.old.filing.running) self.old.filing self.new.filing.is_spent (X.given ports.old) (X.given ports.new) }
        ensures spent { self.old.filing.is_spent ≡ true → self.new.filing.is_spent ≡ true }

        // Nothing more is sent after a refusal, and when out of memory.
        ensures untouched { (self.old.filing.delivery ≡ Delivery.Fine → ⊥) → stream.new ≡ stream.old }
        ensures kept { (self.old.filing.delivery ≡ Delivery.Fine → ⊥) → self.new.filing.delivery ≡ self.old.filing.delivery }
        ensures no_more { self.old.filing.is_spent ≡ true → stream.new ≡ stream.old }

        // Each abort and each fault is counted. The size of chunks stays the same, and no count falls.
        ensures aborted { self.old.filing.delivery ≡ Delivery.Fine → self.new.filing.delivery ≡ Delivery.Aborted → Rose (S.aborts stream.old) (S.aborts stream.new) }
        ensures failed { self.old.filing.delivery ≡ Delivery.Fine → self.new.filing.delivery ≡ Delivery.Failed → Rose (S.stream_faults stream.old) (S.stream_faults stream.new) }
        ensures chunk_size { S.chunk_bytes stream.new ≡ S.chunk_bytes stream.old }
        ensures aborts { S.aborts stream.old ≤ S.aborts stream.new }
        ensures faults { S.stream_faults stream.old ≤ S.stream_faults stream.new }
    {
        match self.filing.first_running() {
            Some(session) => {
                self.filing.stop(session, time, stream, ports);
                ProcTurn::Finished(session)
            }
            None => ProcTurn::Over,
        }
    }
}
