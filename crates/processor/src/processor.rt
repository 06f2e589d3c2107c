// The processor.
ghost use Rattle.std.specs.Prelude.{◌≡◌, ◌≤◌, ◌++◌, ◌∷◌, [], ℕ, List, Option, Some, None, true, false, option_map, IfOk, IfErr};
ghost use Rattle.prof_base.specs.Causes.{Rose};
ghost use Rattle.prof_base.specs.declared.interval.TheConstants.{MAX_INTERVAL};
ghost use Rattle.out_stream.specs.Parts.{Parts};
ghost use Rattle.pipe_core.specs.Observed.{IfThere, HasFirst, ShowsFirst};
ghost use Rattle.pipe_core.specs.Stamps.{event_stamp, tick_stamp};
ghost use Rattle.processor.specs.Course.{StandsFor, answer_with};
ghost use Rattle.std.specs.Borrow.{sem};
ghost use Rattle.processor.specs.CourseLaws.{waiting_in};
ghost use Rattle.processor.specs.Lending.{lends_events, lends_vm_ticks, lends_ring};
ghost use Rattle.processor.specs.Processor.{IsTurn};
ghost use Rattle.processor.specs.Taking.{ShowsNoNext};

use crate::course::Course;
use crate::ports::FilePorts;
use crate::taker::Taker;
use crate::turn::{Delivery, Phase, ProcTurn};
use code_event::{EventRecord, Tick};
use item_fold::FileNote;
use out_stream::OutputStream;
use pipe_core::{Fronted, Head};
use prof_base::{MAX_INTERVAL, Memory};
use std::alloc::Global;
use std::marker::Model;

/// Takes the events and ticks of an isolate from three queues, in the one order of their stamps,
/// attributes the ticks, and delivers the file of each session that ends to a stream and to the port
/// that asked for it.
#[derive(Drop)]
pub struct Processor<E, V, F, S> {
    taker: Taker<E, V, F>,
    course: Course,
    stream: S,
}

impl<E, V, F, S> Model for Processor<E, V, F, S> {
    ghost use Rattle.processor.specs.Processor.{ProcessorParts};

    ghost Value = { ProcessorParts E V F S };

    ghost view = { λ p. record { events = p.taker.events; vm_ticks = p.taker.vm_ticks; ring = p.taker.ring; applied = p.taker.applied; ticked = p.taker.ticked; course = p.course; stream = p.stream } };
}

impl<
    E: Head<EventRecord> + Drop,
    V: Head<Tick> + Drop,
    F: Fronted + Drop,
    S: OutputStream,
> Processor<E, V, F, S> {
    /// Makes the processor of an isolate with this base interval, in microseconds, before any item.
    /// Out of memory, the stream comes back.
    pub fn new(
        alloc: Global,
        base: u32,
        events: E,
        vm_ticks: V,
        ring: F,
        stream: S,
    ) -> Result<Processor<E, V, F, S>, S>
        requires low { 1 ≤ base }
        requires high { base ≤ MAX_INTERVAL }
        ensures events { IfOk result (λ p. p.events ≡ events) }
        ensures vm_ticks { IfOk result (λ p. p.vm_ticks ≡ vm_ticks) }
        ensures ring { IfOk result (λ p. p.ring ≡ ring) }
        ensures stream { IfOk result (λ p. p.stream ≡ stream) }
        ensures stands { IfOk result (λ p. (before : Option Parts) → StandsFor base [] p.applied p.ticked p.course before before) }
        ensures phase { IfOk result (λ p. p.course.phase ≡ Phase.Open) }
        ensures delivery { IfOk result (λ p. p.course.filing.delivery ≡ Delivery.Fine) }
        ensures spent { IfOk result (λ p. p.course.filing.is_spent ≡ false) }
        ensures notes { IfOk result (λ p. p.course.filing.notes ≡ []) }
        ensures back { IfErr result (λ s. s ≡ stream) }
    {
        match Course::new(alloc, base) {
            Ok(course) => Ok(Processor {
                taker: Taker::new(events, vm_ticks, ring),
                course,
                stream,
            }),
            Err(Memory) => Err(stream),
        }
    }

    // Takes the next item, if it waits for one, and does what it asks for; else ends the next of the
    // sessions that wait. Returns what it did, also where memory ran out.
    fn step<X: FilePorts>(&mut self, ports: &mut X) -> ProcTurn
        ensures events_home { E.home self.new.events ≡ E.home self.old.events }
        ensures vm_ticks_home { V.home self.new.vm_ticks ≡ V.home self.old.vm_ticks }
        ensures ring_home { F.home self.new.ring ≡ F.home self.old.ring }
        ensures ports_home { X.home ports.new ≡ X.home ports.old }
        ensures turns { IsTurn
            (record { events = E.passed self.old.events; vm_ticks = V.passed self.old.vm_ticks; ring = F.passed self.old.ring; held_events = E.holds self.old.events; held_vm_ticks = V.holds self.old.vm_ticks; held_samples = F.holds self.old.ring })
            (record { events = E.passed self.new.events; vm_ticks = V.passed self.new.vm_ticks; ring = F.passed self.new.ring; held_events = E.holds self.new.events; held_vm_ticks = V.holds self.new.vm_ticks; held_samples = F.holds self.new.ring })
            self.old.applied self.old.ticked self.new.applied self.new.ticked self.old.course self.new.course (S.parts self.old.stream) (S.parts self.new.stream) (X.given ports.old) (X.given ports.new) result }
        ensures spent { self.old.course.filing.is_spent ≡ true → self.new.course.filing.is_spent ≡ true }
        ensures no_memory { result ≡ ProcTurn.Memory → ⊥ }

        // Over is answered only where a finish was taken and no session waits.
        ensures over_ended { result ≡ ProcTurn.Over → self.new.course.phase ≡ Phase.Open → ⊥ }
        ensures over_none_waits { result ≡ ProcTurn.Over → waiting_in self.new.course.phase self.new.course.filing.running ≡ [] }

        // Nothing is answered only where this call looked at each queue and none shows the next item.
        ensures events_looked { result ≡ ProcTurn.Nothing → Rose (E.looks self.old.events) (E.looks self.new.events) }
        ensures vm_ticks_looked { result ≡ ProcTurn.Nothing → Rose (V.looks self.old.vm_ticks) (V.looks self.new.vm_ticks) }
        ensures ring_looked { result ≡ ProcTurn.Nothing → IfThere (F.held_tick self.new.ring) (Rose (F.empties self.old.ring) (F.empties self.new.ring)) (λ _. Unit {0}) }
        ensures no_next { result ≡ ProcTurn.Nothing → ShowsNoNext self.old.applied self.old.ticked (E.shown self.new.events) (V.shown self.new.vm_ticks) (option_map tick_stamp (F.held_tick self.new.ring)) }
        ensures event_shown { result ≡ ProcTurn.Nothing → ShowsFirst event_stamp (E.holds self.old.events) (E.shown self.new.events) }
        ensures vm_tick_shown { result ≡ ProcTurn.Nothing → ShowsFirst tick_stamp (V.holds self.old.vm_ticks) (V.shown self.new.vm_ticks) }
        ensures sample_shown { result ≡ ProcTurn.Nothing → HasFirst (F.holds self.old.ring) (F.held_tick self.new.ring) }

        // Nothing more is sent after a refusal, and when out of memory.
        ensures untouched { (self.old.course.filing.delivery ≡ Delivery.Fine → ⊥) → self.new.stream ≡ self.old.stream }
        ensures kept { (self.old.course.filing.delivery ≡ Delivery.Fine → ⊥) → self.new.course.filing.delivery ≡ self.old.course.filing.delivery }
        ensures no_more { self.old.course.filing.is_spent ≡ true → self.new.stream ≡ self.old.stream }

        // Each abort and each fault is counted. The size of chunks stays the same, and no count falls.
        ensures aborted { self.old.course.filing.delivery ≡ Delivery.Fine → self.new.course.filing.delivery ≡ Delivery.Aborted → Rose (S.aborts self.old.stream) (S.aborts self.new.stream) }
        ensures failed { self.old.course.filing.delivery ≡ Delivery.Fine → self.new.course.filing.delivery ≡ Delivery.Failed → Rose (S.stream_faults self.old.stream) (S.stream_faults self.new.stream) }
        ensures chunk_size { S.chunk_bytes self.new.stream ≡ S.chunk_bytes self.old.stream }
        ensures aborts { S.aborts self.old.stream ≤ S.aborts self.new.stream }
        ensures faults { S.stream_faults self.old.stream ≤ S.stream_faults self.new.stream }
    {
        match self.course.phase() {
            Phase::Open => match self.taker.take() {
                Some(item) => self.course.take(item, &mut self.stream, ports),
                None => ProcTurn::Nothing,
            },
            Phase::Finishing { time } => self.course.end_next(time, &mut self.stream, ports),
            Phase::Closed => ProcTurn::Over,
        }
    }

    /// Takes the next item by the stamps, if it waits for one and an end shows it: applies an event to the
    /// code, attributes a tick, and ends a stopped session. After a finish with files it ends the running
    /// sessions, one a turn, and after a finish without files it tells their ports that their files are
    /// lost.
    ///
    /// Memory is answered once. From then on items are taken in the same order, none is attributed, and
    /// each later file is lost.
    pub fn turn<X: FilePorts>(&mut self, ports: &mut X) -> ProcTurn
        ensures events_home { E.home self.new.events ≡ E.home self.old.events }
        ensures vm_ticks_home { V.home self.new.vm_ticks ≡ V.home self.old.vm_ticks }
        ensures ring_home { F.home self.new.ring ≡ F.home self.old.ring }
        ensures ports_home { X.home ports.new ≡ X.home ports.old }
        ensures turns { (answer : ProcTurn) × (result ≡ answer_with self.old.course.filing.is_spent self.new.course.filing.is_spent answer) × IsTurn
            (record { events = E.passed self.old.events; vm_ticks = V.passed self.old.vm_ticks; ring = F.passed self.old.ring; held_events = E.holds self.old.events; held_vm_ticks = V.holds self.old.vm_ticks; held_samples = F.holds self.old.ring })
            (record { events = E.passed self.new.events; vm_ticks = V.passed self.new.vm_ticks; ring = F.passed self.new.ring; held_events = E.holds self.new.events; held_vm_ticks = V.holds self.new.vm_ticks; held_samples = F.holds self.new.ring })
            self.old.applied self.old.ticked self.new.applied self.new.ticked self.old.course self.new.course (S.parts self.old.stream) (S.parts self.new.stream) (X.given ports.old) (X.given ports.new) answer }
        ensures spent { self.old.course.filing.is_spent ≡ true → self.new.course.filing.is_spent ≡ true }

        // Memory is answered once.
        ensures memory_before { result ≡ ProcTurn.Memory → self.old.course.filing.is_spent ≡ false }
        ensures memory_now { result ≡ ProcTurn.Memory → self.new.course.filing.is_spent ≡ true }
        ensures no_memory { (result ≡ ProcTurn.Memory → ⊥) → self.new.course.filing.is_spent ≡ self.old.course.filing.is_spent }

        // Over is answered only where a finish was taken and no session waits.
        ensures over_ended { result ≡ ProcTurn.Over → self.new.course.phase ≡ Phase.Open → ⊥ }
        ensures over_none_waits { result ≡ ProcTurn.Over → waiting_in self.new.course.phase self.new.course.filing.running ≡ [] }

        // Nothing is answered only where this call looked at each queue and none shows the next item.
        ensures events_looked { result ≡ ProcTurn.Nothing → Rose (E.looks self.old.events) (E.looks self.new.events) }
        ensures vm_ticks_looked { result ≡ ProcTurn.Nothing → Rose (V.looks self.old.vm_ticks) (V.looks self.new.vm_ticks) }
        ensures ring_looked { result ≡ ProcTurn.Nothing → IfThere (F.held_tick self.new.ring) (Rose (F.empties self.old.ring) (F.empties self.new.ring)) (λ _. Unit {0}) }
        ensures no_next { result ≡ ProcTurn.Nothing → ShowsNoNext self.old.applied self.old.ticked (E.shown self.new.events) (V.shown self.new.vm_ticks) (option_map tick_stamp (F.held_tick self.new.ring)) }
        ensures event_shown { result ≡ ProcTurn.Nothing → ShowsFirst event_stamp (E.holds self.old.events) (E.shown self.new.events) }
        ensures vm_tick_shown { result ≡ ProcTurn.Nothing → ShowsFirst tick_stamp (V.holds self.old.vm_ticks) (V.shown self.new.vm_ticks) }
        ensures sample_shown { result ≡ ProcTurn.Nothing → HasFirst (F.holds self.old.ring) (F.held_tick self.new.ring) }

        // Nothing more is sent after a refusal, and when out of memory.
        ensures untouched { (self.old.course.filing.delivery ≡ Delivery.Fine → ⊥) → self.new.stream ≡ self.old.stream }
        ensures kept { (self.old.course.filing.delivery ≡ Delivery.Fine → ⊥) → self.new.course.filing.delivery ≡ self.old.course.filing.delivery }
        ensures no_more { self.old.course.filing.is_spent ≡ true → self.new.stream ≡ self.old.stream }

        // Each abort and each fault is counted. The size of chunks stays the same, and no count falls.
        ensures aborted { self.old.course.filing.delivery ≡ Delivery.Fine → self.new.course.filing.delivery ≡ Delivery.Aborted → Rose (S.aborts self.old.stream) (S.aborts self.new.stream) }
        ensures failed { self.old.course.filing.delivery ≡ Delivery.Fine → self.new.course.filing.delivery ≡ Delivery.Failed → Rose (S.stream_faults self.old.stream) (S.stream_faults self.new.stream) }
        ensures chunk_size { S.chunk_bytes self.new.stream ≡ S.chunk_bytes self.old.stream }
        ensures aborts { S.aborts self.old.stream ≤ S.aborts self.new.stream }
        ensures faults { S.stream_faults self.old.stream ≤ S.stream_faults self.new.stream }
    {
        let was_spent = self.course.is_spent();
        let answer = self.step(ports);
        if self.course.is_spent() && !was_spent {
            ProcTurn::Memory
        } else {
            answer
        }
    }

    /// Returns how the delivery of the files so far went.
    pub fn delivery(&self) -> Delivery
        ensures { result ≡ self.now.course.filing.delivery }
    {
        self.course.delivery()
    }

    /// Returns whether memory has run out: from then on no tick is attributed and each later file is
    /// lost.
    pub fn is_spent(&self) -> bool
        ensures { result ≡ self.now.course.filing.is_spent }
    {
        self.course.is_spent()
    }

    /// Returns the number of ticks taken.
    pub fn ticked(&self) -> u64
        ensures { result ≡ self.now.ticked }
    {
        self.taker.ticked
    }

    /// Returns the notes of the files that were delivered whole, in order.
    pub fn notes(&self) -> &[FileNote]
        ensures { result.now ≡ self.now.course.filing.notes }
    {
        self.course.notes()
    }

    /// Lends the end of the events. What is put through it changes nothing of what the processor has
    /// taken.
    pub fn events(&mut self) -> &mut E
        ensures* writes_back { sem 𝓛 (lends_events E.row V.row F.row S.row self.entry result) }
        ensures value { result.now ≡ self.old.events }
    {
        let taker = &mut self.taker;
        &mut taker.events
    }

    /// Lends the end of the ticks that no sampling made, in the same way.
    pub fn vm_ticks(&mut self) -> &mut V
        ensures* writes_back { sem 𝓛 (lends_vm_ticks E.row V.row F.row S.row self.entry result) }
        ensures value { result.now ≡ self.old.vm_ticks }
    {
        let taker = &mut self.taker;
        &mut taker.vm_ticks
    }

    /// Lends the end of the ring, in the same way.
    pub fn ring(&mut self) -> &mut F
        ensures* writes_back { sem 𝓛 (lends_ring E.row V.row F.row S.row self.entry result) }
        ensures value { result.now ≡ self.old.ring }
    {
        let taker = &mut self.taker;
        &mut taker.ring
    }

    /// Returns the three ends and the stream.
    pub fn release(self) -> (E, V, F, S)
        ensures events { result.0 ≡ self.events }
        ensures vm_ticks { result.1 ≡ self.vm_ticks }
        ensures ring { result.2 ≡ self.ring }
        ensures stream { result.3 ≡ self.stream }
    {
        let Processor {
            taker,
            course: _,
            stream,
        } = self;
        let Taker {
            events,
            vm_ticks,
            ring,
            ..
        } = taker;
        (events, vm_ticks, ring, stream)
    }
}
