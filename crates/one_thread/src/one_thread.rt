// An isolate and its processor.
ghost use Rattle.std.specs.Prelude.{◌≡◌, ◌≤◌, ◌++◌, [], ◌∷◌, ℕ, List, true, false, Option, IfOk, IfErr};
ghost use Rattle.prof_base.specs.declared.interval.TheConstants.{MAX_INTERVAL};
ghost use Rattle.guest_program.specs.declared.instr.Func.{Func};
ghost use Rattle.code_event.specs.ItemList.{IsLegalItems};
ghost use Rattle.code_event.specs.declared.tick.Item.{Item};
ghost use Rattle.out_stream.specs.Parts.{Parts};
ghost use Rattle.run_schedule.specs.declared.limits.TheConstants.{MAX_BUDGET, MAX_ENTRIES, MAX_RING, MIN_ENTRIES};
ghost use Rattle.run_schedule.specs.declared.schedule.EndCause.{EndCause};
ghost use Rattle.isolate_acts.specs.Progress.{Moment};
ghost use Rattle.processor.specs.Course.{StandsFor};
ghost use Rattle.processor.specs.Filing.{answer_of};
ghost use Rattle.processor.specs.Settling.{GoesOnTo, IsSettled};
ghost use Rattle.processor.specs.TakingLaws.{HoldRest};
ghost use Rattle.one_thread.specs.declared.ring.TheConstants.{PLACES};
ghost use Rattle.one_thread.specs.UnderWay.{AreAlike, AreEmpty, HasOpened, HasRaised, HasTurned, IsBetween, IsHanded, IsUnderWay, Outlet};

use crate::ring::{PLACES, TurnRing};
use code_event::{EventRecord, Tick};
use guest_program::Program;
use history::History;
use isolate_turns::{Ends, IsoConfig, IsoPorts, IsoTurn, Isolate};
use item_fold::FileNote;
use out_stream::{OutputStream, Undelivered};
use pipe_core::{Front, Fronted, Head, PlainQueue, PlainRing};
use processor::{Delivery, FilePorts, NoPorts, Phase, Processor, settle_plain};
use prof_base::{MAX_INTERVAL, Memory};
use run_schedule::{MAX_BUDGET, MAX_ENTRIES, MAX_RING, MIN_ENTRIES, Schedule};
use std::alloc::Global;
use std::mem;

/// An isolate, and the processor that takes what it raises and delivers the files to a stream.
#[derive(Drop)]
pub struct OneThread<S> {
    pub isolate: Isolate<PlainQueue<EventRecord>, PlainQueue<Tick>, TurnRing>,
    pub processor: Processor<PlainQueue<EventRecord>, PlainQueue<Tick>, PlainRing, S>,
}

impl<S: OutputStream> OneThread<S> {
    // Returns whether the isolate's queues hold something.
    fn has_raised(&mut self) -> bool
        ensures isolate { self.new.isolate ≡ record self.old.isolate { ends = self.new.isolate.ends } }
        ensures processor { self.new.processor ≡ self.old.processor }
        ensures events { self.new.isolate.ends.events.items ≡ self.old.isolate.ends.events.items }
        ensures vm_ticks { self.new.isolate.ends.vm_ticks.items ≡ self.old.isolate.ends.vm_ticks.items }
        ensures samples { self.new.isolate.ends.ring.ring.items ≡ self.old.isolate.ends.ring.ring.items }
        ensures spare { self.new.isolate.ends.events.spare ≡ self.old.isolate.ends.events.spare }
        ensures places { self.new.isolate.ends.ring.ring.places ≡ self.old.isolate.ends.ring.ring.places }
        ensures refuses { self.new.isolate.ends.ring.refuses ≡ self.old.isolate.ends.ring.refuses }
        ensures nothing { result ≡ false → AreEmpty self.old.isolate.ends.events.items self.old.isolate.ends.vm_ticks.items self.old.isolate.ends.ring.ring.items }
    {
        let ends = self.isolate.ends();
        if ends.events.peek().is_some() {
            return true;
        }
        if ends.vm_ticks.peek().is_some() {
            return true;
        }
        match ends.ring.ring.front() {
            Front::Tick(_) => true,
            Front::Empty => false,
        }
    }

    // Passes the isolate's queues on to the processor, whose queues the isolate gets.
    fn pass_on(&mut self)
        ensures isolate { self.new.isolate ≡ record self.old.isolate { ends = record { events = self.old.processor.events; vm_ticks = self.old.processor.vm_ticks; ring = record self.old.isolate.ends.ring { ring = self.old.processor.ring } } } }
        ensures processor { self.new.processor ≡ record self.old.processor { events = self.old.isolate.ends.events; vm_ticks = self.old.isolate.ends.vm_ticks; ring = self.old.isolate.ends.ring.ring } }
    {
        let ends = self.isolate.ends();
        mem::swap(&mut ends.events, self.processor.events());
        mem::swap(&mut ends.vm_ticks, self.processor.vm_ticks());
        mem::swap(&mut ends.ring.ring, self.processor.ring());
    }

    // Passes on what the isolate's queues hold, if anything, and turns the processor until all of it is
    // taken.
    fn hand_on<X: FilePorts>(&mut self, files: &mut X)
        requires between { (base : ℕ) × (raised more : List Item) × (before : Option Parts) × IsBetween base raised more before (S.parts self.old.processor.stream) self.old.isolate self.old.processor }
        ensures isolate { self.new.isolate ≡ record self.old.isolate { ends = self.new.isolate.ends } }
        ensures handed { (base : ℕ) (raised more : List Item) (before : Option Parts) → IsBetween base raised more before (S.parts self.old.processor.stream) self.old.isolate self.old.processor
            → IsHanded base (raised ++ more) before (S.parts self.new.processor.stream) self.new.isolate self.new.processor }
        ensures alike { (ending : Option EndCause) → AreAlike ending self.old.isolate self.old.processor → AreAlike ending self.new.isolate self.new.processor }
        ensures refuses { self.new.isolate.ends.ring.refuses ≡ self.old.isolate.ends.ring.refuses }
        ensures refusing { GoesOnTo self.old.processor.course.filing self.new.processor.course.filing (S.aborts self.old.processor.stream) (S.stream_faults self.old.processor.stream) (S.aborts self.new.processor.stream) (S.stream_faults self.new.processor.stream) }
        ensures chunk_size { S.chunk_bytes self.new.processor.stream ≡ S.chunk_bytes self.old.processor.stream }
    {
        if self.has_raised() {
            self.pass_on();
            settle_plain(&mut self.processor, files);
        }
    }

    // Makes the isolate, over queues that hold nothing.
    fn isolate(
        alloc: Global,
        program: Program,
        config: IsoConfig,
    ) -> Result<Isolate<PlainQueue<EventRecord>, PlainQueue<Tick>, TurnRing>, Memory>
        requires base_low { 1 ≤ config.base }
        requires base_high { config.base ≤ MAX_INTERVAL }
        requires ring_low { 1 ≤ config.ring }
        requires ring_high { config.ring ≤ MAX_RING }
        requires budget_low { 1 ≤ config.budget }
        requires budget_high { config.budget ≤ MAX_BUDGET }
        requires limit_low { MIN_ENTRIES ≤ config.limit }
        requires limit_high { config.limit ≤ MAX_ENTRIES }
        ensures opened { IfOk result (λ isolate. HasRaised program config isolate) }
    {
        let ends = Ends {
            events: PlainQueue::new(alloc)?,
            vm_ticks: PlainQueue::new(alloc)?,
            ring: TurnRing {
                ring: PlainRing::new(alloc, PLACES)?,
                refuses: false,
                refused: History::new(),
            },
        };
        Isolate::new(alloc, program, config, ends)
    }

    // Makes the processor, over queues that hold nothing. Out of memory, the stream comes back.
    fn processor(
        alloc: Global,
        config: IsoConfig,
        stream: S,
    ) -> Result<Processor<PlainQueue<EventRecord>, PlainQueue<Tick>, PlainRing, S>, S>
        requires base_low { 1 ≤ config.base }
        requires base_high { config.base ≤ MAX_INTERVAL }
        ensures stands { IfOk result (λ p. (before : Option Parts) → StandsFor config.base [] p.applied p.ticked p.course before before) }
        ensures phase { IfOk result (λ p. p.course.phase ≡ Phase.Open) }
        ensures delivery { IfOk result (λ p. p.course.filing.delivery ≡ Delivery.Fine) }
        ensures events { IfOk result (λ p. p.events ≡ record { items = []; spare = 1; is_shown = false; looks = 0 }) }
        ensures vm_ticks { IfOk result (λ p. p.vm_ticks.items ≡ []) }
        ensures ring { IfOk result (λ p. p.ring ≡ record { items = []; places = PLACES; is_held = false; fulls = 0; empties = 0 }) }
        ensures stream { IfOk result (λ p. p.stream ≡ stream) }
        ensures back { IfErr result (λ s. s ≡ stream) }
    {
        let Ok(events) = PlainQueue::new(alloc) else {
            return Err(stream);
        };
        let Ok(vm_ticks) = PlainQueue::new(alloc) else {
            return Err(stream);
        };
        let Ok(ring) = PlainRing::new(alloc, PLACES) else {
            return Err(stream);
        };
        Processor::new(alloc, config.base, events, vm_ticks, ring, stream)
    }

    /// Opens the isolate of a program with its processor, before the first step. Out of memory, the
    /// stream comes back.
    pub fn new(
        alloc: Global,
        program: Program,
        config: IsoConfig,
        stream: S,
    ) -> Result<OneThread<S>, S>
        requires base_low { 1 ≤ config.base }
        requires base_high { config.base ≤ MAX_INTERVAL }
        requires ring_low { 1 ≤ config.ring }
        requires ring_high { config.ring ≤ MAX_RING }
        requires budget_low { 1 ≤ config.budget }
        requires budget_high { config.budget ≤ MAX_BUDGET }
        requires limit_low { MIN_ENTRIES ≤ config.limit }
        requires limit_high { config.limit ≤ MAX_ENTRIES }
        ensures opened { IfOk result (λ t. HasOpened program config
            (record { parts = S.parts stream; aborts = S.aborts stream; faults = S.stream_faults stream; chunk_bytes = S.chunk_bytes stream })
            (record { parts = S.parts t.processor.stream; aborts = S.aborts t.processor.stream; faults = S.stream_faults t.processor.stream; chunk_bytes = S.chunk_bytes t.processor.stream })
            t.isolate t.processor) }
        ensures back { IfErr result (λ s. s ≡ stream) }
    {
        let Ok(isolate) = OneThread::<S>::isolate(alloc, program, config) else {
            return Err(stream);
        };
        let processor = OneThread::processor(alloc, config, stream)?;
        let mut thread = OneThread { isolate, processor };
        thread.hand_on(&mut NoPorts);
        Ok(thread)
    }

    /// Has the ring refuse each sample that is offered from now on, as if its slot were still full, or
    /// take each.
    pub fn refuse_samples(&mut self, refuses: bool)
        ensures isolate { self.new.isolate ≡ record self.old.isolate { ends = record self.old.isolate.ends { ring = record self.old.isolate.ends.ring { refuses = refuses } } } }
        ensures processor { self.new.processor ≡ self.old.processor }
        ensures way { (base : ℕ) (funcs : List Func) (moment : Moment) (raised : List Item) (before now : Outlet)
            → IsUnderWay base funcs moment raised before now self.old.isolate self.old.processor → IsUnderWay base funcs moment raised before now self.new.isolate self.new.processor }
    {
        self.isolate.ends().ring.refuses = refuses;
    }

    /// Does a turn of the isolate, and passes on what it has raised, if anything, until the processor has
    /// taken all of it.
    pub fn turn<P: IsoPorts, X: FilePorts>(&mut self, ports: &mut P, files: &mut X) -> IsoTurn
        requires under_way { (base : ℕ) × (funcs : List Func) × (moment : Moment) × (raised : List Item) × (before : Outlet)
            × IsUnderWay base funcs moment raised before (record { parts = S.parts self.old.processor.stream; aborts = S.aborts self.old.processor.stream; faults = S.stream_faults self.old.processor.stream; chunk_bytes = S.chunk_bytes self.old.processor.stream }) self.old.isolate self.old.processor }
        ensures turned { (base : ℕ) (funcs : List Func) (moment : Moment) (raised : List Item) (before : Outlet)
            → IsUnderWay base funcs moment raised before (record { parts = S.parts self.old.processor.stream; aborts = S.aborts self.old.processor.stream; faults = S.stream_faults self.old.processor.stream; chunk_bytes = S.chunk_bytes self.old.processor.stream }) self.old.isolate self.old.processor
            → HasTurned base funcs moment raised before (record { parts = S.parts self.new.processor.stream; aborts = S.aborts self.new.processor.stream; faults = S.stream_faults self.new.processor.stream; chunk_bytes = S.chunk_bytes self.new.processor.stream })
            self.old.isolate self.new.isolate self.new.processor (P.calls ports.old) (P.calls ports.new) result }
        ensures ports { P.ports_home ports.new ≡ P.ports_home ports.old }
    {
        let answer = self.isolate.turn(ports);
        self.hand_on(files);
        answer
    }

    /// Returns the schedule so far.
    pub fn schedule(&self) -> &Schedule
        ensures { result.now ≡ self.now.isolate.progress.schedule }
    {
        self.isolate.schedule()
    }

    /// Returns what the program has printed so far.
    pub fn printed(&self) -> &[u8]
        ensures { result.now ≡ self.now.isolate.printed.items }
    {
        self.isolate.printed()
    }

    /// Returns the notes of the files that were delivered whole, in order.
    pub fn notes(&self) -> &[FileNote]
        ensures { result.now ≡ self.now.processor.course.filing.notes }
    {
        self.processor.notes()
    }

    /// Returns how the delivery of the files so far went: Memory where memory ran out for one of them.
    pub fn delivered(&self) -> Result<(), Undelivered>
        ensures { result ≡ answer_of self.now.processor.course.filing.delivery self.now.processor.course.filing.is_spent }
    {
        match self.processor.delivery() {
            Delivery::Fine if self.processor.is_spent() => Err(Undelivered::Memory),
            Delivery::Fine => Ok(()),
            Delivery::Aborted => Err(Undelivered::Aborted),
            Delivery::Failed => Err(Undelivered::Failed),
        }
    }

    /// Closes both sides, and returns the schedule and the stream.
    pub fn close(self) -> (Schedule, S)
        ensures schedule { result.0 ≡ self.isolate.progress.schedule }
        ensures stream { result.1 ≡ self.processor.stream }
    {
        let OneThread { isolate, processor } = self;
        let (schedule, _, _) = isolate.close();
        let (_, _, _, stream) = processor.release();
        (schedule, stream)
    }
}
