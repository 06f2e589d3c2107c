// The isolate, and what can be observed of it.
ghost use Rattle.std.specs.Prelude.{◌≡◌, ◌+◌, ◌<◌, ◌≤◌, ◌++◌, [], ◌∷◌, length, true, false, List, None, IfOk, if◌then◌else◌};
ghost use Rattle.std.specs.Borrow.{sem};
ghost use Rattle.prof_base.specs.Causes.{Rose};
ghost use Rattle.code_event.specs.declared.event.CodeEvent.{CodeEvent};
ghost use Rattle.pipe_core.specs.Observed.{IsObserved};
ghost use Rattle.guest_machine.specs.Machine.{IsMachine, program_of};
ghost use Rattle.isolate_guest.specs.Guest.{IsAt, OpensAt};
ghost use Rattle.isolate_acts.specs.Acts.{numbered, samples};
ghost use Rattle.isolate_acts.specs.Calls.{with_calls};
ghost use Rattle.isolate_acts.specs.Phases.{HasRoom};
ghost use Rattle.isolate_acts.specs.Progress.{Moment, entry_count, source_now, some_runs, entry_time};
ghost use Rattle.isolate_acts.specs.Sampling.{after_sample, raised_by_sample, sample_of};
ghost use Rattle.isolate_ends.specs.Queues.{HaveMore, shown};
ghost use Rattle.guest_program.specs.declared.instr.Func.{Func};
ghost use Rattle.code_event.specs.declared.tick.Item.{Item};
ghost use Rattle.isolate_turns.specs.Kept.{IsKept};
ghost use Rattle.isolate_turns.specs.Lending.{lends_ends};
ghost use Rattle.isolate_turns.specs.Ready.{IsIsolate, IsNow, IsReady};

use code_event::{EventRecord, Frames, Tick};
use guest_program::Program;
use isolate_ends::Ends;
use isolate_guest::Guest;
use isolate_progress::IsoProgress;
use pipe_core::{Offer, Tail};
use prof_base::{MAX_INTERVAL, Memory};
use run_schedule::{MAX_BUDGET, MAX_ENTRIES, MAX_RING, MIN_ENTRIES, Schedule};
use std::alloc::Global;

/// What an isolate is opened with.
#[derive(Clone, Copy, Debug, PartialEq, Eq)]
pub struct IsoConfig {
    /// The base interval in microseconds: each session's interval is rounded up to a multiple of it.
    pub base: u32,
    /// The greatest number of samples that wait to be taken.
    pub ring: u32,
    /// The greatest number of steps.
    pub budget: u64,
    /// The greatest number of entries of the schedule.
    pub limit: u32,
}

/// A guest with its recordings.
#[derive(Drop)]
pub struct Isolate<E, V, O> {
    pub(crate) alloc: Global,
    pub(crate) guest: Guest,
    pub(crate) progress: IsoProgress,
    pub(crate) printed: Vec<u8>,
    pub(crate) ends: Ends<E, V, O>,
}

impl<E, V, O> Isolate<E, V, O> {
    /// Returns the schedule so far.
    pub fn schedule(&self) -> &Schedule
        ensures schedule { result.now ≡ self.now.progress.schedule }
    {
        self.progress.schedule()
    }

    /// Returns what the program has printed so far.
    pub fn printed(&self) -> &[u8]
        ensures printed { result.now ≡ self.now.printed.items }
    {
        self.printed.as_slice()
    }

    /// Returns the ends of the queues, from which items may be taken.
    pub fn ends(&mut self) -> &mut Ends<E, V, O>
        ensures* writes_back { sem 𝓛 (lends_ends E.row V.row O.row self.entry result) }
        ensures value { result.now ≡ self.old.ends }
    {
        &mut self.ends
    }

    /// Closes the isolate, and returns the schedule, what the program has printed, and the ends of the
    /// queues.
    pub fn close(self) -> (Schedule, Vec<u8>, Ends<E, V, O>)
        ensures schedule { result.0 ≡ self.progress.schedule }
        ensures printed { result.1.items ≡ self.printed.items }
        ensures ends { result.2 ≡ self.ends }
    {
        let Isolate {
            progress,
            printed,
            ends,
            ..
        } = self;
        (progress.into_schedule(), printed, ends)
    }

    // Returns the tick of a sample that is taken now.
    fn sample(&self, now: u64) -> Tick
        requires machine { IsMachine self.now.guest.machine }
        ensures sample { (moment : Moment) → IsAt self.now.guest.machine moment → result ≡ sample_of moment self.now.progress now }
        ensures hit { result.hit ≡ true }
    {
        let mut tick = Tick {
            order: self.progress.events(),
            tick_number: self.progress.ticks() + 1,
            time: self.progress.entry_time(now),
            interval: self.progress.source(),
            state: self.guest.state(),
            hit: true,
            only: None,
            frames: Frames::new(),
        };
        self.guest.frames(&mut tick.frames);
        tick
    }
}

impl<E: Tail<EventRecord> + Drop, V: Tail<Tick> + Drop, O: Offer + Drop> Isolate<E, V, O> {
    /// Opens the isolate of a program, before its first step. All memory for the schedule is allocated.
    pub fn new(
        alloc: Global,
        program: Program,
        config: IsoConfig,
        ends: Ends<E, V, O>,
    ) -> Result<Isolate<E, V, O>, Memory>
        requires base_low { 1 ≤ config.base }
        requires base_high { config.base ≤ MAX_INTERVAL }
        requires ring_low { 1 ≤ config.ring }
        requires ring_high { config.ring ≤ MAX_RING }
        requires budget_low { 1 ≤ config.budget }
        requires budget_high { config.budget ≤ MAX_BUDGET }
        requires limit_low { MIN_ENTRIES ≤ config.limit }
        requires limit_high { config.limit ≤ MAX_ENTRIES }
        requires spare { 1 ≤ E.spare ends.events }
        ensures whole { IfOk result (λ isolate. IsIsolate isolate.guest.machine isolate.progress) }
        ensures program { IfOk result (λ isolate. program_of isolate.guest.machine ≡ program) }
        ensures progress { IfOk result (λ isolate. isolate.progress ≡ record {
          schedule = record { base = config.base; ring = config.ring; budget = config.budget; limit = config.limit; entries = [] };
          step = 0;
          events = 1;
          ticks = 0;
          is_sampled = false;
          ending = None;
        }) }
        ensures printed { IfOk result (λ isolate. isolate.printed.items ≡ []) }
        // The one event that it opens with is the creation of the code of `main`.
        ensures opens { IfOk result (λ isolate. (event : CodeEvent) × (moment : Moment)
            × IsAt isolate.guest.machine moment × OpensAt program event moment × IsKept program moment isolate.progress (numbered 0 0 (event ∷ []))
            × HaveMore (shown E.passed V.passed O.passed E.holds V.holds O.holds ends) (shown E.passed V.passed O.passed E.holds V.holds O.holds isolate.ends) (numbered 0 0 (event ∷ []))) }
        ensures spare { IfOk result (λ isolate. E.spare isolate.ends.events ≡ E.spare ends.events) }
        ensures home { IfOk result (λ isolate. E.home isolate.ends.events ≡ E.home ends.events) }
        ensures vm_ticks { IfOk result (λ isolate. isolate.ends.vm_ticks ≡ ends.vm_ticks) }
        ensures ring { IfOk result (λ isolate. isolate.ends.ring ≡ ends.ring) }
    {
        let progress = IsoProgress::new(
            alloc,
            config.base,
            config.ring,
            config.budget,
            config.limit,
        )?;
        let (guest, event) = Guest::new(alloc, program)?;
        let mut ends = ends;
        let first = EventRecord {
            number: 1,
            ticks_before: 0,
            event,
        };
        ends.put_event(alloc, first)?;
        Ok(Isolate {
            alloc,
            guest,
            progress,
            printed: Vec::new(alloc),
            ends,
        })
    }
}

impl<E: Tail<EventRecord>, V: Tail<Tick>, O: Offer> Isolate<E, V, O> {
    // Takes a sample that is entered with this reading of the clock, and returns whether it is in the ring.
    pub(crate) fn enter_sample(&mut self, now: u64) -> bool
        requires machine { IsMachine self.old.guest.machine }
        requires place { entry_count self.old.progress < self.old.progress.schedule.limit }
        ensures progress { self.new.progress ≡ after_sample self.old.progress now result }
        ensures guest { self.new.guest ≡ self.old.guest }
        ensures printed { self.new.printed ≡ self.old.printed }
        ensures events { self.new.ends.events ≡ self.old.ends.events }
        ensures vm_ticks { self.new.ends.vm_ticks ≡ self.old.ends.vm_ticks }
        ensures home { O.home self.new.ends.ring ≡ O.home self.old.ends.ring }
        ensures more { (moment : Moment) → IsAt self.old.guest.machine moment
            → HaveMore (shown E.passed V.passed O.passed E.holds V.holds O.holds self.old.ends) (shown E.passed V.passed O.passed E.holds V.holds O.holds self.new.ends) (raised_by_sample moment self.old.progress now result) }
        ensures dropped { result ≡ false → Rose (O.fulls self.old.ends.ring) (O.fulls self.new.ends.ring) }
        ensures counted { IsObserved (O.passed self.old.ends.ring) → O.fulls self.new.ends.ring ≡ O.fulls self.old.ends.ring + (if result then 0 else 1) }
    {
        let tick = self.sample(now);
        let is_in = self.ends.offer(tick);
        self.progress.sample(now, is_in);
        is_in
    }

    /// Takes a sample between turns, with a reading of the clock in microseconds, and returns whether it is
    /// in the ring: else its slot was still full, and the sample is dropped. It takes no memory and does not
    /// wait.
    pub fn take_sample(&mut self, now: u64) -> bool
        requires whole { IsIsolate self.old.guest.machine self.old.progress }
        requires going { self.old.progress.ending ≡ None }
        requires session { some_runs self.old.progress ≡ true }
        requires once { self.old.progress.is_sampled ≡ false }
        requires room { HasRoom self.old.progress }
        requires spare { 1 ≤ E.spare self.old.ends.events }
        ensures whole { IsIsolate self.new.guest.machine self.new.progress }
        ensures progress { self.new.progress ≡ after_sample self.old.progress now result }
        ensures guest { self.new.guest ≡ self.old.guest }
        ensures printed { self.new.printed ≡ self.old.printed }
        ensures events { self.new.ends.events ≡ self.old.ends.events }
        ensures vm_ticks { self.new.ends.vm_ticks ≡ self.old.ends.vm_ticks }
        ensures home { O.home self.new.ends.ring ≡ O.home self.old.ends.ring }
        // What it raises is the sample of this moment, or nothing where it is dropped.
        ensures more { (moment : Moment) → IsAt self.old.guest.machine moment
            → HaveMore (shown E.passed V.passed O.passed E.holds V.holds O.holds self.old.ends) (shown E.passed V.passed O.passed E.holds V.holds O.holds self.new.ends) (raised_by_sample moment self.old.progress now result) }
        // It stands for what it stood for, and what it raises after it.
        ensures kept { (funcs : List Func) (moment : Moment) (raised : List Item) → IsKept funcs moment self.old.progress raised
            → IsKept funcs moment self.new.progress (raised ++ raised_by_sample moment self.old.progress now result) }
        ensures dropped { result ≡ false → Rose (O.fulls self.old.ends.ring) (O.fulls self.new.ends.ring) }
        ensures counted { IsObserved (O.passed self.old.ends.ring) → O.fulls self.new.ends.ring ≡ O.fulls self.old.ends.ring + (if result then 0 else 1) }
    {
        self.enter_sample(now)
    }
}
