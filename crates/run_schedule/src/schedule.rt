// Schedules: what an isolate did, and when.
ghost use Rattle.std.specs.Prelude.{◌≡◌, ◌↔◌, ◌<◌, ◌≤◌, [], ◌∷◌, ◌++◌, false, length, IfOk, IsTrue};
ghost use Rattle.std.specs.List.{AllByRecursion};
ghost use Rattle.run_schedule.specs.ScheduleParts.{HasPort};

use crate::limits::{MAX_BUDGET, MAX_ENTRIES, MAX_RING, MIN_ENTRIES};
use code_event::Options;
use prof_base::{MAX_INTERVAL, Memory, Micros, SessionId};
use std::alloc::Global;
use std::marker::Model;

/// Why a run ended.
#[derive(Clone, Copy, Debug, PartialEq, Eq)]
pub enum EndCause {
    /// The program halted.
    Halt,
    /// A call found no room on the guest's stack.
    Overflow,
    /// A function ran past its last instruction.
    OffEnd,
    /// The steps reached the budget.
    Budget,
    /// The schedule had no room for a further entry.
    Full,
    /// Out of memory.
    Memory,
}

/// What an isolate did.
#[derive(Clone, Copy, Debug, PartialEq, Eq)]
pub enum What {
    /// It took a sample.
    Sampled,
    /// It was asked for a sample and found the ring full.
    Dropped,
    /// It started a session. Sessions are numbered by their starts, from 1.
    Start(Options),
    /// It stopped a session, which the port had started.
    Stop { port: u8, session: SessionId },
    /// It ended.
    End(EndCause),
}

/// What an isolate did, and when.
#[derive(Clone, Copy, Debug, PartialEq, Eq)]
pub struct ScheduleEntry {
    /// How many steps the guest had done.
    pub step: u64,
    pub time: Micros,
    pub what: What,
}

/// A run of an isolate, as far as the guest's program does not determine it: together with the
/// program it determines each sample and each file of the run. The memory for all entries up to the
/// limit is allocated when the schedule is made.
#[derive(Debug, Drop)]
pub struct Schedule {
    base: u32,
    ring: u32,
    budget: u64,
    limit: u32,
    entries: Vec<ScheduleEntry>,
}

impl Model for Schedule {
    ghost use Rattle.std.specs.Prelude.{◌≤◌, vec_capacity};
    ghost use Rattle.run_schedule.specs.ScheduleParts.{ScheduleParts, IsInRange};

    ghost Value = { ScheduleParts };

    ghost view = { λ s. record { base = s.base; ring = s.ring; budget = s.budget; limit = s.limit; entries = s.entries.items } };

    ghost invariant = { λ s. IsInRange (record { base = s.base; ring = s.ring; budget = s.budget; limit = s.limit; entries = s.entries.items })
        × (s.limit ≤ vec_capacity s.entries) };
}

impl Schedule {
    /// Makes a schedule with no entries. It allocates the memory for `limit` entries.
    pub fn new(
        alloc: Global,
        base: u32,
        ring: u32,
        budget: u64,
        limit: u32,
    ) -> Result<Schedule, Memory>
        requires base_low { 1 ≤ base }
        requires base_high { base ≤ MAX_INTERVAL }
        requires ring_low { 1 ≤ ring }
        requires ring_high { ring ≤ MAX_RING }
        requires budget_low { 1 ≤ budget }
        requires budget_high { budget ≤ MAX_BUDGET }
        requires limit_low { MIN_ENTRIES ≤ limit }
        requires limit_high { limit ≤ MAX_ENTRIES }
        ensures { IfOk result (λ schedule. schedule ≡ record { base = base; ring = ring; budget = budget; limit = limit; entries = [] }) }
    {
        let entries = Vec::with_capacity(alloc, limit as usize)?;
        Ok(Schedule {
            base,
            ring,
            budget,
            limit,
            entries,
        })
    }

    /// Returns the isolate's base interval in microseconds: each session's interval is rounded up
    /// to a multiple of it.
    pub fn base(&self) -> u32
        ensures base { result ≡ self.now.base }
        ensures low { 1 ≤ result }
        ensures high { result ≤ MAX_INTERVAL }
    {
        self.base
    }

    /// Returns the greatest number of samples that wait to be taken.
    pub fn ring(&self) -> u32
        ensures ring { result ≡ self.now.ring }
        ensures low { 1 ≤ result }
        ensures high { result ≤ MAX_RING }
    {
        self.ring
    }

    /// Returns the greatest number of steps.
    pub fn budget(&self) -> u64
        ensures budget { result ≡ self.now.budget }
        ensures low { 1 ≤ result }
        ensures high { result ≤ MAX_BUDGET }
    {
        self.budget
    }

    /// Returns the greatest number of entries.
    pub fn limit(&self) -> u32
        ensures limit { result ≡ self.now.limit }
        ensures low { MIN_ENTRIES ≤ result }
        ensures high { result ≤ MAX_ENTRIES }
    {
        self.limit
    }

    /// Returns what happened, in order.
    pub fn entries(&self) -> &[ScheduleEntry]
        ensures entries { result.now ≡ self.now.entries }
        ensures room { length result.now ≤ self.now.limit }
        ensures ports { AllByRecursion (λ entry. HasPort entry.what) result.now }
    {
        self.entries.as_slice()
    }

    /// Returns whether there is no room for a further entry.
    pub fn is_full(&self) -> bool
        ensures full { IsTrue result ↔ (length self.now.entries ≡ self.now.limit) }
        ensures room { result ≡ false → length self.now.entries < self.now.limit }
    {
        self.entries.len() == self.limit as usize
    }

    /// Adds an entry after the last one. It allocates nothing. A command's port is at most
    /// [`MAX_PORT`].
    pub fn enter(&mut self, entry: ScheduleEntry)
        requires room { length self.old.entries < self.old.limit }
        requires port { HasPort entry.what }
        ensures { self.new ≡ record self.old { entries = self.old.entries ++ entry ∷ [] } }
    {
        self.entries.push(entry).unwrap();
    }
}
