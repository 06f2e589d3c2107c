// The lines of a schedule's text, as values.
use run_schedule::ScheduleEntry;

/// What the first line says.
#[derive(Clone, Copy, Debug, PartialEq, Eq)]
pub struct ScheduleHead {
    /// The base interval in microseconds.
    pub base: u32,
    /// The greatest number of samples that wait to be taken.
    pub ring: u32,
    /// The greatest number of steps.
    pub budget: u64,
    /// The greatest number of entries.
    pub limit: u32,
}

/// A line of the text.
#[derive(Clone, Copy, Debug, PartialEq, Eq)]
pub enum ScheduleLine {
    /// The first line.
    Head(ScheduleHead),
    Entry(ScheduleEntry),
}
