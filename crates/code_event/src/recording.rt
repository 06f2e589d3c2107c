// What sessions record.
use crate::event::Options;
use crate::seen::{DeoptReason, ResolvedTick};
use prof_base::{Micros, Sequence};

/// A session that has begun.
#[derive(Debug, Drop)]
pub struct Begun {
    pub options: Options,
    pub start: Micros,
    /// The ticks for it so far, oldest first.
    pub ticks: Sequence<ResolvedTick>,
}

/// A session that has ended.
#[derive(Debug, Drop)]
pub struct Recording {
    pub begun: Begun,
    pub end: Micros,
    /// The deopt reasons at its end, the latest first.
    pub reasons: Sequence<DeoptReason>,
}
