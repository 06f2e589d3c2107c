//! A run of a program on the step clock, on one thread: an isolate over the clock's ports, whose
//! processor delivers the file of the one recording.
#![tactic(auto)]

mod run;

pub use run::{ClockRun, run_on_clock};
