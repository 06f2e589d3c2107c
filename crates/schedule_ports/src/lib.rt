//! The ports of a run that does what a schedule says: they give its commands, ask for its samples and
//! tell its times. And the law that an isolate over them stays on the schedule.
#![tactic(auto)]

pub mod laws;
mod ports;

pub use ports::SchedulePorts;
