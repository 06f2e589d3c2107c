//! The step clock: the ports of a run by which one recording starts before the first step, a sample is
//! asked for after each multiple of its interval, and the time is the number of steps. And the laws of
//! its schedules: every run has just one.
#![tactic(auto)]

pub mod laws;
mod ports;

pub use ports::StepClock;
