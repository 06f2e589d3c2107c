//! The guest of an isolate: what an isolate sees of the guest machine, moment by moment and step by step.
#![tactic(auto)]

mod guest;
pub mod laws;

pub use guest::Guest;
