//! Records of runs. A schedule says what an isolate did and when: together with the guest's program
//! it determines the whole run.
#![tactic(auto)]

pub mod examples;
pub mod laws;
mod limits;
mod schedule;

pub use limits::{DEFAULT_RING, MAX_BUDGET, MAX_ENTRIES, MAX_PORT, MAX_RING, MIN_ENTRIES};
pub use schedule::{EndCause, Schedule, ScheduleEntry, What};
