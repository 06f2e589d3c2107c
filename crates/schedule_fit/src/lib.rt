//! Tells whether the program of a guest reaches each entry of a schedule, by a guest machine alone:
//! nothing of the run that the schedule records is done.
#![tactic(auto)]

mod copying;
mod fitting;
mod running;

pub use fitting::{Unfit, test_fit};
