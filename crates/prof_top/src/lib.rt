//! The top calls of the profiler: what the program does for the words of its command line.
#![tactic(auto)]

mod call;
mod due;
mod ending;
mod fold;
pub mod laws;
mod load;
mod printing;
mod printout;
mod putting;
mod run;
mod words;

pub use call::{Outcome, cpuprof_once};
pub use words::{BUDGET, ENTRIES};
