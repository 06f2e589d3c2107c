//! The book of running sessions: each has its tree, which grows tick by tick, its samples, and a counter
//! that thins the ticks to the session's own interval. `code_event` defines what each has in the end.
#![tactic(auto)]

mod book;
mod counter;
pub mod laws;
mod refused;
mod sampled;
mod session;
mod sessions;

pub use book::Book;
pub use refused::{StartRefused, StopRefused};
