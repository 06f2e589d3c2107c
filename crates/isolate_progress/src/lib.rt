//! How far an isolate is: its schedule so far, how many steps it has done and how many events and
//! ticks it has raised, and the sessions that run. Each entry is made here, and no memory is allocated
//! after the start.
#![tactic(auto)]

mod progress;
mod running;
mod sessions;

pub use progress::IsoProgress;
