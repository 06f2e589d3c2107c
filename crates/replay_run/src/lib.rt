//! A run of a program by a schedule, on one thread: an isolate over the schedule's ports, whose processor
//! delivers the files of its sessions.
#![tactic(auto)]

mod run;

pub use run::{Replay, replay_schedule};
