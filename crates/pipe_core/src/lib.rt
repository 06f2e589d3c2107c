//! The core of the queues between an isolate and its processor: the stamps that put the items of three
//! queues into one order; the traits of the queues' ends, which say nothing of how a queue is kept; a
//! queue and a ring for one thread; and the core itself, a model of both sides in which each step is one
//! change of one `World`. The laws say what holds of that world after any steps.
#![tactic(auto)]

mod answers;
mod backlog;
mod ends;
pub mod laws;
mod plain_queue;
mod plain_ring;
mod stamp;
mod steps;
mod world;

pub use answers::{Front, NoRoom, Offered};
pub use backlog::Backlog;
pub use ends::{Fronted, Head, Offer, Tail};
pub use plain_queue::PlainQueue;
pub use plain_ring::PlainRing;
pub use stamp::{Stamp, Stamped};
pub use steps::core_step;
pub use world::{Cell, CoreAnswer, CoreStep, Fronting, MAX_RING, Offering, World};
