//! The objects of the outside that a program is given: a depot of files and a sink of bytes. Each
//! has a version in memory that never fails, one in memory that fails at chosen calls, and a real
//! one.
//!
//! An object answers a fault only if its own count of faults rose in the call. What an object holds
//! or has written is optional in contracts: for the real objects it cannot be observed.
#![tactic(auto)]

mod depot;
mod draft;
mod failing;
pub mod limits;
mod real;
mod sink;

pub use depot::{Depot, GetFault, MemoryDepot, PutFault, Stored, SureDepot};
pub use failing::{FailingPut, Left};
pub use real::{Folder, MAX_FILE, WriterSink};
pub use sink::{MemorySink, Sink, SinkFault, SureSink};
