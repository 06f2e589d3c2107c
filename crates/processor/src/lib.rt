//! The processor of an isolate's events and ticks: it takes them from their three queues in the one
//! order of their stamps.
#![tactic(auto)]

mod course;
mod filing;
mod giving;
pub mod laws;
mod plain;
mod ports;
mod processor;
mod running;
mod taker;
mod turn;

pub use plain::{settle_plain, take_plain, turn_plain, turns_plain};
pub use ports::{FilePorts, NoPorts, PortCall, SurePorts};
pub use processor::Processor;
pub use running::SessionPort;
pub use taker::Taker;
pub use turn::{Delivery, Phase, ProcTurn};
