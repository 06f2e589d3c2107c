//! The isolate: a guest with its recordings. It runs the guest step by step, takes samples of its
//! stack, enters what it does into its schedule, and raises code events and ticks into three queues.
#![tactic(auto)]

mod commands;
pub mod laws;
mod raising;
mod sampling;
mod state;
mod turning;

pub use isolate_ends::{Ends, IsoPorts, IsoTurn};
pub use state::{IsoConfig, Isolate};
