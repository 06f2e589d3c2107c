//! The layouts of a guest function's code: its plain code, with a slot for each instruction, and its
//! optimised code, with calls of inline functions inlined.
#![tactic(auto)]

pub mod examples;
pub mod laws;
mod layouts;
mod parts;
mod refused;
mod sizes;
mod table;

pub use layouts::{inlined, plain};
pub use refused::LayoutRefused;
pub use table::SlotTable;
