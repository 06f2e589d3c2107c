//! The code map, after V8's: whose code is at which address, and why functions are not optimised. It
//! takes code events one by one, and answers what `code_event` defines for the events so far.
#![tactic(auto)]

mod found;
pub mod laws;
mod map;
mod object;
mod objects;
mod reasons;

pub use found::Found;
pub use map::CodeMap;
