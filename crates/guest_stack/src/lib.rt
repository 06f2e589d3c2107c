//! The physical stack of the guest: frames in code, each of which stands for the functions that are
//! inlined at its slot, and the registers of these functions.
#![tactic(auto)]

pub mod examples;
mod giving_up;
pub mod laws;
mod stack;

pub use stack::{CodeFrame, Stack};
