//! The guest machine: a program's code at addresses, and a physical stack in that code, which stands
//! for the stack of the plain machine.
#![tactic(auto)]

mod acting;
mod calling;
mod collecting;
mod flags;
mod machine;
mod optimising;
mod placing;
mod raising;
mod returning;
mod steps;

pub use machine::{Machine, StepDone};
