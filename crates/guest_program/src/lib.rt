//! Guest programs: lists of functions, each a list of instructions, and the rules that they keep.
#![tactic(auto)]

mod instr;
pub mod laws;
mod program;
mod reg;

pub use instr::{Func, Instr, Op};
pub use program::Program;
pub use reg::Reg;
