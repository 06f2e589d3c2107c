//! The code objects of a guest program: which functions have code, and where it lies. Contracts see
//! the functions, where the code of each starts, and the ranges of addresses that it takes.
#![tactic(auto)]

mod func_code;
pub mod laws;
mod moves;
mod name;
mod object;
mod objects;
mod placing;

pub use name::{CodeKind, CodeName};
pub use objects::CodeObjects;
