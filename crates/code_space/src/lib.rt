//! The addresses at which the guest's code lies: ranges are placed, freed and compacted. Contracts see
//! the space as the list of the ranges in use, in rising order.
#![tactic(auto)]

mod compacting;
pub mod laws;
mod placing;
mod range;
mod space;

pub use range::{ALIGNMENT, CodeMove, CodeRange, FIRST_ADDRESS, MAX_RANGES, MAX_SIZE, SPACE_END};
pub use space::CodeSpace;
