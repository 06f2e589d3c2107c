//! What a guest program means, over functions, indices and numbers alone: the plain machine, as a
//! definition with laws and computed examples. It has no code and no addresses.
#![tactic(auto)]

mod ended;
pub mod examples;
pub mod laws;

pub use ended::Ended;
