//! The symbolizer: which functions were on the stack of a tick, as paths in both modes. It looks each
//! address up in a code map, and answers what `code_event` defines for the ranges that the map has.
#![tactic(auto)]

mod frame;
mod slot;
mod special;
mod stack;
mod tick;

pub use tick::paths;
