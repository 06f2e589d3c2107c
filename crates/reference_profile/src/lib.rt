//! The reference for profiles: plain functions that compute the definitions of `code_event`, from
//! an item list to the bytes of a session's file. They are slow, and take time that grows with the
//! square of the number of nodes and ticks; the parts that run while the guest runs have to meet
//! the same definitions.
#![tactic(auto)]

mod code_map;
mod deopt_reasons;
mod moment;
mod path_order;
mod profile;
mod profile_text;
mod recording;
mod subsample;
mod symbolizer;
mod tree;

pub use moment::seen_items;
pub use profile::{file, finished_of};
pub use profile_text::file_text;
