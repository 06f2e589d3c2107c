//! Folding an item list: each session that ends gives its file to a stream, in the order in which the
//! sessions end.
#![tactic(auto)]

mod delivery;
mod fold;
mod folding;

pub use delivery::{FileNote, deliver_file};
pub use fold::{Folded, fold_items};
