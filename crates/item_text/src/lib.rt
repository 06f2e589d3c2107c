//! Item lists and their text: what an isolate raised, in order, with its base interval.
#![tactic(auto)]

mod begun;
mod draft;
mod gathered;
mod item_form;
mod item_line;
mod item_writing;
mod items;
pub mod laws;
mod progress;

pub use item_writing::write_items;
pub use items::{ItemList, read_items};
