//! Attribution: the code map and the book of sessions of an isolate, kept together. Items go in, in the
//! order in which the isolate raised them, and each session that is stopped gives the text of its file.
#![tactic(auto)]

mod attributor;
pub mod laws;

pub use attributor::Attributor;
