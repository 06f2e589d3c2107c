//! An isolate: a guest machine with its recordings. The definitions say which schedules a guest's
//! program reaches, and what the files of a run are.
#![tactic(auto)]

pub mod examples;
pub mod laws;
