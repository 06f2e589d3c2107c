//! The acts of which a turn of an isolate is made, and the list of items that an isolate stands for:
//! definitions, with the laws that each act keeps it.
#![tactic(auto)]

pub mod laws;
