//! What is common to ports of an isolate that keep a history of their calls: the calls with what they
//! returned, and that each was answered by the state that the calls before it have left.
#![tactic(auto)]

mod calls;
pub mod laws;

pub use calls::PortCall;
