//! What the run of an isolate has raised so far, entry by entry and step by step: definitions with
//! laws, by the guest's program, the entries of the schedule and the steps that were done.
#![tactic(auto)]

pub mod laws;
