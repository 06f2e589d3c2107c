//! What an isolate is connected to: the queues into which it puts what it raises, and the ports that
//! give commands, ask for samples and tell the time; and what a run of its acts makes of them.
#![tactic(auto)]

mod ends;
pub mod laws;
mod ports;
mod turn;

pub use ends::Ends;
pub use ports::IsoPorts;
pub use turn::IsoTurn;
