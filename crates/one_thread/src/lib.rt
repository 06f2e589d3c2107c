//! An isolate and its processor in one thread: what the isolate raises in a turn is passed on to the
//! processor, which then takes all of it.
#![tactic(auto)]

mod one_thread;
mod ring;

pub use one_thread::OneThread;
pub use ring::{PLACES, TurnRing};
