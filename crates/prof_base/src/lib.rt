//! Values that every layer names: short printable texts, identifiers, times, lists that contracts
//! see as lists, sampling intervals, numbers in decimal, and the answer for out of memory.
#![tactic(auto)]

mod decimal;
mod ids;
mod interval;
pub mod laws;
mod memory;
mod sequence;
mod text;

pub use decimal::{is_decimal, put_decimal};
pub use ids::{FuncId, Micros, SessionId};
pub use interval::{MAX_INTERVAL, MAX_ROUNDED, gcd, rounded, source_interval};
pub use memory::Memory;
pub use sequence::Sequence;
pub use text::{Text, TextRefused};
