//! The stream that finished files go to, part by part, each part in chunks; and the delivery of a
//! file to it.
//!
//! A stream answers Abort or Failed only if its own count of these rose in the call. What a stream
//! holds and was offered is optional in contracts: for the real stream it cannot be observed.
#![tactic(auto)]

mod boxed;
mod delivery;
mod file;
mod held;
pub mod laws;
mod memory;
mod stream;

pub use delivery::deliver;
pub use file::FileStream;
pub use memory::{MemoryStream, SureStream};
pub use stream::{Chunk, Offer, OutputStream, Undelivered};
