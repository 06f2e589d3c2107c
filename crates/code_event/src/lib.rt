//! What an isolate raises and a processor takes: code events and ticks; and what is made of them:
//! paths and finished profiles. `specs/` has the definitions of everything in a profile's file.
#![tactic(auto)]

mod code_map;
mod entry;
mod event;
pub mod examples;
pub mod laws;
mod layout;
mod path;
mod profile;
mod recording;
mod seen;
mod tick;
mod visit;

pub use code_map::Range;
pub use entry::Entry;
pub use event::{Answer, CodeEvent, Command, EventRecord, MAX_SESSIONS, Mode, Options, PortFile};
pub use layout::{Layout, SLOT_SIZE, Site, Slot, Unit};
pub use path::{PathPair, PathStep};
pub use profile::{FinNode, Finished, LineTicks};
pub use recording::{Begun, Recording};
pub use seen::{DeoptReason, ResolvedFrame, ResolvedTick, Seen};
pub use tick::{Frames, Item, Tick, VmState};
pub use visit::Visit;
