//! Files of profiles in the format that Chrome and Node open: what a finished profile becomes, and
//! the text that it is written as.
#![tactic(auto)]

mod convert;
mod file_text;
pub mod laws;
mod profile;
mod write;

pub use convert::profile_of;
pub use file_text::FileText;
pub use profile::{FileNode, FileTicks, Profile};
pub use write::{write_finished, write_profile};
