//! The text of guest programs: a line for each function and each instruction.
#![tactic(auto)]

mod draft;
pub mod laws;
mod line_form;
mod outline;
mod program_line;
mod reading;
mod refused;
mod rule;
mod word_set;
mod writing;

pub use reading::read_program;
pub use refused::{ProgramCause, ProgramRefused};
pub use writing::write_program;
