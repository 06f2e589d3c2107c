//! The texts of records: schedules, scripts, and what the texts of all records share, which are the rules
//! that their lines keep, their refusals, and words and numbers that stand in more than one of them.
#![tactic(auto)]

pub mod laws;
mod refused;
mod rule;
mod schedule_draft;
mod schedule_form;
mod schedule_line;
mod schedule_reading;
mod schedule_rules;
mod schedule_sessions;
mod schedule_writing;
mod script;
mod script_draft;
mod script_form;
pub mod script_laws;
mod script_sessions;
mod words;

pub use refused::{LineCause, ReadRefused, line_cause};
pub use rule::Rule;
pub use schedule_reading::read_schedule;
pub use schedule_writing::write_schedule;
pub use script::{ScriptLine, read_script};
pub use words::{bound_of, mode_of, mode_word, put_max, put_number, put_word, session, time};
