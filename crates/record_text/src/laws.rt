//! Laws of the texts of records. Each function does nothing: its contract is the law.
pub mod schedules;
