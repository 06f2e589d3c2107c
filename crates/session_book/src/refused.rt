// Why a session is not started or stopped.

/// Why a session was not started.
#[derive(Clone, Copy, Debug, PartialEq, Eq)]
pub enum StartRefused {
    /// [`code_event::MAX_SESSIONS`] sessions run.
    TooMany,
    /// The session runs.
    Already,
    /// Out of memory.
    Memory,
}

/// Why a session was not stopped.
#[derive(Clone, Copy, Debug, PartialEq, Eq)]
pub enum StopRefused {
    /// The session does not run.
    NoSession,
    /// Out of memory.
    Memory,
}
