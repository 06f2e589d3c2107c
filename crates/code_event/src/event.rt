// Code events, and the commands and answers that lead to some of them.
ghost use Rattle.std.specs.Prelude.{◌≡◌, ◌≤◌, IfOk};
ghost use Rattle.prof_base.specs.declared.interval.TheConstants.{MAX_INTERVAL};

use crate::layout::Layout;
use prof_base::{Memory, Micros, Sequence, SessionId, Text};

/// The greatest number of sessions that run at once.
pub const MAX_SESSIONS: usize = 100;

/// Which line of its caller a node of the profile is for, after V8's line modes.
#[derive(Clone, Copy, Debug, PartialEq, Eq)]
pub enum Mode {
    /// No line: a function called from two lines of another is one node (`kLeafNodeLineNumbers`).
    Leaf,
    /// The line of the call: such a function is two nodes (`kCallerLineNumbers`).
    Caller,
}

/// What a recording is asked to do.
#[derive(Clone, Copy, Debug, PartialEq, Eq)]
pub struct Options {
    /// The port that asked: from 1 to 8 for a connection, or 0 for the isolate itself.
    pub port: u8,
    /// The interval of its samples in microseconds, from 1 to [`prof_base::MAX_INTERVAL`].
    pub interval: u32,
    pub mode: Mode,
    /// The greatest number of samples that it lists, or none. Its nodes and hits go on past that.
    pub max_samples: Option<u32>,
    ghost low: { 1 ≤ interval },
    ghost high: { interval ≤ MAX_INTERVAL },
}

/// What a port asks of an isolate.
#[derive(Clone, Copy, Debug, PartialEq, Eq)]
pub enum Command {
    Start(Options),
    Stop(SessionId),
}

/// What an isolate answers to a command.
#[derive(Clone, Copy, Debug, PartialEq, Eq)]
pub enum Answer {
    /// The session runs, and has this number.
    Started(SessionId),
    /// [`MAX_SESSIONS`] sessions run.
    TooMany,
    /// The session was stopped.
    Stopped,
    /// No such session runs, or it was started from another port.
    NoSession,
    /// The isolate has ended.
    Ended,
}

/// What a port gets of a recording that has ended.
#[derive(Debug, Drop)]
pub enum PortFile {
    File {
        session: SessionId,
        /// The text of its file.
        bytes: Sequence<u8>,
    },
    /// Its file was lost.
    Lost {
        session: SessionId,
    },
}

/// A change of the isolate's code or of its sessions. Addresses are those of code objects' starts.
#[derive(Debug, Drop)]
pub enum CodeEvent {
    /// A code object was made.
    Create {
        start: u32,
        layout: Layout,
    },
    /// A code object was moved.
    Move {
        from: u32,
        to: u32,
    },
    /// The code object's function is not to be optimised, for the reason given.
    NoOpt {
        start: u32,
        reason: Text,
    },
    /// The code object was given up, for the reason given.
    Deopt {
        start: u32,
        reason: Text,
    },
    /// A code object was freed.
    Delete {
        start: u32,
    },
    /// A session was started.
    Start {
        session: SessionId,
        options: Options,
        time: Micros,
    },
    /// A session was stopped.
    Stop {
        session: SessionId,
        time: Micros,
    },
    /// The isolate has ended. If `files`, the sessions that run are finished; else they are lost.
    Finish {
        time: Micros,
        files: bool,
    },
}

/// An event with its stamps.
#[derive(Debug, Drop)]
pub struct EventRecord {
    /// Its place among the events, from 1.
    pub number: u64,
    /// How many undropped ticks come before it.
    pub ticks_before: u64,
    pub event: CodeEvent,
}

impl CodeEvent {
    /// Makes an equal event, on the allocators of what it copies.
    pub fn copy(&self) -> Result<CodeEvent, Memory>
        ensures { IfOk result (λ copy. copy ≡ self.now) }
    {
        match self {
            CodeEvent::Create { start, layout } => Ok(CodeEvent::Create {
                start: *start,
                layout: layout.copy()?,
            }),
            CodeEvent::Move { from, to } => Ok(CodeEvent::Move {
                from: *from,
                to: *to,
            }),
            CodeEvent::NoOpt { start, reason } => Ok(CodeEvent::NoOpt {
                start: *start,
                reason: reason.copy()?,
            }),
            CodeEvent::Deopt { start, reason } => Ok(CodeEvent::Deopt {
                start: *start,
                reason: reason.copy()?,
            }),
            CodeEvent::Delete { start } => Ok(CodeEvent::Delete { start: *start }),
            CodeEvent::Start {
                session,
                options,
                time,
            } => Ok(CodeEvent::Start {
                session: *session,
                options: *options,
                time: *time,
            }),
            CodeEvent::Stop { session, time } => Ok(CodeEvent::Stop {
                session: *session,
                time: *time,
            }),
            CodeEvent::Finish { time, files } => Ok(CodeEvent::Finish {
                time: *time,
                files: *files,
            }),
        }
    }
}
