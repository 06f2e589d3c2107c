// The running sessions, and the ports that their files go to.
ghost use Rattle.std.specs.Prelude.{◌≡◌, ◌==◌, find, ◌<◌, ◌≤◌, [], length, option_map, IfOk, OnOk, IsOk};
ghost use Rattle.std.specs.List.{position, slice_get};
ghost use Rattle.std.specs.Option.{option_copied};
ghost use Rattle.std.specs.Vec.{vec_capacity, vec_len};
ghost use Rattle.prof_base.specs.Ordered.{insert_sorted, stops};
ghost use Rattle.code_event.specs.declared.event.TheConstants.{MAX_SESSIONS};
ghost use Rattle.processor.specs.Running.{by_session, port_in, sessions_of, without_session};

use code_event::MAX_SESSIONS;
use prof_base::{Memory, SessionId};
use std::alloc::Global;
use std::marker::Model;

/// A running session, and the port that its file goes to; to none where the port is 0.
#[derive(Clone, Copy, Debug, PartialEq, Eq)]
pub struct SessionPort {
    pub session: SessionId,
    pub port: u8,
}

// Finds the first place at which there is the session itself or a later one.
fn place_of(ports: &[SessionPort], running: SessionPort) -> Option<usize>
    ensures { result ≡ position (stops by_session running) ports.now }
{
    ports
        .iter()
        .position(|other| running.session.0.cmp(&other.session.0).is_le())
}

// Puts a session in its place. It takes no memory where there is room.
fn put(ports: &mut Vec<SessionPort>, running: SessionPort) -> Result<(), Memory>
    ensures ok { OnOk result (ports.new.items ≡ insert_sorted by_session running ports.old.items) }
    ensures room { vec_len ports.old < vec_capacity ports.old → IsOk result }
    ensures capacity { vec_capacity ports.old ≤ vec_capacity ports.new }
{
    match place_of(ports.as_slice(), running) {
        None => ports.push(running)?,
        Some(at) => {
            if ports[at].session.0 != running.session.0 {
                ports.insert(at, running)?;
            }
        }
    }
    Ok(())
}

// Finds a session.
fn find_running(ports: &[SessionPort], session: SessionId) -> Option<&SessionPort>
    ensures { option_copied result ≡ find (λ running. running.session.0 == session.0) ports.now }
{
    ports.iter().find(|running| running.session.0 == session.0)
}

// Returns the port of a session, or 0 if it does not run.
fn port_of(ports: &[SessionPort], session: SessionId) -> u8
    ensures { result ≡ port_in ports.now session.0 }
{
    match find_running(ports, session) {
        Some(running) => running.port,
        None => 0,
    }
}

/// The running sessions in the order of their ids. It has room for all that may run.
#[derive(Drop)]
pub(crate) struct Running {
    ports: Vec<SessionPort>,
}

impl Model for Running {
    ghost use Rattle.std.specs.Prelude.{◌≤◌, List};
    ghost use Rattle.std.specs.Vec.{vec_capacity};
    ghost use Rattle.code_event.specs.declared.event.TheConstants.{MAX_SESSIONS};
    ghost use Rattle.processor.specs.declared.running.SessionPort.{SessionPort};

    ghost Value = { List SessionPort };

    ghost view = { λ r. r.ports.items };

    ghost invariant = { λ r. MAX_SESSIONS ≤ vec_capacity r.ports };
}

impl Running {
    /// Takes the room. No session runs.
    pub(crate) fn new(alloc: Global) -> Result<Running, Memory>
        ensures { IfOk result (λ running. running ≡ []) }
    {
        Ok(Running {
            ports: Vec::with_capacity(alloc, MAX_SESSIONS)?,
        })
    }

    /// Adds a session, if another one may run. It takes no memory.
    pub(crate) fn start(&mut self, session: SessionId, port: u8)
        ensures { length self.old < MAX_SESSIONS → self.new ≡ insert_sorted by_session (record { session = session; port = port }) self.old }
    {
        if self.ports.len() < MAX_SESSIONS {
            let _ = put(&mut self.ports, SessionPort { session, port });
        }
    }

    /// Takes a session out, and returns its port, or 0 if it does not run.
    pub(crate) fn stop(&mut self, session: SessionId) -> u8
        ensures port { result ≡ port_in self.old session.0 }
        ensures others { self.new ≡ without_session session.0 self.old }
    {
        let port = port_of(self.ports.as_slice(), session);
        self.ports.retain(|running| running.session.0 != session.0);
        port
    }

    /// Returns the sessions in order.
    pub(crate) fn as_slice(&self) -> &[SessionPort]
        ensures { result.now ≡ self.now }
    {
        self.ports.as_slice()
    }

    /// Returns the session with the least id.
    pub(crate) fn first(&self) -> Option<SessionId>
        ensures { option_map (λ session. session.0) result ≡ slice_get (sessions_of self.now) 0 }
    {
        match self.ports.first() {
            Some(running) => Some(running.session),
            None => None,
        }
    }
}
