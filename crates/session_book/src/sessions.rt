// Lists of running sessions, in the order of their ids.
ghost use Rattle.std.specs.Prelude.{◌≡◌, ◌↔◌, ◌==◌, length, map, find, position, nat_le, IsTrue, IfNone, OnOk, OnErr, ℕ};
ghost use Rattle.std.specs.List.{AllZip, Contains};
ghost use Rattle.session_book.specs.Book.{IsPlaceFor, number_of, with_session, without_session};
ghost use Rattle.session_book.specs.Session.{TakesTick};

use crate::session::Session;
use code_event::{PathPair, Tick};
use prof_base::{Memory, SessionId};

/// Returns the place of a session.
pub(crate) fn place_of(sessions: &[Session], id: SessionId) -> Option<usize>
    ensures { result ≡ position (λ session. session.id.0 == id.0) sessions.now }
{
    sessions.iter().position(|session| session.id.0 == id.0)
}

/// Returns the place of the first session whose id is not less.
fn first_from(sessions: &[Session], id: SessionId) -> Option<usize>
    ensures { result ≡ position (λ session. nat_le id.0 session.id.0) sessions.now }
{
    sessions.iter().position(|session| id.0 <= session.id.0)
}

/// Returns whether a session is listed.
pub(crate) fn runs(sessions: &[Session], id: SessionId) -> bool
    ensures { IsTrue result ↔ Contains (map number_of sessions.now) id.0 }
{
    place_of(sessions, id).is_some()
}

// Returns the place at which a session is put: before the first whose id is not less.
fn place_for(sessions: &[Session], id: SessionId) -> usize
    ensures { IsPlaceFor id.0 (map number_of sessions.now) result }
{
    match first_from(sessions, id) {
        Some(at) => at,
        None => sessions.len(),
    }
}

/// Puts a session to its place. When out of memory, it leaves the list unchanged.
pub(crate) fn put_session(sessions: &mut Vec<Session>, session: Session) -> Result<(), Memory>
    ensures ok { OnOk result (sessions.new.items ≡ with_session session sessions.old.items) }
    ensures err { OnErr result (sessions.new.items ≡ sessions.old.items) }
{
    let at = place_for(sessions.as_slice(), session.id);
    sessions.insert(at, session)?;
    Ok(())
}

/// Takes a session out, if it is listed.
pub(crate) fn take_session(sessions: &mut Vec<Session>, id: SessionId) -> Option<Session>
    ensures taken { result ≡ find (λ session. session.id.0 == id.0) sessions.old.items }
    ensures unchanged { IfNone result (sessions.new.items ≡ sessions.old.items) }
    ensures others { sessions.new.items ≡ without_session id.0 sessions.old.items }
{
    match place_of(sessions.as_slice(), id) {
        Some(at) => Some(sessions.remove(at)),
        None => None,
    }
}

/// Has each session take a tick. Out of memory, some are spent.
pub(crate) fn tick_each(
    sessions: &mut [Session],
    tick: &Tick,
    paths: &PathPair,
) -> Result<(), Memory>
    ensures ids { map number_of sessions.new ≡ map number_of sessions.old }
    ensures taken { OnOk result (AllZip (TakesTick tick.now paths.now) sessions.old sessions.new) }
{
    for session in sessions.iter_mut() {
        session.tick(tick, paths)?;
    }
    Ok(())
}
