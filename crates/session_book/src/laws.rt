//! Laws of books and sessions. Each function does nothing: its contract is the law.
ghost use Rattle.session_book.specs.Laws.{BooksStandForWhatTheyTook, IntervalsAreSeen, RunningSessionsAreSeen, SessionsAreIndependent, StopsEndWhatBegan};

/// A new book stands for nothing seen. A call that is answered Ok makes a book that stands for some
/// list one that stands for this list with the call. So a book that took any calls one by one stands
/// for all of them. The ids of its running sessions are those that were started and not yet stopped,
/// in rising order, and its intervals are those that these sessions were started with.
pub fn books_stand_for_what_they_took()
    ensures whole { BooksStandForWhatTheyTook }
    ensures running { RunningSessionsAreSeen }
    ensures intervals { IntervalsAreSeen }
{}

/// What a running session has recorded is what its recording has once it is stopped.
pub fn stops_end_what_began()
    ensures { StopsEndWhatBegan }
{}

/// Where two lists agree in a session's own marks and ticks, and in finishes, the session has the same
/// profile in both: no other session, and no tick for another session alone, changes it.
pub fn sessions_are_independent()
    ensures { SessionsAreIndependent }
{}
