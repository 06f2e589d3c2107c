//! Laws of code objects. Each function does nothing: its contract is the law.
ghost use Rattle.code_objects.specs.Laws.{CreatingKeepsCode, DeletingKeepsCode, CompactingKeepsCode, CodeHasOneSpace, NewCodeMovesNone, EventsAddUp};

use crate::objects::CodeObjects;

/// Code lies at the ranges that its events make, and in the space. That is so still where code is
/// created at a place at which it fits, where code is deleted, and where all code is compacted, each
/// move as an event, in rising order.
pub fn code_is_kept()
    ensures created { CreatingKeepsCode }
    ensures deleted { DeletingKeepsCode }
    ensures compacted { CompactingKeepsCode }
{}

/// All ranges at which the code lies have the starts and the sizes of its space.
pub fn code_has_one_space()
    ensures { CodeHasOneSpace }
{}

/// Where it is made sure that there is code, all code that was there starts where it did.
pub fn new_code_moves_none()
    ensures { NewCodeMovesNone }
{}

/// Where code lies at the ranges that all events so far make, and then more events come with a change
/// of the code, it lies at the ranges that all these events make.
pub fn events_add_up()
    ensures { EventsAddUp }
{}

fn crosses<T: Send + Sync>() {}

/// Threads can pass code objects to each other and share them: this compiles only while they are
/// `Send` and `Sync`.
pub fn code_objects_cross_threads() {
    crosses::<CodeObjects>();
}
