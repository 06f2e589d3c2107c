//! The law of guests. The function does nothing: its contract is the law.
ghost use Rattle.isolate_guest.specs.Guest.{GuestsShow};

/// At each moment of a guest, the addresses on its stack, read through the ranges of its code, are the
/// functions and lines of its program.
pub fn guests_show_their_program()
    ensures shows { GuestsShow }
{}
