// Laws of what sessions record and keep.
ghost use Rattle.code_event.specs.RecordingLaws.{EachTickIsChosenOrNot, RecordingsStandBetween, SubsamplesAddUp};

/// A session's recording ends at the first stop of the session, or at a finish; it begins at the
/// last start before that; and its ticks are those in between that are for the session.
pub fn recordings_stand_between_their_marks()
    ensures { RecordingsStandBetween }
{}

/// Of a session's ticks exactly these are kept: those of interval 0; the first with an interval
/// above 0; and each other at which the intervals since the last such kept one add up to the
/// session's rounded interval.
pub fn kept_ticks_are_those_at_which_intervals_add_up()
    ensures kept { SubsamplesAddUp }
    ensures each { EachTickIsChosenOrNot }
{}
