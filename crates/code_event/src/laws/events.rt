// Laws of events, items and ticks.
ghost use Rattle.code_event.specs.Laws.{AddressesHaveOneOwner, KeptTicksAreTheirOwn, MeetingIsMutual, RangesAreDisjoint, RecordingsAreTheirOwn, StampedListsAreOne, StampingGivesStamps, StampingKeepsStamped};

/// No two code objects ever share an address: none meets one after it in the list, meeting is
/// mutual, and each address is in at most one.
pub fn ranges_are_disjoint()
    ensures disjoint { RangesAreDisjoint }
    ensures both_ways { MeetingIsMutual }
    ensures one_owner { AddressesHaveOneOwner }
{}

/// Stamping any items makes a stamped list.
pub fn stamping_gives_stamps()
    ensures { StampingGivesStamps }
{}

/// The rest of a stamped list determines its stamps: stamping it again changes nothing, and two
/// stamped lists that agree except in their stamps are equal.
pub fn stamps_are_unique()
    ensures kept { StampingKeepsStamped }
    ensures one { StampedListsAreOne }
{}

/// No session's recording, and so none of the ticks that it keeps, depends on ticks that are for
/// another session.
pub fn other_ticks_do_not_matter()
    ensures recording { RecordingsAreTheirOwn }
    ensures kept { KeptTicksAreTheirOwn }
{}
