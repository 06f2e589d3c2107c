// Laws of what sessions see.
ghost use Rattle.code_event.specs.MomentLaws.{ItemsAreSeenByTheEventsBefore};

/// Each tick is named by the ranges that exactly the events before it have left, and each stop and
/// finish has the reasons that these have left.
pub fn items_are_seen_by_the_events_before()
    ensures { ItemsAreSeenByTheEventsBefore }
{}
