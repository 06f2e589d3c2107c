//! Laws of what a map has. Each function does nothing: its contract is the law.
ghost use Rattle.code_map.specs.Laws.{EventsAddUp, FoundCodeStartsThere, LookUpsChangeNothing, MapsAreAsEventsLeaveThem, NewMapsHaveNothing};

/// A new map is as no events leave it. Taking an event makes a map that is as some events leave it
/// one that is as these and that event leave it, and a look-up keeps it so. So a map that took any
/// events one by one has the ranges and the reasons that these events leave.
pub fn maps_are_as_events_leave_them()
    ensures begins { NewMapsHaveNothing }
    ensures goes_on { EventsAddUp }
    ensures stays { LookUpsChangeNothing }
    ensures whole { MapsAreAsEventsLeaveThem }
{}

/// The code object that starts where an address was found is the one that holds the address.
pub fn found_code_starts_where_it_is_found()
    ensures { FoundCodeStartsThere }
{}
