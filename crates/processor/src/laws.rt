//! Laws of the processor. Each function does nothing: its contract is the law.
ghost use Rattle.processor.specs.CourseLaws.{FilesAreDelivered, NothingFollowsTheEnd};
ghost use Rattle.processor.specs.TakingLaws.{NothingIsLeft, TakingAddsTheNext, TheNextIsTheFirstOfTheRest};

/// Taking the next item gives the items of a stamped list, in order. As long as three queues hold what
/// follows, the next item is the first of that, and it is shown by one of them until nothing follows.
pub fn taking_keeps_the_order()
    ensures adds { TakingAddsTheNext }
    ensures first { TheNextIsTheFirstOfTheRest }
    ensures nothing { NothingIsLeft }
{}

/// A processor has delivered the files of the legal items that it has taken, as far as its delivery and
/// its memory say, but for those of the sessions that a finish has ended and that still wait: the files
/// that are left are one of each of these, in the order in which they wait.
pub fn files_are_delivered()
    ensures { FilesAreDelivered }
{}

/// Where a processor waits for no item, it has taken a finish, which is the last of every legal list.
pub fn nothing_follows_the_end()
    ensures { NothingFollowsTheEnd }
{}
