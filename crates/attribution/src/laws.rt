//! Laws of item lists and of attributors. Each function does nothing: its contract is the law.
ghost use Rattle.attribution.specs.ItemLaws.{FinishesAreStops, NothingFollowsAFinish, RunningHaveNotEnded, StartsAreNew, StopsAddTheirFiles, StopsAreOfRunning};

/// In a legal list nothing follows a finish, a session is started only where it does not run, has not
/// ended and fewer than 100 run, a session is stopped only where it runs, and no session that runs has
/// ended.
pub fn legal_lists_refuse_nothing()
    ensures finish { NothingFollowsAFinish }
    ensures start { StartsAreNew }
    ensures stop { StopsAreOfRunning }
    ensures running { RunningHaveNotEnded }
{}

/// A stop adds the file of its session, and a finish gives the files that stops of the running sessions
/// give at its time.
pub fn stops_add_their_files()
    ensures one { StopsAddTheirFiles }
    ensures finish { FinishesAreStops }
{}
