//! Laws of what a run raises. Each function does nothing: its contract is the law.
ghost use Rattle.raised_so_far.specs.FileOrder.{FilesSoFarAreThePlainOnes, ShortTurnsAddNoFiles, WholeRunsHaveThePlainFiles};
ghost use Rattle.raised_so_far.specs.Laws.{DropsRaiseNothing, EndsAreRaised, FilesAreThePlainOnes, OpeningsAreRaised, SamplesAreRaised, ShortTurnsKeepFiles, StartsAreRaised, StepsAreRaised, StopsAreRaised};

/// Each entry of the schedule but the end, and what is raised with it, keep what is said of all that
/// was raised: a sample with its tick, a dropped sample, a start with its mark and its tick, and a stop
/// with its mark.
pub fn entries_are_raised()
    ensures samples { SamplesAreRaised }
    ensures drops { DropsRaiseNothing }
    ensures starts { StartsAreRaised }
    ensures stops { StopsAreRaised }
{}

/// It holds of the events with which an isolate opens, and each step of the machine keeps it, with its
/// events and the tick of a deoptimisation.
pub fn steps_are_raised()
    ensures opening { OpeningsAreRaised }
    ensures steps { StepsAreRaised }
{}

/// With the end and its mark the whole run has been raised. An end out of memory may follow a turn that
/// was cut short: the sessions that were stopped before have their files all the same.
pub fn ends_are_raised()
    ensures ends { EndsAreRaised }
    ensures short { ShortTurnsKeepFiles }
{}

/// A session that was stopped has the file of the plain machine's run, also while the run goes on.
pub fn stopped_sessions_have_their_files()
    ensures files { FilesAreThePlainOnes }
{}

/// The files of what was raised are those of the plain machine's run, in order: so far, of a whole run,
/// and of one that ended out of memory, where what was raised last leaves no file.
pub fn files_are_in_order()
    ensures so_far { FilesSoFarAreThePlainOnes }
    ensures whole { WholeRunsHaveThePlainFiles }
    ensures short { ShortTurnsAddNoFiles }
{}
