//! Laws of a turn's acts. Each function does nothing: its contract is the law.
ghost use Rattle.isolate_acts.specs.ActLaws.{ActsAreStoodFor, EndsOutOfMemoryAddNoFile, NothingFollowsTheEnd, OnlyCommandsFollowTheEnd, RunsAreStoodFor};
ghost use Rattle.isolate_acts.specs.CallLaws.{EachCommandIsAnswered, EachEntryHasAReading, PortsKnowTheInterval};
ghost use Rattle.isolate_acts.specs.TurnLaws.{EndsOutOfMemoryAreAtTheFirstStep, TurnsDoOneStep};
ghost use Rattle.isolate_acts.specs.FitsSoFar.{ActsFit, NewSchedulesFit, RunsFit, SamplesBetweenTurnsFit, TurnsFit};
ghost use Rattle.isolate_acts.specs.ScheduleSoFar.{ActsKeepRules, EndedSchedulesAreLegal, NewSchedulesKeepRules, RunsKeepRules, SamplesBetweenTurnsKeepRules, TurnsKeepRules};

/// Whatever an isolate does in a turn, it stands for what it stood for and what it raises. So it does
/// after all that it does, one act after another, and its numbers stay in their ranges.
pub fn acts_are_stood_for()
    ensures acts { ActsAreStoodFor }
    ensures runs { RunsAreStoodFor }
{}

/// An end out of memory adds no file, so a session that still runs has none. After the end a turn
/// only takes commands: nothing is entered and nothing is raised.
pub fn ends_are_last()
    ensures files { EndsOutOfMemoryAddNoFile }
    ensures nothing { NothingFollowsTheEnd }
    ensures commands { OnlyCommandsFollowTheEnd }
{}

/// An isolate reads the clock once for each entry, answers each command once, and always tells its
/// ports the interval at which samples are to be taken.
pub fn ports_are_asked_and_told()
    ensures readings { EachEntryHasAReading }
    ensures answers { EachCommandIsAnswered }
    ensures interval { PortsKnowTheInterval }
{}

/// A turn after which the isolate goes on has done one step. An end out of memory is at the step at
/// which its turn began.
pub fn turns_do_one_step()
    ensures one { TurnsDoOneStep }
    ensures memory { EndsOutOfMemoryAreAtTheFirstStep }
{}

/// Each act of a turn keeps the rules of the schedule so far, and so does each run of acts, where samples
/// are dropped only after as many were taken as the ring has places. After the end the schedule is legal.
pub fn schedules_keep_their_rules()
    ensures acts { ActsKeepRules }
    ensures runs { RunsKeepRules }
    ensures ended { EndedSchedulesAreLegal }
{}

/// A new schedule keeps the rules before the first turn. Each turn leaves them kept where the next begins,
/// and so does a sample between turns.
pub fn turns_keep_the_rules_of_schedules()
    ensures first { NewSchedulesKeepRules }
    ensures turns { TurnsKeepRules }
    ensures samples { SamplesBetweenTurnsKeepRules }
{}

/// The program reaches each entry of the schedule: of a new one, after each act and each run of acts,
/// after each turn, and after a sample between turns.
pub fn schedules_fit_the_program()
    ensures first { NewSchedulesFit }
    ensures acts { ActsFit }
    ensures runs { RunsFit }
    ensures turns { TurnsFit }
    ensures samples { SamplesBetweenTurnsFit }
{}
