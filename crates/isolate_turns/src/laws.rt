//! Laws of isolates over whole histories: turns, samples between them, and items that are taken out of
//! the queues. Each function does nothing: its contract is the law.
ghost use Rattle.isolate_turns.specs.Kept.{HistoriesAreKept, OpeningsAreKept, RulesAreKept};

/// Whatever turns and samples follow one another, an isolate stands for what it stood for and all that it
/// has raised since: the stamped and legal list of what its program raises with the entries of its
/// schedule. Its stack is the plain machine's, its numbers are in their ranges, and the program reaches
/// each entry.
pub fn histories_are_kept()
    ensures opening { OpeningsAreKept }
    ensures history { HistoriesAreKept }
{}

/// Through all of them the schedule keeps its rules, where samples are dropped only after as many were
/// taken as the ring has places.
pub fn rules_are_kept()
    ensures rules { RulesAreKept }
{}
