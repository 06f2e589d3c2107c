//! Laws of runs. The function does nothing: its contract is the laws.
ghost use Rattle.isolate_ends.specs.RunLaws.{ActsAreRuns, RunsFollow};

/// Runs of acts follow one another: one act that may come is a run, and two runs of which one leads to
/// where the other begins are one.
pub fn runs_follow_one_another()
    ensures acts { ActsAreRuns }
    ensures runs { RunsFollow }
{}
