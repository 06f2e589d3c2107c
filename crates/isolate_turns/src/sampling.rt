// Whether a sample may be taken between turns.
ghost use Rattle.std.specs.Prelude.{◌≡◌, None, IsTrue, true, false};
ghost use Rattle.isolate_acts.specs.Phases.{HasRoom};
ghost use Rattle.isolate_acts.specs.Progress.{some_runs};

use crate::state::Isolate;

impl<E, V, O> Isolate<E, V, O> {
    /// Returns whether a sample may be taken now, before the next turn: the isolate goes on, a session
    /// runs, no sample was entered at this step, and the schedule has room for the sample and the end.
    pub fn may_take_sample(&self) -> bool
        ensures going { IsTrue result → self.now.progress.ending ≡ None }
        ensures session { IsTrue result → some_runs self.now.progress ≡ true }
        ensures once { IsTrue result → self.now.progress.is_sampled ≡ false }
        ensures room { IsTrue result → HasRoom self.now.progress }
        ensures may { self.now.progress.ending ≡ None → some_runs self.now.progress ≡ true → self.now.progress.is_sampled ≡ false → HasRoom self.now.progress → IsTrue result }
    {
        self.progress.goes_on()
            && self.progress.some_runs()
            && !self.progress.is_sampled()
            && self.progress.entry_count() + 1 < self.progress.schedule().limit()
    }
}
