// The ports of an isolate.
ghost use Rattle.std.specs.Prelude.{◌≡◌, ℕ, List, [], ◌∷◌, Option, true, false, OnOk, OnErr};
ghost use Rattle.isolate_acts.specs.Calls.{Call, commanded, answered, asked, read, told, with_calls};
ghost use Rattle.isolate_ends.specs.Ports.{IsOfPort};

use code_event::{Answer, Command};
use prof_base::Memory;
use std::alloc::Global;

/// What an isolate asks outside and tells: where commands come from and their answers go to, when a
/// sample is asked for, and what the time is.
pub trait IsoPorts {
    /// The calls so far, with what each returned, where they can be observed.
    ghost calls: { Self → Option (List Call) };

    /// Which ports they are. No call changes it.
    ghost ports_home: { Self → List ℕ };

    /// Returns the next command of a port, from 0 to [`run_schedule::MAX_PORT`], after this many steps of
    /// the guest, or none for now.
    fn command(&mut self, port: u8, step: u64) -> Option<Command>
        ensures home { ports_home self.new ≡ ports_home self.old }
        ensures calls { calls self.new ≡ with_calls (calls self.old) (commanded port step result ∷ []) }
        ensures own { IsOfPort port result };

    /// Takes the answer to the port's last command, with the number of entries that the schedule had then.
    fn answer(&mut self, alloc: Global, port: u8, answer: Answer, place: u32) -> Result<(), Memory>
        ensures home { ports_home self.new ≡ ports_home self.old }
        ensures ok { OnOk result (calls self.new ≡ with_calls (calls self.old) (answered port answer place true ∷ [])) }
        ensures err { OnErr result (calls self.new ≡ with_calls (calls self.old) (answered port answer place false ∷ [])) };

    /// Returns whether a sample is asked for after this many steps.
    fn asked(&mut self, step: u64) -> bool
        ensures home { ports_home self.new ≡ ports_home self.old }
        ensures calls { calls self.new ≡ with_calls (calls self.old) (asked step result ∷ []) };

    /// Reads the clock after this many steps, in microseconds.
    fn now(&mut self, step: u64) -> u64
        ensures home { ports_home self.new ≡ ports_home self.old }
        ensures calls { calls self.new ≡ with_calls (calls self.old) (read step result ∷ []) };

    /// Takes the interval at which samples are to be asked for from now on, in microseconds, or 0 for none.
    fn set_interval(&mut self, interval: u32)
        ensures home { ports_home self.new ≡ ports_home self.old }
        ensures calls { calls self.new ≡ with_calls (calls self.old) (told interval ∷ []) };
}
