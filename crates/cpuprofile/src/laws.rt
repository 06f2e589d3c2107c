// Laws of the definitions. Each function does nothing: its contract is the law.
ghost use Rattle.std.specs.Prelude.{◌≡◌};
ghost use Rattle.code_event.specs.declared.profile.Finished.{Finished};
ghost use Rattle.cpuprofile.specs.Given.{SeenGives, IsGiven, DeltasFit};

use crate::file_text::FileText;

/// States the length of the longest text.
pub fn limits()
    ensures text { FileText.MAX_LEN ≡ 65535 }
{}

/// What a session has finished in what is seen is given by ticks, where the times of ticks and the
/// counts of hits are below 2^53. So what it becomes in a file is valid.
pub fn what_is_seen_gives_profiles()
    ensures { SeenGives }
{}

/// The deltas of what ticks give fit.
pub fn given_deltas_fit()
    ensures { (profile : Finished) → IsGiven profile → DeltasFit profile }
{}
