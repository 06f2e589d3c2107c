//! Facts that contracts cite. The function does nothing: its contract is the facts.
ghost use Rattle.std.specs.Prelude.{◌≡◌};

use crate::words::{BUDGET, ENTRIES};

/// States the limits of a run that contracts cite by name.
pub fn limits()
    ensures budget { BUDGET ≡ 10000000 }
    ensures entries { ENTRIES ≡ 1048576 }
{}
