//! Laws of schedules. Each function does nothing: its contract is the law.
ghost use Rattle.std.specs.Prelude.{◌≡◌};
ghost use Rattle.run_schedule.specs.Source.{SourcesAreGreatest};

use crate::limits::{DEFAULT_RING, MAX_BUDGET, MAX_ENTRIES, MAX_PORT, MAX_RING, MIN_ENTRIES};

/// States the ranges that contracts cite by name.
pub fn limits()
    ensures ring { MAX_RING ≡ 1024 }
    ensures default_ring { DEFAULT_RING ≡ 256 }
    ensures budget { MAX_BUDGET ≡ 100000000 }
    ensures fewest { MIN_ENTRIES ≡ 2 }
    ensures most { MAX_ENTRIES ≡ 1048576 }
    ensures port { MAX_PORT ≡ 8 }
{}

/// The interval at which samples are taken is the common divisor of the sessions' rounded intervals
/// that every common divisor of them divides.
pub fn the_source_interval_is_the_greatest_common_divisor()
    ensures { SourcesAreGreatest }
{}
