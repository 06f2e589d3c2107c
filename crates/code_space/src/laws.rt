//! Laws of spaces. Each function does nothing: its contract is the law.
ghost use Rattle.std.specs.Prelude.{◌≡◌};
ghost use Rattle.code_space.specs.Laws.{AddressesHaveOneOwner, LeastFitIsUnique, CompactionKeepsSizes, MovesCompact};

use crate::range::{ALIGNMENT, FIRST_ADDRESS, MAX_RANGES, MAX_SIZE, SPACE_END};

/// States the limits that contracts cite by name.
pub fn limits()
    ensures first { FIRST_ADDRESS ≡ 4096 }
    ensures alignment { ALIGNMENT ≡ 4 }
    ensures size { MAX_SIZE ≡ 16384 }
    ensures ranges { MAX_RANGES ≡ 512 }
    ensures end { SPACE_END ≡ 16781312 }
{}

/// No address is in two ranges of a space.
pub fn addresses_have_one_owner()
    ensures owner { AddressesHaveOneOwner }
{}

/// There is one least address at which a range fits.
pub fn there_is_one_least_fit()
    ensures unique { LeastFitIsUnique }
{}

/// Compaction keeps the sizes of the ranges, and their order.
pub fn compaction_keeps_sizes()
    ensures sizes { CompactionKeepsSizes }
{}

/// Where the moves of a compaction are done to the ranges of the space one after the other, each as a
/// code map does a move, no range is lost, and what is left are the ranges of the compacted space.
pub fn moves_lose_no_range()
    ensures kept { MovesCompact }
{}
