//! The limits as numbers.
ghost use Rattle.std.specs.Prelude.{◌≡◌};

use crate::real::MAX_FILE;

/// States that the greatest file that a folder reads or writes has 256 MiB.
pub fn max_file()
    ensures { MAX_FILE ≡ 268435456 }
{}
