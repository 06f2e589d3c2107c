// Laws of the types. Each function does nothing: its contract is the law.
ghost use Rattle.std.specs.Prelude.{◌≡◌};

use crate::instr::Func;
use crate::program::Program;
use crate::reg::Reg;

/// States the limits that contracts cite by name: the number of the last register, the length of
/// the longest body, and the greatest number of functions.
pub fn limits()
    ensures register { Reg.LAST ≡ 7 }
    ensures body { Func.MAX_BODY ≡ 4096 }
    ensures functions { Program.MAX_FUNCS ≡ 256 }
{}
