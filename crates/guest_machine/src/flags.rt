// Flags of functions.
ghost use Rattle.std.specs.Prelude.{◌≡◌, ◌<◌, false, true, length, replicate, slice_set, IfOk};
ghost use Rattle.guest_machine.specs.Machine.{flag_at};

use prof_base::{FuncId, Memory};
use std::alloc::Global;
use std::marker::Model;

/// A flag for each function of a program.
#[derive(Drop)]
pub(crate) struct Flags {
    // By the numbers of the functions.
    flags: Vec<bool>,
}

impl Model for Flags {
    ghost use Rattle.std.specs.Prelude.{Bool, List};

    ghost Value = { List Bool };

    ghost view = { λ f. f.flags.items };
}

impl Flags {
    /// Makes the flags of this number of functions, none of which has its flag.
    pub(crate) fn new(alloc: Global, count: usize) -> Result<Flags, Memory>
        ensures { IfOk result (λ flags. flags ≡ replicate count false) }
    {
        let mut flags = Vec::with_capacity(alloc, count)?;
        for _index in 0..count {
            flags.push(false)?;
        }
        Ok(Flags { flags })
    }

    /// Returns whether a function has its flag.
    pub(crate) fn get(&self, func: FuncId) -> bool
        requires within { func.0 < length self.now }
        ensures { result ≡ flag_at self.now func.0 }
    {
        self.flags[usize::from(func.0)]
    }

    /// Gives a function its flag.
    pub(crate) fn set(&mut self, func: FuncId)
        requires within { func.0 < length self.old }
        ensures { self.new ≡ slice_set self.old func.0 true }
    {
        self.flags[usize::from(func.0)] = true;
    }
}
