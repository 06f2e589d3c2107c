// Registers of a frame.
ghost use Rattle.std.specs.Prelude.{◌≡◌, ◌≤◌};

use std::marker::Model;

/// One of a frame's eight registers, `r0` to `r7`.
#[derive(Clone, Copy, Debug, PartialEq, Eq)]
pub struct Reg {
    number: u8,
}

impl Model for Reg {
    ghost use Rattle.std.specs.Prelude.{ℕ, ◌≤◌};
    ghost use Rattle.guest_program.specs.declared.reg.TheConstants.Reg.{LAST};

    ghost Value = { ℕ };

    ghost view = { λ r. r.number };

    ghost invariant = { λ r. r.number ≤ LAST };

    ghost inverse = { λ n. record { number = n } };
}

impl Reg {
    /// The number of the last register.
    pub const LAST: u8 = 7;

    /// Returns the register with this number, from 0 to 7.
    pub fn new(number: u8) -> Reg
        requires { number ≤ Reg.LAST }
        ensures { result ≡ number }
    {
        Reg { number }
    }

    /// Returns the register's number, from 0 to 7.
    pub fn number(self) -> u8
        ensures value { result ≡ self }
        ensures bound { result ≤ Reg.LAST }
    {
        self.number
    }
}
