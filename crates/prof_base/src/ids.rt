// Names of things by number, and times.
ghost use Rattle.std.specs.Prelude.{◌≡◌, ◌≤◌};

use std::marker::Model;

/// A function of a guest program, by its place in the program's text, from 0.
#[derive(Clone, Copy, Debug, PartialEq, Eq, PartialOrd, Ord)]
pub struct FuncId(pub u16);

/// A recording session of an isolate, numbered by its start, from 1.
#[derive(Clone, Copy, Debug, PartialEq, Eq, PartialOrd, Ord)]
pub struct SessionId(pub u32);

/// A time in microseconds, below 2^53, so that every JSON reader holds it exactly (RFC 8259,
/// section 6).
#[derive(Clone, Copy, Debug, PartialEq, Eq, PartialOrd, Ord)]
pub struct Micros {
    value: u64,
}

impl Model for Micros {
    ghost use Rattle.std.specs.Prelude.{ℕ, ◌≤◌};
    ghost use Rattle.prof_base.specs.declared.ids.TheConstants.Micros.{MAX};

    ghost Value = { ℕ };

    ghost view = { λ m. m.value };

    ghost invariant = { λ m. m.value ≤ MAX };

    ghost inverse = { λ n. record { value = n } };
}

impl Micros {
    /// The latest time.
    pub const MAX: u64 = 0x1f_ffff_ffff_ffff;

    /// Makes the time that is `value` microseconds after the clock's start.
    pub fn new(value: u64) -> Micros
        requires { value ≤ Micros.MAX }
        ensures { result ≡ value }
    {
        Micros { value }
    }

    /// Returns the microseconds since the clock's start.
    pub fn value(self) -> u64
        ensures value { result ≡ self }
        ensures bound { result ≤ Micros.MAX }
    {
        self.value
    }
}
