// Programs that keep the rules.
ghost use Rattle.std.specs.Prelude.{◌≡◌, ◌<◌, length};
ghost use Rattle.guest_program.specs.Program.{IsProgram, IsMain};

use crate::instr::Func;
use prof_base::FuncId;
use std::marker::Model;

/// A program: 1 to 256 functions, of which one is labelled `main`. No two have the same label, or
/// the same name, url, script, line and column. Contracts see it as the list of its functions.
#[derive(Drop)]
pub struct Program {
    functions: Vec<Func>,
    main_at: u16,
}

impl Model for Program {
    ghost use Rattle.std.specs.Prelude.{List};
    ghost use Rattle.guest_program.specs.declared.instr.Func.{Func};

    ghost Value = { List Func };

    ghost use Rattle.guest_program.specs.Program.{IsProgram, IsMain};

    ghost view = { λ p. p.functions.items };

    ghost invariant = { λ p. IsProgram p.functions.items × IsMain p.functions.items p.main_at };
}

impl Program {
    /// The greatest number of functions.
    pub const MAX_FUNCS: usize = 256;

    /// Makes the program of these functions, which begins at the one with this number.
    pub fn new(functions: Vec<Func>, main_at: u16) -> Program
        requires rules { IsProgram functions.items }
        requires main { IsMain functions.items main_at }
        ensures { result ≡ functions.items }
    {
        Program { functions, main_at }
    }

    /// Returns the functions, numbered by their places.
    pub fn funcs(&self) -> &[Func]
        ensures functions { result.now ≡ self.now }
        ensures rules { IsProgram self.now }
    {
        self.functions.as_slice()
    }

    /// Returns the function labelled `main`, where the program begins.
    pub fn main(&self) -> FuncId
        ensures main { IsMain self.now result.0 }
        ensures within { result.0 < length self.now }
    {
        FuncId(self.main_at)
    }
}
