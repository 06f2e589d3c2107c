// Functions and their instructions.
use crate::reg::Reg;
use prof_base::{FuncId, Sequence, Text};

/// What an instruction does. Where it names a place, that is an instruction's index in the body of
/// the same function, from 0. Numbers wrap at 2^64.
#[derive(Drop)]
pub enum Op {
    /// Puts the number into the register.
    Set(Reg, u64),
    /// Adds the second register to the first.
    Add(Reg, Reg),
    /// Subtracts the second register from the first.
    Sub(Reg, Reg),
    /// Multiplies the first register by the second.
    Mul(Reg, Reg),
    /// Puts 1 into the first register where it is less than the second, and else 0.
    Lt(Reg, Reg),
    /// Goes on at the place.
    Jump(u16),
    /// Goes on at the place where the register is 0.
    Jz(Reg, u16),
    /// Runs the function with a copy of the registers.
    Call(FuncId),
    /// Goes back to the caller, which gets r0.
    Ret,
    /// Prints the register as a decimal number on a line of its own.
    Print(Reg),
    /// Ends the program.
    Halt,
    /// Asks for optimised code of the function.
    Opt(FuncId),
    /// Takes the function's optimised code away, for the reason given.
    Deopt(FuncId, Text),
    /// Bars the function from being optimised, for the reason given.
    NoOpt(FuncId, Text),
    /// Frees the function's plain code if no frame is in it.
    Drop(FuncId),
    /// Compacts the code.
    Gc,
    /// Waits for this number of steps, from 1 to 1,000,000.
    Idle(u32),
    /// Is in native code for this number of steps, from 1 to 1,000,000.
    Native(u32),
    /// Collects garbage for this number of steps, from 1 to 1,000,000.
    Collect(u32),
}

/// An instruction.
#[derive(Drop)]
pub struct Instr {
    /// The line of the source that it comes from, from 1 to 1,000,000.
    pub line: u32,
    /// What it does.
    pub op: Op,
}

/// A function. Its name, url, script, line and column together distinguish it from all others in a
/// profile.
#[derive(Drop)]
pub struct Func {
    /// The label that calls name it by: a letter from `a` to `z`, then up to 31 of `a` to `z`, `0`
    /// to `9` and `_`.
    pub label: Text,
    /// The name that a profile shows.
    pub name: Text,
    /// The url of its script.
    pub url: Text,
    /// The number of that script.
    pub script: u32,
    /// The line of the script where it begins, from 1 to 1,000,000.
    pub line: u32,
    /// The column of that line, from 1 to 1,000,000.
    pub column: u32,
    /// Whether the function is inlined into the optimised code of its callers.
    pub inline: bool,
    /// Its instructions, 1 to 4,096.
    pub body: Sequence<Instr>,
}

impl Func {
    /// The greatest number of instructions.
    pub const MAX_BODY: u32 = 4096;
}
