// Copies of programs. Texts share their bytes with those that they are copies of.
ghost use Rattle.std.specs.Prelude.{◌≡◌, IfOk};

use guest_program::{Func, Instr, Op, Program};
use prof_base::{Memory, Sequence};
use std::alloc::Global;

// Makes an equal operation.
fn copy_op(op: &Op) -> Result<Op, Memory>
    ensures { IfOk result (λ copy. copy ≡ op.now) }
{
    Ok(match op {
        Op::Set(to, number) => Op::Set(*to, *number),
        Op::Add(to, from) => Op::Add(*to, *from),
        Op::Sub(to, from) => Op::Sub(*to, *from),
        Op::Mul(to, from) => Op::Mul(*to, *from),
        Op::Lt(to, from) => Op::Lt(*to, *from),
        Op::Jump(place) => Op::Jump(*place),
        Op::Jz(tested, place) => Op::Jz(*tested, *place),
        Op::Call(func) => Op::Call(*func),
        Op::Ret => Op::Ret,
        Op::Print(from) => Op::Print(*from),
        Op::Halt => Op::Halt,
        Op::Opt(func) => Op::Opt(*func),
        Op::Deopt(func, reason) => Op::Deopt(*func, reason.copy()?),
        Op::NoOpt(func, reason) => Op::NoOpt(*func, reason.copy()?),
        Op::Drop(func) => Op::Drop(*func),
        Op::Gc => Op::Gc,
        Op::Idle(steps) => Op::Idle(*steps),
        Op::Native(steps) => Op::Native(*steps),
        Op::Collect(steps) => Op::Collect(*steps),
    })
}

// Makes an equal instruction.
fn copy_instr(instr: &Instr) -> Result<Instr, Memory>
    ensures { IfOk result (λ copy. copy ≡ instr.now) }
{
    Ok(Instr {
        line: instr.line,
        op: copy_op(&instr.op)?,
    })
}

// Makes a list of equal instructions.
fn copy_body(alloc: Global, body: &Sequence<Instr>) -> Result<Sequence<Instr>, Memory>
    ensures { IfOk result (λ copy. copy ≡ body.now) }
{
    let mut copies = Vec::with_capacity(alloc, body.len())?;
    for instr in body.as_slice() {
        copies.push(copy_instr(instr)?)?;
    }
    Ok(Sequence::from_vec(copies))
}

// Makes an equal function.
fn copy_func(alloc: Global, func: &Func) -> Result<Func, Memory>
    ensures { IfOk result (λ copy. copy ≡ func.now) }
{
    Ok(Func {
        label: func.label.copy()?,
        name: func.name.copy()?,
        url: func.url.copy()?,
        script: func.script,
        line: func.line,
        column: func.column,
        inline: func.inline,
        body: copy_body(alloc, &func.body)?,
    })
}

// Makes a list of equal functions.
fn copy_funcs(alloc: Global, funcs: &[Func]) -> Result<Vec<Func>, Memory>
    ensures { IfOk result (λ copies. copies.items ≡ funcs.now) }
{
    let mut copies = Vec::with_capacity(alloc, funcs.len())?;
    for func in funcs {
        copies.push(copy_func(alloc, func)?)?;
    }
    Ok(copies)
}

/// Makes an equal program.
pub(crate) fn copy_program(alloc: Global, program: &Program) -> Result<Program, Memory>
    ensures { IfOk result (λ copy. copy ≡ program.now) }
{
    let functions = copy_funcs(alloc, program.funcs())?;
    Ok(Program::new(functions, program.main().0))
}
