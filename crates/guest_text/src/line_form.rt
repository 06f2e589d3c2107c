// The forms of the lines of a program's text.
ghost use Rattle.std.specs.Prelude.{◌≡◌, ◌-◌, ◌^◌, ◌++◌, ◌≤◌, IfOk};
ghost use Rattle.prof_lines.specs.Answers.{Gives};
ghost use Rattle.prof_lines.specs.Words.{IsLabel};
ghost use Rattle.guest_text.specs.ProgramLine.{IsLineIn};
ghost use Rattle.guest_text.specs.LineForms.{reg_of, reg_at, within, place_of, place_at, known, func_at, bare_at, set_at, regs_at, print_at, jump_at, jz_at, target_at, reason_at, steps_at, chosen_of, plain_forms, code_forms, op_of, instr_at, head_at, line_by, line_at};

use crate::outline::Outline;
use crate::program_line::{Head, ProgramLine};
use crate::rule::Rule;
use guest_program::{Instr, Op, Program, Reg};
use prof_base::{FuncId, Memory, Text, TextRefused};
use prof_lines::{Cause, LineFault, end, fixed, label, number, number_of, optional, quoted, word};
use std::alloc::Global;

// The number of the register that a word names.
fn reg_of(word: &[u8]) -> Result<u8, LineFault<Rule>>
    ensures reg { Gives (λ reg. reg) result (reg_of word.now) }
    ensures bound { IfOk result (λ reg. reg ≤ Reg.LAST) }
{
    match word {
        [b'r', digit] if *digit >= b'0' && *digit <= b'7' => Ok(*digit - b'0'),
        _ => Err(LineFault::At(Cause::Word)),
    }
}

fn reg(bytes: &[u8]) -> Result<(u8, &[u8]), LineFault<Rule>>
    ensures reg { Gives (λ x. (x.0, x.1.now)) result (reg_at bytes.now) }
    ensures bound { IfOk result (λ x. x.0 ≤ Reg.LAST) }
{
    let (word, rest) = word(bytes)?;
    let reg = reg_of(word)?;
    Ok((reg, rest))
}

// The place, where it is in a body of this size.
fn within(size: Option<u64>, place: u64) -> Result<u64, LineFault<Rule>>
    ensures { Gives (λ place. place) result (within size place) }
{
    match size {
        Some(size) if place >= size => Err(LineFault::At(Cause::Own(Rule::Limit))),
        _ => Ok(place),
    }
}

fn place(size: Option<u64>, bytes: &[u8]) -> Result<(u16, &[u8]), LineFault<Rule>>
    ensures { Gives (λ x. (x.0, x.1.now)) result (place_at size bytes.now) }
{
    let (word, rest) = word(bytes)?;
    let place = number_of(word, 0, 4_095)?;
    let place = within(size, place)?;
    Ok((place as u16, rest))
}

// A function with this number, if there is one with the label.
fn known(number: Option<usize>) -> Result<FuncId, LineFault<Rule>>
    ensures { Gives (λ func. func) result (known number) }
{
    match number {
        Some(number) => Ok(FuncId(number.min(Program::MAX_FUNCS) as u16)),
        None => Err(LineFault::At(Cause::Own(Rule::UnknownName))),
    }
}

#[tactic(auto, unfolding(crate::specs::LineForms::func_at))]
fn func<'a>(outline: &Outline, bytes: &'a [u8]) -> Result<(FuncId, &'a [u8]), LineFault<Rule>>
    ensures { Gives (λ x. (x.0, x.1.now)) result (func_at outline.now.labels bytes.now) }
{
    let (label, rest) = label(bytes)?;
    let func = known(outline.number(label))?;
    Ok((func, rest))
}

fn bare(op: Op, bytes: &[u8]) -> Result<Op, LineFault<Rule>>
    ensures { Gives (λ op. op) result (bare_at op bytes.now) }
{
    end(bytes)?;
    Ok(op)
}

#[tactic(auto, unfolding(crate::specs::LineForms::set_at))]
fn set(bytes: &[u8]) -> Result<Op, LineFault<Rule>>
    ensures { Gives (λ op. op) result (set_at bytes.now) }
{
    let (reg, rest) = reg(bytes)?;
    let (number, rest) = number(rest, 0, u64::MAX)?;
    end(rest)?;
    Ok(Op::Set(Reg::new(reg), number))
}

#[tactic(auto, unfolding(crate::specs::LineForms::regs_at))]
fn regs(bytes: &[u8]) -> Result<(Reg, Reg), LineFault<Rule>>
    ensures { Gives (λ regs. regs) result (regs_at bytes.now) }
{
    let (to, rest) = reg(bytes)?;
    let (from, rest) = reg(rest)?;
    end(rest)?;
    Ok((Reg::new(to), Reg::new(from)))
}

#[tactic(auto, unfolding(crate::specs::LineForms::print_at))]
fn print(bytes: &[u8]) -> Result<Op, LineFault<Rule>>
    ensures { Gives (λ op. op) result (print_at bytes.now) }
{
    let (reg, rest) = reg(bytes)?;
    end(rest)?;
    Ok(Op::Print(Reg::new(reg)))
}

#[tactic(auto, unfolding(crate::specs::LineForms::jump_at))]
fn jump(size: Option<u64>, bytes: &[u8]) -> Result<Op, LineFault<Rule>>
    ensures { Gives (λ op. op) result (jump_at size bytes.now) }
{
    let (place, rest) = place(size, bytes)?;
    end(rest)?;
    Ok(Op::Jump(place))
}

#[tactic(auto, unfolding(crate::specs::LineForms::jz_at))]
fn jz(size: Option<u64>, bytes: &[u8]) -> Result<Op, LineFault<Rule>>
    ensures { Gives (λ op. op) result (jz_at size bytes.now) }
{
    let (reg, rest) = reg(bytes)?;
    let (place, rest) = place(size, rest)?;
    end(rest)?;
    Ok(Op::Jz(Reg::new(reg), place))
}

#[tactic(auto, unfolding(crate::specs::LineForms::target_at))]
fn target(outline: &Outline, bytes: &[u8]) -> Result<FuncId, LineFault<Rule>>
    ensures { Gives (λ func. func) result (target_at outline.now.labels bytes.now) }
{
    let (func, rest) = func(outline, bytes)?;
    end(rest)?;
    Ok(func)
}

#[tactic(auto, unfolding(crate::specs::LineForms::reason_at))]
fn reason(alloc: Global, outline: &Outline, bytes: &[u8]) -> Result<(FuncId, Text), LineFault<Rule>>
    ensures { Gives (λ x. (x.0, x.1)) result (reason_at outline.now.labels bytes.now) }
{
    let (func, rest) = func(outline, bytes)?;
    let (reason, rest) = quoted(alloc, rest)?;
    end(rest)?;
    Ok((func, reason))
}

#[tactic(auto, unfolding(crate::specs::LineForms::steps_at))]
fn steps(bytes: &[u8]) -> Result<u32, LineFault<Rule>>
    ensures { Gives (λ steps. steps) result (steps_at bytes.now) }
{
    let (steps, rest) = number(bytes, 1, 1_000_000)?;
    end(rest)?;
    Ok(steps as u32)
}

// The operation on a function's code, or the wait, that a word names.
fn code_op(
    alloc: Global,
    outline: &Outline,
    word: &[u8],
    bytes: &[u8],
) -> Result<Op, LineFault<Rule>>
    ensures { Gives (λ op. op) result (chosen_of (code_forms outline.now.labels) word.now bytes.now) }
{
    if word == b"call".as_slice() {
        Ok(Op::Call(target(outline, bytes)?))
    } else if word == b"opt".as_slice() {
        Ok(Op::Opt(target(outline, bytes)?))
    } else if word == b"deopt".as_slice() {
        let (func, reason) = reason(alloc, outline, bytes)?;
        Ok(Op::Deopt(func, reason))
    } else if word == b"noopt".as_slice() {
        let (func, reason) = reason(alloc, outline, bytes)?;
        Ok(Op::NoOpt(func, reason))
    } else if word == b"drop".as_slice() {
        Ok(Op::Drop(target(outline, bytes)?))
    } else if word == b"gc".as_slice() {
        bare(Op::Gc, bytes)
    } else if word == b"idle".as_slice() {
        Ok(Op::Idle(steps(bytes)?))
    } else if word == b"native".as_slice() {
        Ok(Op::Native(steps(bytes)?))
    } else if word == b"collect".as_slice() {
        Ok(Op::Collect(steps(bytes)?))
    } else {
        Err(LineFault::At(Cause::Word))
    }
}

fn op(
    alloc: Global,
    outline: &Outline,
    size: Option<u64>,
    word: &[u8],
    bytes: &[u8],
) -> Result<Op, LineFault<Rule>>
    ensures { Gives (λ op. op) result (op_of outline.now.labels size word.now bytes.now) }
{
    if word == b"set".as_slice() {
        set(bytes)
    } else if word == b"add".as_slice() {
        let (to, from) = regs(bytes)?;
        Ok(Op::Add(to, from))
    } else if word == b"sub".as_slice() {
        let (to, from) = regs(bytes)?;
        Ok(Op::Sub(to, from))
    } else if word == b"mul".as_slice() {
        let (to, from) = regs(bytes)?;
        Ok(Op::Mul(to, from))
    } else if word == b"lt".as_slice() {
        let (to, from) = regs(bytes)?;
        Ok(Op::Lt(to, from))
    } else if word == b"jump".as_slice() {
        jump(size, bytes)
    } else if word == b"jz".as_slice() {
        jz(size, bytes)
    } else if word == b"ret".as_slice() {
        bare(Op::Ret, bytes)
    } else if word == b"print".as_slice() {
        print(bytes)
    } else if word == b"halt".as_slice() {
        bare(Op::Halt, bytes)
    } else {
        code_op(alloc, outline, word, bytes)
    }
}

#[tactic(auto, unfolding(crate::specs::LineForms::instr_at))]
fn instr(
    alloc: Global,
    outline: &Outline,
    size: Option<u64>,
    bytes: &[u8],
) -> Result<Instr, LineFault<Rule>>
    ensures { Gives (λ instr. instr) result (instr_at outline.now.labels size bytes.now) }
{
    let (line, rest) = number(bytes, 1, 1_000_000)?;
    let (name, rest) = word(rest)?;
    let op = op(alloc, outline, size, name, rest)?;
    Ok(Instr {
        line: line as u32,
        op,
    })
}

fn label_text(alloc: Global, label: &[u8]) -> Result<Text, Memory>
    requires { IsLabel label.now }
    ensures { IfOk result (λ text. text ≡ label.now) }
{
    match Text::new(alloc, label) {
        Ok(text) => Ok(text),
        Err(TextRefused::Memory) => Err(Memory),
        Err(TextRefused::TooLong | TextRefused::NotPrintable { .. }) => unreachable!(),
    }
}

#[tactic(auto, unfolding(crate::specs::LineForms::head_at))]
fn head(alloc: Global, bytes: &[u8]) -> Result<Head, LineFault<Rule>>
    ensures { Gives (λ head. head) result (head_at bytes.now) }
{
    let (name, rest) = label(bytes)?;
    let label = label_text(alloc, name)?;
    let (name, rest) = quoted(alloc, rest)?;
    let (url, rest) = quoted(alloc, rest)?;
    let (script, rest) = number(rest, 0, 4_294_967_295)?;
    let (line, rest) = number(rest, 1, 1_000_000)?;
    let (column, rest) = number(rest, 1, 1_000_000)?;
    let inline = optional(b"inline", rest)?;
    Ok(Head {
        label,
        name,
        url,
        script: script as u32,
        line: line as u32,
        column: column as u32,
        inline,
    })
}

/// Reads a line, in a body of this size; none says that no function's line comes before it.
pub(crate) fn line(
    alloc: Global,
    outline: &Outline,
    size: Option<u64>,
    bytes: &[u8],
) -> Result<ProgramLine, LineFault<Rule>>
    ensures line { Gives (λ line. line) result (line_at outline.now.labels size bytes.now) }
{
    let found: Result<&[u8], LineFault<Rule>> = fixed(b"func", bytes);
    match found {
        Ok(rest) => {
            let head = head(alloc, rest)?;
            Ok(ProgramLine::Func(head))
        }
        Err(_) => {
            let instr = instr(alloc, outline, size, bytes)?;
            Ok(ProgramLine::Instr(instr))
        }
    }
}
