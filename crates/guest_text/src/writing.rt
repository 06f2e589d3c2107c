// Programs as their canonical text.
ghost use Rattle.std.specs.Prelude.{◌≡◌, ◌++◌, [], ◌∷◌, List, ℕ, IfOk, OnOk, codes, decimal, map};
ghost use Rattle.prof_lines.specs.Spelled.{quoted, optional_word};
ghost use Rattle.prof_lines.specs.Canonical.{further, line_of, text_of};
ghost use Rattle.guest_program.specs.Program.{IsProgram};
ghost use Rattle.guest_text.specs.declared.program_line.ProgramLine.TheVariants as line;
ghost use Rattle.guest_text.specs.ProgramLine.{reg_word, name_of, op_name, op_operands, entry_words, line_words};
ghost use Rattle.guest_text.specs.ProgramText.{head_of, func_lines, program_lines, labels_of, program_text, Spells};
ghost use Rattle.guest_text.specs.Draft.{entry_key};

use crate::program_line::Head;
use guest_program::{Func, Instr, Op, Program, Reg};
use prof_base::{FuncId, Memory, Text, put_decimal};
use prof_lines::put_quoted;
use std::alloc::Global;

fn put_number(out: &mut Vec<u8>, number: u64) -> Result<(), Memory>
    ensures { OnOk result (out.new.items ≡ out.old.items ++ 32 ∷ decimal number) }
{
    out.push(b' ')?;
    put_decimal(out, number)?;
    Ok(())
}

fn put_text(out: &mut Vec<u8>, text: &Text) -> Result<(), Memory>
    ensures { OnOk result (out.new.items ≡ out.old.items ++ 32 ∷ quoted text.now) }
{
    out.push(b' ')?;
    put_quoted(out, text)
}

fn put_reg(out: &mut Vec<u8>, reg: Reg) -> Result<(), Memory>
    ensures { OnOk result (out.new.items ≡ out.old.items ++ 32 ∷ reg_word reg) }
{
    out.extend_from_slice(b" r")?;
    out.push(b'0' + reg.number())?;
    Ok(())
}

fn label(funcs: &[Func], func: FuncId) -> &[u8]
    ensures { result.now ≡ name_of (labels_of funcs.now) func.0 }
{
    match funcs.get(usize::from(func.0)) {
        Some(func) => func.label.bytes(),
        None => &[],
    }
}

fn put_label(out: &mut Vec<u8>, funcs: &[Func], func: FuncId) -> Result<(), Memory>
    ensures { OnOk result (out.new.items ≡ out.old.items ++ 32 ∷ name_of (labels_of funcs.now) func.0) }
{
    out.push(b' ')?;
    out.extend_from_slice(label(funcs, func))?;
    Ok(())
}

fn op_name(op: &Op) -> &'static [u8]
    ensures { result.now ≡ op_name op.now }
{
    match op {
        Op::Set(_, _) => b"set",
        Op::Add(_, _) => b"add",
        Op::Sub(_, _) => b"sub",
        Op::Mul(_, _) => b"mul",
        Op::Lt(_, _) => b"lt",
        Op::Jump(_) => b"jump",
        Op::Jz(_, _) => b"jz",
        Op::Call(_) => b"call",
        Op::Ret => b"ret",
        Op::Print(_) => b"print",
        Op::Halt => b"halt",
        Op::Opt(_) => b"opt",
        Op::Deopt(_, _) => b"deopt",
        Op::NoOpt(_, _) => b"noopt",
        Op::Drop(_) => b"drop",
        Op::Gc => b"gc",
        Op::Idle(_) => b"idle",
        Op::Native(_) => b"native",
        Op::Collect(_) => b"collect",
    }
}

fn put_regs(out: &mut Vec<u8>, to: Reg, from: Reg) -> Result<(), Memory>
    ensures { OnOk result (out.new.items ≡ out.old.items ++ further (reg_word to ∷ reg_word from ∷ [])) }
{
    put_reg(out, to)?;
    put_reg(out, from)
}

fn put_reg_number(out: &mut Vec<u8>, reg: Reg, number: u64) -> Result<(), Memory>
    ensures { OnOk result (out.new.items ≡ out.old.items ++ further (reg_word reg ∷ decimal number ∷ [])) }
{
    put_reg(out, reg)?;
    put_number(out, number)
}

fn put_reason(out: &mut Vec<u8>, funcs: &[Func], func: FuncId, reason: &Text) -> Result<(), Memory>
    ensures { OnOk result (out.new.items ≡ out.old.items ++ further (name_of (labels_of funcs.now) func.0 ∷ quoted reason.now ∷ [])) }
{
    put_label(out, funcs, func)?;
    put_text(out, reason)
}

fn put_operands(out: &mut Vec<u8>, funcs: &[Func], op: &Op) -> Result<(), Memory>
    ensures { OnOk result (out.new.items ≡ out.old.items ++ further (op_operands (labels_of funcs.now) op.now)) }
{
    match op {
        Op::Set(reg, number) => put_reg_number(out, *reg, *number),
        Op::Add(to, from) => put_regs(out, *to, *from),
        Op::Sub(to, from) => put_regs(out, *to, *from),
        Op::Mul(to, from) => put_regs(out, *to, *from),
        Op::Lt(to, from) => put_regs(out, *to, *from),
        Op::Jump(place) => put_number(out, u64::from(*place)),
        Op::Jz(reg, place) => put_reg_number(out, *reg, u64::from(*place)),
        Op::Call(func) => put_label(out, funcs, *func),
        Op::Print(reg) => put_reg(out, *reg),
        Op::Opt(func) => put_label(out, funcs, *func),
        Op::Deopt(func, reason) => put_reason(out, funcs, *func, reason),
        Op::NoOpt(func, reason) => put_reason(out, funcs, *func, reason),
        Op::Drop(func) => put_label(out, funcs, *func),
        Op::Idle(steps) => put_number(out, u64::from(*steps)),
        Op::Native(steps) => put_number(out, u64::from(*steps)),
        Op::Collect(steps) => put_number(out, u64::from(*steps)),
        Op::Ret => Ok(()),
        Op::Halt => Ok(()),
        Op::Gc => Ok(()),
    }
}

fn put_instr(out: &mut Vec<u8>, funcs: &[Func], instr: &Instr) -> Result<(), Memory>
    ensures { OnOk result (out.new.items ≡ out.old.items ++ line_of (line_words (labels_of funcs.now) (line.Instr instr.now))) }
{
    put_decimal(out, u64::from(instr.line))?;
    out.push(b' ')?;
    out.extend_from_slice(op_name(&instr.op))?;
    put_operands(out, funcs, &instr.op)?;
    out.push(b'\n')?;
    Ok(())
}

fn put_body(out: &mut Vec<u8>, funcs: &[Func], body: &[Instr]) -> Result<(), Memory>
    ensures { OnOk result (out.new.items ≡ out.old.items ++ text_of (line_words (labels_of funcs.now)) (map (λ instr. line.Instr instr) body.now)) }
{
    for instr in body {
        put_instr(out, funcs, instr)?;
    }
    Ok(())
}

// What tells functions apart in a profile.
fn put_entry(
    out: &mut Vec<u8>,
    name: &Text,
    url: &Text,
    place: (u32, u32, u32),
) -> Result<(), Memory>
    ensures { OnOk result (out.new.items ≡ out.old.items ++ further (quoted name.now ∷ quoted url.now ∷ decimal place.0 ∷ decimal place.1 ∷ decimal place.2 ∷ [])) }
{
    let (script, line, column) = place;
    put_text(out, name)?;
    put_text(out, url)?;
    put_number(out, u64::from(script))?;
    put_number(out, u64::from(line))?;
    put_number(out, u64::from(column))
}

/// The entry of a function's line as one word.
pub(crate) fn entry_key(alloc: Global, head: &Head) -> Result<Vec<u8>, Memory>
    ensures { IfOk result (λ key. key.items ≡ entry_key head.now) }
{
    let mut key = Vec::new(alloc);
    put_entry(
        &mut key,
        &head.name,
        &head.url,
        (head.script, head.line, head.column),
    )?;
    Ok(key)
}

fn inline_word(inline: bool) -> &'static [u8]
    ensures { result.now ≡ further (optional_word (codes "inline") inline) }
{
    if inline { b" inline" } else { b"" }
}

fn put_func_line(out: &mut Vec<u8>, funcs: &[Func], func: &Func) -> Result<(), Memory>
    ensures { OnOk result (out.new.items ≡ out.old.items ++ line_of (line_words (labels_of funcs.now) (line.Func (head_of func.now)))) }
{
    out.extend_from_slice(b"func ")?;
    out.extend_from_slice(func.label.bytes())?;
    put_entry(
        out,
        &func.name,
        &func.url,
        (func.script, func.line, func.column),
    )?;
    out.extend_from_slice(inline_word(func.inline))?;
    out.push(b'\n')?;
    Ok(())
}

fn put_func(out: &mut Vec<u8>, funcs: &[Func], func: &Func) -> Result<(), Memory>
    ensures { OnOk result (out.new.items ≡ out.old.items ++ text_of (line_words (labels_of funcs.now)) (func_lines func.now)) }
{
    put_func_line(out, funcs, func)?;
    put_body(out, funcs, func.body.as_slice())
}

// Writes functions in order, where each call names one of these.
fn write_functions(alloc: Global, funcs: &[Func]) -> Result<Vec<u8>, Memory>
    ensures { IfOk result (λ text. text.items ≡ program_text funcs.now) }
{
    let mut out = Vec::new(alloc);
    for func in funcs {
        put_func(&mut out, funcs, func)?;
    }
    Ok(out)
}

/// Writes the program's canonical text: one space between words, no line that is passed over, and
/// byte 10 after each line.
pub fn write_program(alloc: Global, program: &Program) -> Result<Vec<u8>, Memory>
    ensures text { IfOk result (λ text. text.items ≡ program_text program.now) }
    // The text's lines spell the program, so that it is read again as this program.
    ensures spells { IfOk result (λ text. Spells text.items program.now) }
{
    write_functions(alloc, program.funcs())
}
