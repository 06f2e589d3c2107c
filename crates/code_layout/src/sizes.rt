// Inlined sizes of all functions, by a table over depth and function. A row is computed from the one
// before it, so the work is proportional to the program's text, however large the sizes are.
ghost use Rattle.std.specs.Prelude.{◌≡◌, ℕ, ◌<◌, ◌≤◌, length, slice_index, All, IfOk};
ghost use Rattle.guest_program.specs.InlinedSize.{taken_in, inlined_size};
ghost use Rattle.guest_program.specs.Program.{IsProgram};
ghost use Rattle.code_layout.specs.Sizes.{AreSizes, size_by};

use code_event::Layout;
use guest_program::{Func, Instr, Op};
use prof_base::{FuncId, Memory};
use std::alloc::Global;

// A bound of the sizes that are summed: a size to depth 3 is at most 4096 + 4096^2 + 4096^3 + 4096^4.
const MAX_PART: u64 = 1 << 50;

// Returns what an instruction adds to the slots besides its own.
fn part(funcs: &[Func], sizes: &[u64], instr: &Instr) -> u64
    requires { All (λ size. size ≤ MAX_PART) sizes.now }
    ensures part { result ≡ taken_in funcs.now (λ callee. slice_index sizes.now callee) instr.now }
    ensures bound { result ≤ MAX_PART }
{
    match instr.op {
        Op::Call(callee) => match funcs.get(usize::from(callee.0)) {
            Some(func) if func.inline => sizes.get(usize::from(callee.0)).copied().unwrap_or(0),
            _ => 0,
        },
        _ => 0,
    }
}

// Returns the size of a function from the sizes of the functions that it inlines.
fn size_by(funcs: &[Func], sizes: &[u64], number: usize) -> u64
    requires rules { IsProgram funcs.now }
    requires parts { All (λ size. size ≤ MAX_PART) sizes.now }
    ensures { result ≡ size_by funcs.now sizes.now number }
{
    let Some(func) = funcs.get(number) else {
        return 0;
    };
    let body = func.body.as_slice();
    let mut size = body.len() as u64;
    for instr in body {
        size += part(funcs, sizes, instr);
    }
    size
}

// Returns the row of the lengths of the bodies.
fn lengths(alloc: Global, funcs: &[Func]) -> Result<Vec<u64>, Memory>
    ensures { IfOk result (λ row. AreSizes funcs.now 0 row.items) }
{
    let mut row = Vec::new(alloc);
    for func in funcs {
        row.push(func.body.len() as u64)?;
    }
    Ok(row)
}

// Returns the row after this one.
fn next_row(alloc: Global, funcs: &[Func], sizes: &[u64]) -> Result<Vec<u64>, Memory>
    requires rules { IsProgram funcs.now }
    requires parts { All (λ size. size ≤ MAX_PART) sizes.now }
    ensures count { IfOk result (λ row. length row.items ≡ length funcs.now) }
    ensures each { IfOk result (λ row. (number : ℕ) → number < length funcs.now → slice_index row.items number ≡ size_by funcs.now sizes.now number) }
{
    let mut row = Vec::new(alloc);
    for number in 0..funcs.len() {
        row.push(size_by(funcs, sizes, number))?;
    }
    Ok(row)
}

/// Computes the number of slots of a function's code where calls of inline functions are inlined to
/// the depth of a layout.
pub(crate) fn inlined_size(alloc: Global, funcs: &[Func], func: FuncId) -> Result<u64, Memory>
    requires { IsProgram funcs.now }
    ensures { IfOk result (λ size. size ≡ inlined_size funcs.now Layout.MAX_ABOVE func.0) }
{
    let mut sizes = lengths(alloc, funcs)?;
    for _depth in 0..Layout::MAX_ABOVE - 1 {
        sizes = next_row(alloc, funcs, &sizes)?;
    }
    Ok(size_by(funcs, &sizes, usize::from(func.0)))
}
