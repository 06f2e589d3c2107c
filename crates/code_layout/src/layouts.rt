// The two layouts of a function's code.
ghost use Rattle.std.specs.Prelude.{◌≡◌, ◌<◌, ◌≤◌, length, IfOk, OnOk, IfErr};
ghost use Rattle.guest_program.specs.InlinedSize.{inlined_size};
ghost use Rattle.guest_program.specs.Program.{IsProgram};
ghost use Rattle.code_layout.specs.Layouts.{layout_to, plain_layout, inlined_layout};
ghost use Rattle.code_layout.specs.Sizes.{IsRefusedAs};

use crate::parts::Parts;
use crate::refused::LayoutRefused;
use crate::sizes::inlined_size;
use code_event::Layout;
use guest_program::{Func, Program};
use prof_base::{FuncId, Memory};
use std::alloc::Global;

// Makes the layout of a function where calls are inlined to this depth.
fn layout_to(alloc: Global, funcs: &[Func], depth: u8, func: FuncId) -> Result<Layout, Memory>
    requires rules { IsProgram funcs.now }
    requires func { func.0 < length funcs.now }
    requires depth { depth ≤ Layout.MAX_ABOVE }
    requires small { inlined_size funcs.now depth func.0 ≤ Layout.MAX_SLOTS }
    ensures { IfOk result (λ layout. layout ≡ layout_to funcs.now depth func.0) }
{
    let mut parts = Parts::new(alloc);
    parts.push_unit(funcs, func, None)?;
    parts.expand(funcs, depth, func, 0)?;
    Ok(parts.into_layout())
}

/// Makes the layout of a function's plain code: the function is its one unit, and each of its
/// instructions has a slot, in order.
pub fn plain(alloc: Global, program: &Program, func: FuncId) -> Result<Layout, Memory>
    requires { func.0 < length program.now }
    ensures { IfOk result (λ layout. layout ≡ plain_layout program.now func.0) }
{
    layout_to(alloc, program.funcs(), 0, func)
}

/// Makes the layout of a function's optimised code. A call of a function that is marked `inline` is
/// followed at once by the callee's code, where fewer than [`Layout::MAX_ABOVE`] units are above
/// that of the call. The function is refused where this comes to more than [`Layout::MAX_SLOTS`]
/// slots, and no layout is begun then.
pub fn inlined(alloc: Global, program: &Program, func: FuncId) -> Result<Layout, LayoutRefused>
    requires { func.0 < length program.now }
    ensures layout { IfOk result (λ layout. layout ≡ inlined_layout program.now func.0) }
    ensures small { OnOk result (inlined_size program.now Layout.MAX_ABOVE func.0 ≤ Layout.MAX_SLOTS) }
    ensures refused { IfErr result (λ refusal. IsRefusedAs (inlined_size program.now Layout.MAX_ABOVE func.0) refusal) }
{
    let funcs = program.funcs();
    let slots = inlined_size(alloc, funcs, func)?;
    if slots > Layout::MAX_SLOTS as u64 {
        return Err(LayoutRefused::TooLarge { slots });
    }
    let layout = layout_to(alloc, funcs, Layout::MAX_ABOVE as u8, func)?;
    Ok(layout)
}
