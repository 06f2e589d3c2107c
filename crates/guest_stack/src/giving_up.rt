// Frames of optimised code become frames of plain code.
ghost use Rattle.std.specs.Prelude.{◌≡◌, ◌++◌, ◌∷◌, map, reverse, IfOk, OnOk, OnErr};
ghost use Rattle.std.specs.List.{AllByRecursion};
ghost use Rattle.code_event.specs.Layout.{site_of};
ghost use Rattle.code_layout.specs.Laws.{func_at};
ghost use Rattle.code_objects.specs.Changes.{HasCode};
ghost use Rattle.code_objects.specs.CodeObjects.{optimised_name, start_at};
ghost use Rattle.guest_stack.specs.GivingUp.{all_given_up_by, frames_above, given_up_by};
ghost use Rattle.guest_stack.specs.Laws.{IsPlaced};
ghost use Rattle.guest_stack.specs.Stack.{all_given_up, is_optimised_of, plain_code_frame, slot_positions};

use crate::stack::{CodeFrame, Stack};
use code_event::{Layout, Site, Slot};
use code_objects::{CodeKind, CodeName, CodeObjects};
use prof_base::{FuncId, Memory};
use std::alloc::Global;

// Returns whether a code is the optimised code of a function.
fn is_optimised_of(func: FuncId, code: CodeName) -> bool
    ensures { result ≡ is_optimised_of func.0 code }
{
    code.func.0 == func.0 && matches!(code.kind, CodeKind::Optimised)
}

// Returns where a unit was inlined, if it was.
fn site_of(layout: &Layout, unit: u16) -> Option<Site>
    ensures { result ≡ site_of layout.now.units unit }
{
    match layout.units().get(usize::from(unit)) {
        Some(unit) => unit.parent,
        None => None,
    }
}

// Returns the frame of plain code for the function of a unit, at an index.
fn plain_code_frame(layout: &Layout, unit: u16, index: u16) -> CodeFrame
    ensures { result ≡ plain_code_frame (func_at layout.now.units unit, index) }
{
    let func = match layout.units().get(usize::from(unit)) {
        Some(unit) => unit.func,
        None => FuncId(0),
    };
    CodeFrame {
        code: CodeName {
            func,
            kind: CodeKind::Plain,
        },
        slot: index,
    }
}

// Adds a frame for each call at which a unit and those above it were inlined, at most this many.
// The outermost comes first.
fn push_above(
    frames: &mut Vec<CodeFrame>,
    layout: &Layout,
    unit: u16,
    most: usize,
) -> Result<(), Memory>
    ensures { OnOk result (frames.new.items ≡ frames.old.items ++ reverse (frames_above most layout.now unit)) }
{
    if most == 0 {
        return Ok(());
    }
    match site_of(layout, unit) {
        Some(site) => {
            push_above(frames, layout, site.unit, most - 1)?;
            frames.push(plain_code_frame(layout, site.unit, site.index))?;
            Ok(())
        }
        None => Ok(()),
    }
}

// Adds a frame for each function that a slot stands for, the outermost first.
fn push_slot(frames: &mut Vec<CodeFrame>, layout: &Layout, slot: Slot) -> Result<(), Memory>
    ensures { OnOk result (frames.new.items ≡ frames.old.items ++ reverse (map plain_code_frame (slot_positions layout.now slot))) }
{
    push_above(frames, layout, slot.unit, Layout::MAX_ABOVE)?;
    frames.push(plain_code_frame(layout, slot.unit, slot.index))?;
    Ok(())
}

// Adds what a frame becomes where the optimised code of a function, which has this layout, is given
// up, the oldest first.
fn push_given_up(
    frames: &mut Vec<CodeFrame>,
    layout: &Layout,
    func: FuncId,
    frame: CodeFrame,
) -> Result<(), Memory>
    ensures { OnOk result (frames.new.items ≡ frames.old.items ++ reverse (given_up_by layout.now func.0 frame)) }
{
    if !is_optimised_of(func, frame.code) {
        frames.push(frame)?;
        return Ok(());
    }
    match layout.slots().get(usize::from(frame.slot)) {
        Some(slot) => push_slot(frames, layout, *slot),
        None => Ok(()),
    }
}

// Returns what the callers of a stack's youngest frame become where the optimised code of a
// function, which has this layout, is given up. Both lists have the oldest first.
fn given_up_callers(
    alloc: Global,
    callers: &[CodeFrame],
    layout: &Layout,
    func: FuncId,
) -> Result<Vec<CodeFrame>, Memory>
    ensures { IfOk result (λ frames. reverse frames.items ≡ all_given_up_by layout.now func.0 (reverse callers.now)) }
{
    let mut frames = Vec::new(alloc);
    for frame in callers {
        push_given_up(&mut frames, layout, func, *frame)?;
    }
    Ok(frames)
}

// Returns what the frames of a stack become where the optimised code of a function, which has this
// layout, is given up, the oldest first.
fn given_up_frames(
    alloc: Global,
    stack: &Stack,
    layout: &Layout,
    func: FuncId,
) -> Result<Vec<CodeFrame>, Memory>
    ensures { IfOk result (λ frames. reverse frames.items ≡ all_given_up_by layout.now func.0 (stack.now.frame ∷ stack.now.callers)) }
{
    let mut frames = given_up_callers(alloc, stack.callers(), layout, func)?;
    push_given_up(&mut frames, layout, func, stack.frame())?;
    Ok(frames)
}

impl Stack {
    /// Gives up the frames in the optimised code of a function: each becomes a frame of plain code
    /// for each function that it stands for. The stack stands for the same as before. Out of memory
    /// leaves the stack unchanged.
    pub fn give_up(&mut self, alloc: Global, code: &CodeObjects, func: FuncId) -> Result<(), Memory>
        requires there { HasCode code.now (optimised_name func) }
        requires placed { AllByRecursion (IsPlaced code.now.funcs (start_at code.now.starts)) (self.old.frame ∷ self.old.callers) }
        ensures given_up { OnOk result (self.new.frame ∷ self.new.callers ≡ all_given_up code.now.funcs func.0 (self.old.frame ∷ self.old.callers)) }
        ensures registers { self.new.registers ≡ self.old.registers }
        ensures saved { self.new.saved ≡ self.old.saved }
        ensures unchanged { OnErr result (self.new ≡ self.old) }
    {
        let name = CodeName {
            func,
            kind: CodeKind::Optimised,
        };
        let layout = code.layout(name).unwrap();
        let frames = given_up_frames(alloc, self, layout, func)?;
        self.replace_frames(frames);
        Ok(())
    }
}
