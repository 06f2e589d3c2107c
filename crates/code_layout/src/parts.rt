// Layouts that are being made.
ghost use Rattle.std.specs.Prelude.{◌≡◌, ◌<◌, ◌≤◌, ◌⊎◌, ◌++◌, [], ◌∷◌, suc, length, Some, None, IfOk, IfSome, IfNone, OnOk};
ghost use Rattle.std.specs.Option.{option_map};
ghost use Rattle.guest_program.specs.Program.{IsProgram};
ghost use Rattle.code_event.specs.Layout.{IsLayout};
ghost use Rattle.code_layout.specs.Layouts.{entry_of, unit_of, nothing, joined, inline_callee, inlined_at, expanded};

use code_event::{Entry, Layout, Site, Slot, Unit};
use guest_program::{Func, Op};
use prof_base::{FuncId, Memory, Sequence};
use std::alloc::Global;
use std::marker::Model;

/// The units and slots of a layout that is being made.
#[derive(Drop)]
pub(crate) struct Parts {
    units: Sequence<Unit>,
    slots: Sequence<Slot>,
}

impl Model for Parts {
    ghost use Rattle.code_event.specs.Parts.{LayoutParts};

    ghost Value = { LayoutParts };

    ghost view = { λ p. record { units = p.units; slots = p.slots } };
}

// Returns how a profile names a function.
fn entry_of(func: &Func) -> Result<Entry, Memory>
    ensures { IfOk result (λ entry. entry ≡ entry_of func.now) }
{
    Ok(Entry {
        name: func.name.copy()?,
        url: func.url.copy()?,
        script: func.script,
        line: func.line,
        column: func.column,
    })
}

// Returns the function that an operation calls, if it calls one that is marked `inline`.
fn inline_callee(funcs: &[Func], op: &Op) -> Option<FuncId>
    ensures callee { option_map (λ callee. callee.0) result ≡ inline_callee funcs.now op.now }
    ensures within { IfSome result (λ callee. callee.0 < length funcs.now) }
{
    match op {
        Op::Call(callee) => match funcs.get(usize::from(callee.0)) {
            Some(func) if func.inline => Some(*callee),
            _ => None,
        },
        _ => None,
    }
}

// Returns the function that an operation inlines, if it inlines one, where calls are inlined to this
// depth.
fn callee_at(funcs: &[Func], depth: u8, op: &Op) -> Option<FuncId>
    ensures some { IfSome result (λ callee. inline_callee funcs.now op.now ≡ Some callee.0) }
    ensures depth { IfSome result (λ _. 1 ≤ depth) }
    ensures within { IfSome result (λ callee. callee.0 < length funcs.now) }
    ensures none { IfNone result ((depth ≡ 0) ⊎ (inline_callee funcs.now op.now ≡ None)) }
{
    if depth == 0 {
        return None;
    }
    inline_callee(funcs, op)
}

impl Parts {
    /// Makes no parts. It allocates nothing.
    pub(crate) fn new(alloc: Global) -> Parts
        ensures { result ≡ nothing }
    {
        Parts {
            units: Sequence::new(alloc),
            slots: Sequence::new(alloc),
        }
    }

    /// Adds the unit of a function that is inlined at this call, or at none.
    pub(crate) fn push_unit(
        &mut self,
        funcs: &[Func],
        func: FuncId,
        parent: Option<Site>,
    ) -> Result<(), Memory>
        requires { func.0 < length funcs.now }
        ensures { OnOk result (self.new ≡ record { units = self.old.units ++ unit_of funcs.now func.0 parent ∷ []; slots = self.old.slots }) }
    {
        let entry = entry_of(&funcs[usize::from(func.0)])?;
        self.units.push(Unit {
            func,
            entry,
            parent,
        })
    }

    // Returns the number of units.
    fn count(&self) -> usize
        ensures { result ≡ length self.now.units }
    {
        self.units.len()
    }

    // Adds the slot of an instruction.
    fn push_slot(&mut self, site: Site) -> Result<(), Memory>
        ensures { OnOk result (self.new ≡ record { units = self.old.units; slots = self.old.slots ++ record { unit = site.unit; index = site.index; line = site.line } ∷ [] }) }
    {
        self.slots.push(Slot {
            unit: site.unit,
            index: site.index,
            line: site.line,
        })
    }

    /// Adds what the last unit, which is of this function, is expanded to where calls are inlined to
    /// this depth.
    pub(crate) fn expand(
        &mut self,
        funcs: &[Func],
        depth: u8,
        func: FuncId,
        unit: u16,
    ) -> Result<(), Memory>
        requires rules { IsProgram funcs.now }
        requires func { func.0 < length funcs.now }
        requires last { length self.old.units ≡ suc unit }
        requires few { length (joined self.old (expanded funcs.now depth func.0 unit)).units ≤ Layout.MAX_UNITS }
        ensures { OnOk result (self.new ≡ joined self.old (expanded funcs.now depth func.0 unit)) }
    {
        let body = funcs[usize::from(func.0)].body.as_slice();
        for index in 0..body.len() as u16 {
            let instr = &body[usize::from(index)];
            let line = instr.line;
            let site = Site { unit, index, line };
            self.push_slot(site)?;
            if let Some(callee) = callee_at(funcs, depth, &instr.op) {
                let child = self.count() as u16;
                self.push_unit(funcs, callee, Some(site))?;
                self.expand(funcs, depth - 1, callee, child)?;
            }
        }
        Ok(())
    }

    /// Makes the layout of these parts. It allocates nothing.
    pub(crate) fn into_layout(self) -> Layout
        requires { IsLayout self }
        ensures { result ≡ self }
    {
        let Parts { units, slots } = self;
        Layout::new(units, slots)
    }
}
