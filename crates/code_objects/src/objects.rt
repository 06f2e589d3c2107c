// The code objects of a program.
ghost use Rattle.std.specs.Prelude.{◌≡◌, ◌<◌, ◌≤◌, ◌+◌, [], ◌∷◌, List, length, map, Some, None, option_map, option_to_list, is_some, IfOk, IfSome, IfErr, OnOk, OnErr};
ghost use Rattle.std.specs.Option.{option_copied};
ghost use Rattle.guest_program.specs.InlinedSize.{inlined_size};
ghost use Rattle.code_event.specs.declared.code_map.Range.{Range};
ghost use Rattle.code_layout.specs.Laws.{slot_of};
ghost use Rattle.code_layout.specs.Sizes.{IsRefusedAs};
ghost use Rattle.code_space.specs.Compaction.{compacted, moves_between};
ghost use Rattle.code_space.specs.Space.{IsSpace};
ghost use Rattle.code_objects.specs.Changes.{HasCode, IsCreation, IsDeletion, IsSpaceOf, MakesSure, OthersStay, RangesFollow, code_size, move_event, with_moves};
ghost use Rattle.code_objects.specs.CodeObjects.{LieAt, layout_of, optimised_name, plain_name, start_at};
ghost use Rattle.code_objects.specs.Objects.{ArePlaces};
ghost use Rattle.code_objects.specs.declared.name.CodeName.{CodeName};

use crate::func_code::{FuncCode, no_codes, object_at, put_object, slide_objects};
use crate::moves::move_events;
use crate::name::{CodeKind, CodeName};
use crate::object::{CodeObject, Places};
use crate::placing::place_code;
use code_event::{CodeEvent, Layout};
use code_layout::{LayoutRefused, SlotTable, inlined, plain};
use code_space::{CodeRange, CodeSpace, FIRST_ADDRESS, SPACE_END};
use guest_program::Program;
use prof_base::{FuncId, Memory, Sequence};
use std::alloc::Global;
use std::marker::Model;

/// A program, the code objects of its functions, and the space in which they lie. A function has at
/// most one code object of each kind. Each change of the code has its events: what these make of
/// ranges of code is where the code lies.
#[derive(Drop)]
pub struct CodeObjects {
    alloc: Global,
    program: Program,
    // By the numbers of the functions.
    codes: Vec<FuncCode>,
    space: CodeSpace,
}

impl Model for CodeObjects {
    ghost use Rattle.code_objects.specs.CodeObjects.{CodeParts};

    ghost Value = { CodeParts };

    ghost use Rattle.code_objects.specs.Objects.{AreObjects, starts_of};

    ghost view = { λ c. record { funcs = c.program; starts = starts_of c.codes.items; space = c.space } };

    ghost invariant = { λ c. AreObjects c.program c.codes.items c.space };
}

impl CodeObjects {
    /// Takes a program. There is no code.
    pub fn new(alloc: Global, program: Program) -> Result<CodeObjects, Memory>
        ensures funcs { IfOk result (λ objects. objects.funcs ≡ program) }
        ensures nowhere { IfOk result (λ objects. LieAt objects []) }
        ensures space { IfOk result (λ objects. objects.space ≡ []) }
    {
        let codes = no_codes(alloc, program.funcs().len())?;
        Ok(CodeObjects {
            alloc,
            program,
            codes,
            space: CodeSpace::new(alloc),
        })
    }

    /// Returns the program.
    pub fn program(&self) -> &Program
        ensures { result.now ≡ self.now.funcs }
    {
        &self.program
    }

    /// Returns the ranges of addresses that code takes, in rising order.
    pub fn ranges(&self) -> &[CodeRange]
        ensures ranges { result.now ≡ self.now.space }
        ensures rules { IsSpace self.now.space }
        ensures code { (ranges : List Range) → LieAt self.now ranges → IsSpaceOf ranges self.now.space }
    {
        self.space.as_slice()
    }

    /// Returns where the code with this name starts, if there is such code. There is none of a
    /// function that is not in the program.
    pub fn start_of(&self, name: CodeName) -> Option<u32>
        ensures start { result ≡ start_at self.now.starts name }
        ensures within { HasCode self.now name → name.func.0 < length self.now.funcs }
        ensures ends { IfSome result (λ start. start + code_size (layout_of self.now.funcs name) ≤ SPACE_END) }
    {
        // The ranges are looked at for the rules that they keep.
        let _ranges = self.space.as_slice();
        match object_at(&self.codes, name) {
            Some(object) => Some(object.start),
            None => None,
        }
    }

    /// Returns the layout of the code with this name, if there is such code.
    pub fn layout(&self, name: CodeName) -> Option<&Layout>
        ensures { option_copied result ≡ option_map (λ _. layout_of self.now.funcs name) (start_at self.now.starts name) }
    {
        match object_at(&self.codes, name) {
            Some(object) => Some(&object.layout),
            None => None,
        }
    }

    /// Finds the place of the slot of a unit and an index in the code with this name.
    pub fn place_of(&self, name: CodeName, unit: u16, index: u16) -> Option<u16>
        requires there { HasCode self.now name }
        ensures { result ≡ slot_of (layout_of self.now.funcs name) unit index }
    {
        object_at(&self.codes, name).unwrap().place_of(unit, index)
    }

    // Creates the code with this name. When out of memory, it leaves all unchanged.
    fn create(
        &mut self,
        name: CodeName,
        layout: Layout,
        places: Places,
    ) -> Result<CodeEvent, Memory>
        requires func { name.func.0 < length self.old.funcs }
        requires none { start_at self.old.starts name ≡ None }
        requires layout { layout ≡ layout_of self.old.funcs name }
        requires places { ArePlaces places layout }
        ensures event { IfOk result (λ event. IsCreation self.old self.new name event) }
        ensures others { OthersStay self.old self.new name }
        ensures funcs { self.new.funcs ≡ self.old.funcs }
        ensures ranges { IfOk result (λ event. RangesFollow self.old self.new (event ∷ [])) }
        ensures unchanged { OnErr result (self.new ≡ self.old) }
    {
        let copy = layout.copy()?;
        let start = place_code(&mut self.space, &layout)?;
        let object = CodeObject {
            start,
            layout,
            places,
        };
        put_object(&mut self.codes, name, Some(object));
        Ok(CodeEvent::Create {
            start,
            layout: copy,
        })
    }

    /// Makes sure that a function has plain code. Where it has none, that is created, which is the
    /// event. When out of memory, it leaves all unchanged.
    pub fn ensure_plain(&mut self, func: FuncId) -> Result<Option<CodeEvent>, Memory>
        requires func { func.0 < length self.old.funcs }
        ensures event { IfOk result (λ event. MakesSure self.old self.new (plain_name func) event) }
        ensures there { OnOk result (HasCode self.new (plain_name func)) }
        ensures others { OthersStay self.old self.new (plain_name func) }
        ensures funcs { self.new.funcs ≡ self.old.funcs }
        ensures ranges { IfOk result (λ event. RangesFollow self.old self.new (option_to_list event)) }
        ensures unchanged { OnErr result (self.new ≡ self.old) }
    {
        let name = CodeName {
            func,
            kind: CodeKind::Plain,
        };
        if self.start_of(name).is_some() {
            return Ok(None);
        }
        let layout = plain(self.alloc, &self.program, func)?;
        let event = self.create(name, layout, Places::Indices)?;
        Ok(Some(event))
    }

    /// Creates the optimised code of a function, which has none. A refusal leaves all unchanged.
    pub fn create_optimised(&mut self, func: FuncId) -> Result<CodeEvent, LayoutRefused>
        requires func { func.0 < length self.old.funcs }
        requires none { start_at self.old.starts (optimised_name func) ≡ None }
        ensures event { IfOk result (λ event. IsCreation self.old self.new (optimised_name func) event) }
        ensures others { OthersStay self.old self.new (optimised_name func) }
        ensures funcs { self.new.funcs ≡ self.old.funcs }
        ensures ranges { IfOk result (λ event. RangesFollow self.old self.new (event ∷ [])) }
        ensures small { OnOk result (inlined_size self.old.funcs Layout.MAX_ABOVE func.0 ≤ Layout.MAX_SLOTS) }
        ensures refused { IfErr result (λ refusal. IsRefusedAs (inlined_size self.old.funcs Layout.MAX_ABOVE func.0) refusal) }
        ensures unchanged { OnErr result (self.new ≡ self.old) }
    {
        let name = CodeName {
            func,
            kind: CodeKind::Optimised,
        };
        let layout = inlined(self.alloc, &self.program, func)?;
        let places = SlotTable::new(self.alloc, &layout)?;
        let event = self.create(name, layout, Places::Table(places))?;
        Ok(event)
    }

    /// Frees the code with this name, and returns its deletion. It takes no memory.
    pub fn free(&mut self, name: CodeName) -> CodeEvent
        requires there { HasCode self.old name }
        ensures event { IsDeletion self.old self.new name result }
        ensures others { OthersStay self.old self.new name }
        ensures funcs { self.new.funcs ≡ self.old.funcs }
        ensures ranges { RangesFollow self.old self.new (result ∷ []) }
    {
        let start = self.start_of(name).unwrap();
        put_object(&mut self.codes, name, None);
        self.space.free(start);
        CodeEvent::Delete { start }
    }

    /// Slides all code down, so that it lies without holes from the first address on, in the order
    /// that it had. Returns the moves of the code that did not lie there already, in rising order.
    /// When out of memory, it leaves all unchanged.
    pub fn compact(&mut self) -> Result<Sequence<CodeEvent>, Memory>
        ensures events { IfOk result (λ events. events ≡ map move_event (moves_between self.old.space (compacted FIRST_ADDRESS self.old.space))) }
        ensures space { OnOk result (self.new.space ≡ compacted FIRST_ADDRESS self.old.space) }
        ensures starts { OnOk result ((name : CodeName) → start_at self.new.starts name
            ≡ with_moves (start_at self.old.starts) (moves_between self.old.space (compacted FIRST_ADDRESS self.old.space)) name) }
        ensures there { (name : CodeName) → is_some (start_at self.new.starts name) ≡ is_some (start_at self.old.starts name) }
        ensures funcs { self.new.funcs ≡ self.old.funcs }
        ensures ranges { IfOk result (λ events. RangesFollow self.old self.new events) }
        ensures unchanged { OnErr result (self.new ≡ self.old) }
    {
        let mut events = Vec::with_capacity(self.alloc, self.space.as_slice().len())?;
        let moves = self.space.compact()?;
        slide_objects(&mut self.codes, moves.as_slice());
        move_events(&mut events, moves.as_slice());
        Ok(Sequence::from_vec(events))
    }
}
