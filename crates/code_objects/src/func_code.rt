// The code objects of functions.
ghost use Rattle.std.specs.Prelude.{◌≡◌, ◌<◌, length, map, replicate, IfOk};
ghost use Rattle.std.specs.List.Sorted.{IsNonDecreasingBy};
ghost use Rattle.std.specs.Option.{option_copied};
ghost use Rattle.code_objects.specs.Objects.{object_in, object_at, no_code, code_with, code_moved, with_object};

use crate::name::{CodeKind, CodeName};
use crate::object::CodeObject;
use code_space::CodeMove;
use prof_base::Memory;
use std::alloc::Global;

/// The code objects of a function, at most one of each kind.
#[derive(Drop)]
pub(crate) struct FuncCode {
    plain: Option<CodeObject>,
    optimised: Option<CodeObject>,
}

impl FuncCode {
    // Returns the code object of this kind, if there is one.
    fn object(&self, kind: CodeKind) -> Option<&CodeObject>
        ensures { option_copied result ≡ object_in kind self.now }
    {
        match kind {
            CodeKind::Plain => self.plain.as_ref(),
            CodeKind::Optimised => self.optimised.as_ref(),
        }
    }

    // Sets the code object of this kind, or takes it away.
    fn put(&mut self, kind: CodeKind, object: Option<CodeObject>)
        ensures { self.new ≡ code_with kind object self.old }
    {
        match kind {
            CodeKind::Plain => self.plain = object,
            CodeKind::Optimised => self.optimised = object,
        }
    }

    // Sets where the code objects start after these moves.
    fn slide(&mut self, moves: &[CodeMove])
        requires rising { IsNonDecreasingBy (λ move. move.from) moves.now }
        ensures { self.new ≡ code_moved moves.now self.old }
    {
        if let Some(object) = &mut self.plain {
            object.slide(moves);
        }
        if let Some(object) = &mut self.optimised {
            object.slide(moves);
        }
    }
}

/// Makes the list of this number of functions without code.
pub(crate) fn no_codes(alloc: Global, count: usize) -> Result<Vec<FuncCode>, Memory>
    ensures { IfOk result (λ codes. codes.items ≡ replicate count no_code) }
{
    let mut codes = Vec::with_capacity(alloc, count)?;
    for _index in 0..count {
        codes.push(FuncCode {
            plain: None,
            optimised: None,
        })?;
    }
    Ok(codes)
}

/// Returns the code object with this name, if there is one.
pub(crate) fn object_at(codes: &[FuncCode], name: CodeName) -> Option<&CodeObject>
    ensures { option_copied result ≡ object_at codes.now name }
{
    match codes.get(usize::from(name.func.0)) {
        Some(code) => code.object(name.kind),
        None => None,
    }
}

/// Sets the code object with this name, or takes it away.
pub(crate) fn put_object(codes: &mut [FuncCode], name: CodeName, object: Option<CodeObject>)
    requires func { name.func.0 < length codes.old }
    ensures { codes.new ≡ with_object codes.old name object }
{
    codes[usize::from(name.func.0)].put(name.kind, object);
}

/// Sets where all code objects start after these moves.
pub(crate) fn slide_objects(codes: &mut [FuncCode], moves: &[CodeMove])
    requires rising { IsNonDecreasingBy (λ move. move.from) moves.now }
    ensures { codes.new ≡ map (code_moved moves.now) codes.old }
{
    for code in codes.iter_mut() {
        code.slide(moves);
    }
}
