// Changes of the code, with the events that they add to those raised so far.
ghost use Rattle.std.specs.Prelude.{◌≡◌, ◌<◌, ◌≤◌, map, length, None, IfOk, OnOk, IsTrue, IsFalse};
ghost use Rattle.std.specs.List.{AllByRecursion};
ghost use Rattle.guest_program.specs.InlinedSize.{inlined_size};
ghost use Rattle.code_objects.specs.Changes.{HasCode, OthersStay};
ghost use Rattle.code_objects.specs.CodeObjects.{optimised_name, plain_name, start_at};
ghost use Rattle.guest_machine.specs.Raises.{CanBeSure, NoneGoes, OptimisedStays, Raises, no_reason, reason_of};
ghost use Rattle.guest_machine.specs.Rules.{AreSure, IsCreated, IsFreed, IsGivenUp, IsNotOptimised, IsSure};

use code_event::{CodeEvent, Layout};
use code_layout::LayoutRefused;
use code_objects::{CodeKind, CodeName, CodeObjects};
use guest_stack::CodeFrame;
use prof_base::{FuncId, Memory, Sequence, Text};

/// Returns the name of a function's plain code.
pub(crate) fn plain_name(func: FuncId) -> CodeName
    ensures { result ≡ plain_name func }
{
    CodeName {
        func,
        kind: CodeKind::Plain,
    }
}

/// Returns the name of a function's optimised code.
pub(crate) fn optimised_name(func: FuncId) -> CodeName
    ensures { result ≡ optimised_name func }
{
    CodeName {
        func,
        kind: CodeKind::Optimised,
    }
}

/// Makes sure that a function has plain code.
pub(crate) fn ensure_plain(
    code: &mut CodeObjects,
    func: FuncId,
    events: &mut Sequence<CodeEvent>,
) -> Result<(), Memory>
    requires func { func.0 < length code.old.funcs }
    ensures raises { OnOk result (Raises (IsSure (plain_name func)) no_reason code.old code.new events.old events.new) }
    ensures there { OnOk result (HasCode code.new (plain_name func)) }
    ensures stays { OnOk result (NoneGoes code.old code.new) }
    ensures optimised { OptimisedStays code.old code.new }
    ensures funcs { code.new.funcs ≡ code.old.funcs }
{
    if let Some(event) = code.ensure_plain(func)? {
        events.push(event)?;
    }
    Ok(())
}

/// Makes sure of the code that a frame is in.
pub(crate) fn ensure_frame(
    code: &mut CodeObjects,
    frame: CodeFrame,
    events: &mut Sequence<CodeEvent>,
) -> Result<(), Memory>
    requires sure { CanBeSure code.old frame.code }
    ensures raises { OnOk result (Raises (IsSure frame.code) no_reason code.old code.new events.old events.new) }
    ensures there { OnOk result (HasCode code.new frame.code) }
    ensures stays { OnOk result (NoneGoes code.old code.new) }
    ensures optimised { OptimisedStays code.old code.new }
    ensures funcs { code.new.funcs ≡ code.old.funcs }
{
    match frame.code.kind {
        CodeKind::Plain => ensure_plain(code, frame.code.func, events),
        CodeKind::Optimised => Ok(()),
    }
}

/// Makes sure of the code that each of these frames is in, one after the other.
pub(crate) fn ensure_frames(
    code: &mut CodeObjects,
    frames: &[CodeFrame],
    events: &mut Sequence<CodeEvent>,
) -> Result<(), Memory>
    requires sure { AllByRecursion (λ frame. CanBeSure code.old frame.code) frames.now }
    ensures raises { OnOk result (Raises (AreSure (map (λ frame. frame.code) frames.now)) no_reason code.old code.new events.old events.new) }
    ensures there { OnOk result (AllByRecursion (λ frame. HasCode code.new frame.code) frames.now) }
    ensures stays { OnOk result (NoneGoes code.old code.new) }
    ensures optimised { OnOk result (OptimisedStays code.old code.new) }
    ensures funcs { OnOk result (code.new.funcs ≡ code.old.funcs) }
{
    for frame in frames {
        ensure_frame(code, *frame, events)?;
    }
    Ok(())
}

/// Creates the optimised code of a function that has none, and returns true. Where it would be too
/// large, nothing changes, and it returns false.
pub(crate) fn create_optimised(
    code: &mut CodeObjects,
    func: FuncId,
    events: &mut Sequence<CodeEvent>,
) -> Result<bool, Memory>
    requires func { func.0 < length code.old.funcs }
    requires none { start_at code.old.starts (optimised_name func) ≡ None }
    ensures created { IfOk result (λ created. IsTrue created → Raises (IsCreated (optimised_name func)) no_reason code.old code.new events.old events.new) }
    ensures small { IfOk result (λ created. IsTrue created → inlined_size code.old.funcs Layout.MAX_ABOVE func.0 ≤ Layout.MAX_SLOTS) }
    ensures same { IfOk result (λ created. IsFalse created → code.new ≡ code.old) }
    ensures unraised { IfOk result (λ created. IsFalse created → events.new ≡ events.old) }
    ensures large { IfOk result (λ created. IsFalse created → Layout.MAX_SLOTS < inlined_size code.old.funcs Layout.MAX_ABOVE func.0) }
{
    match code.create_optimised(func) {
        Ok(event) => {
            events.push(event)?;
            Ok(true)
        }
        Err(LayoutRefused::TooLarge { .. }) => Ok(false),
        Err(LayoutRefused::Memory) => Err(Memory),
    }
}

/// Says that the plain code of a function is not to be optimised.
pub(crate) fn say_not_optimised(
    code: &CodeObjects,
    func: FuncId,
    reason: Text,
    events: &mut Sequence<CodeEvent>,
) -> Result<(), Memory>
    requires there { HasCode code.now (plain_name func) }
    ensures raises { OnOk result (Raises (IsNotOptimised func reason) (reason_of code.now.funcs func reason) code.now code.now events.old events.new) }
{
    match code.start_of(plain_name(func)) {
        Some(start) => events.push(CodeEvent::NoOpt { start, reason }),
        None => unreachable!(),
    }
}

/// Says that the optimised code of a function is given up.
pub(crate) fn say_given_up(
    code: &CodeObjects,
    func: FuncId,
    reason: Text,
    events: &mut Sequence<CodeEvent>,
) -> Result<(), Memory>
    requires there { HasCode code.now (optimised_name func) }
    ensures raises { OnOk result (Raises (IsGivenUp func reason) (reason_of code.now.funcs func reason) code.now code.now events.old events.new) }
{
    match code.start_of(optimised_name(func)) {
        Some(start) => events.push(CodeEvent::Deopt { start, reason }),
        None => unreachable!(),
    }
}

/// Frees the code with this name.
pub(crate) fn free_code(
    code: &mut CodeObjects,
    name: CodeName,
    events: &mut Sequence<CodeEvent>,
) -> Result<(), Memory>
    requires there { HasCode code.old name }
    ensures raises { OnOk result (Raises (IsFreed name) no_reason code.old code.new events.old events.new) }
    ensures none { start_at code.new.starts name ≡ None }
    ensures others { OthersStay code.old code.new name }
    ensures funcs { code.new.funcs ≡ code.old.funcs }
{
    events.push(code.free(name))
}
