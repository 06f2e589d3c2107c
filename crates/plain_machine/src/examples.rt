//! The definition of the plain machine, computed on small programs. Each function does nothing: its
//! contract is the example.
ghost use Rattle.std.specs.Prelude.{◌≡◌, [], ◌∷◌, Some, None, true, false, codes, length};
ghost use Rattle.plain_machine.specs.PlainMachine.{plain, deopts, code_at};
ghost use Rattle.guest_program.specs.InlinedSize.{inlined_size};
ghost use Rattle.plain_machine.specs.Examples.{places, waiting, calling, deep, running_off, growing, deoptimising, deoptimising_last, disabling, registers_of};
ghost use Rattle.plain_machine.specs.declared.ended.Ended.TheVariants as end;
ghost use Rattle.code_event.specs.declared.tick.VmState.TheVariants as state;

/// `native 2` takes one step and then two in state Native; `idle 1` takes one step and then one in
/// state Idle.
pub fn waiting_takes_its_steps()
    ensures native { (plain waiting 1).state ≡ state.Native }
    ensures still_native { (plain waiting 2).state ≡ state.Native }
    ensures js { (plain waiting 3).state ≡ state.Js }
    ensures idle { (plain waiting 4).state ≡ state.Idle }
    ensures not_ended { (plain waiting 5).ended ≡ None }
    ensures ended { (plain waiting 6).ended ≡ Some end.Halt }
    ensures stays { plain waiting 7 ≡ plain waiting 6 }
{}

/// A call leaves the caller at its index and copies its registers; a return gives back only r0.
pub fn a_call_returns_its_first_register()
    ensures called { places (plain calling 2) ≡ (0, 1) ∷ (1, 0) ∷ [] }
    ensures returned { places (plain calling 5) ≡ (0, 2) ∷ [] }
    ensures registers { registers_of (plain calling 5) ≡ 5 ∷ 7 ∷ 0 ∷ 0 ∷ 0 ∷ 0 ∷ 0 ∷ 0 ∷ [] }
    ensures printed { (plain calling 6).printed ≡ codes "5\n" }
    ensures ended { (plain calling 7).ended ≡ Some end.Halt }
{}

/// A stack has room for 255 frames. The step that finds it full ends the machine, and changes
/// nothing else.
pub fn the_256th_frame_is_a_trap()
    ensures full { length (plain deep 254).stack ≡ 255 }
    ensures not_ended { (plain deep 254).ended ≡ None }
    ensures ended { (plain deep 255).ended ≡ Some end.Overflow }
    ensures stays { (plain deep 255).stack ≡ (plain deep 254).stack }
{}

/// An index that would leave the body ends the machine, and the step changes nothing else.
pub fn running_off_the_end_is_a_trap()
    ensures ended { (plain running_off 1).ended ≡ Some end.OffEnd }
    ensures stays { (plain running_off 1).stack ≡ (plain running_off 0).stack }
{}

/// A function whose inlined code would be too large is not optimised, and its reason says so.
pub fn what_is_too_large_is_disabled()
    ensures size { inlined_size growing 4 1 ≡ 37448 }
    ensures code { code_at (plain growing 1) 1 ≡ record { optimised = false; disabled = true; reason = Some (codes "too large") } }
{}

/// A deoptimisation happens where there is optimised code to give up, and only there.
pub fn only_optimised_code_is_given_up()
    ensures optimised { (code_at (plain deoptimising 1) 1).optimised ≡ true }
    ensures given_up { deopts deoptimising 1 ≡ true }
    ensures reason { (code_at (plain deoptimising 2) 1).reason ≡ Some (codes "x") }
    ensures once { deopts deoptimising 2 ≡ false }
    ensures stays { (code_at (plain deoptimising 3) 1).reason ≡ Some (codes "x") }
{}

/// A deoptimisation that would leave the body ends the machine instead, and takes no code away.
pub fn a_deoptimisation_that_leaves_the_body_is_none()
    ensures optimised { (code_at (plain deoptimising_last 1) 1).optimised ≡ true }
    ensures none { deopts deoptimising_last 1 ≡ false }
    ensures ended { (plain deoptimising_last 2).ended ≡ Some end.OffEnd }
    ensures stays { (code_at (plain deoptimising_last 2) 1).optimised ≡ true }
{}

/// A function that is disabled keeps the optimised code that it has.
pub fn what_is_disabled_keeps_its_code()
    ensures optimised { (code_at (plain disabling 1) 1).optimised ≡ true }
    ensures none { deopts disabling 1 ≡ false }
    ensures code { code_at (plain disabling 2) 1 ≡ record { optimised = true; disabled = true; reason = Some (codes "x") } }
{}
