//! What a frame in inlined code stands for, computed on a small program. The function does nothing: its
//! contract is the example.
ghost use Rattle.std.specs.Prelude.{◌≡◌, [], ◌∷◌};
ghost use Rattle.code_layout.specs.Examples.{chained};
ghost use Rattle.guest_stack.specs.Examples.{main_at_call, three_inlined, starts_by_kind};
ghost use Rattle.guest_stack.specs.Stack.{stack_positions, addresses, plain_code_frame, all_given_up};

/// A frame in the optimised code of `a`, at the first slot of `c`, stands for `c`, `b` and `a`. Its
/// address is that of its slot; that of `main`, its caller, follows the slot of the call. Where that
/// code is given up, the frame becomes three.
#[tactic(auto, unfolding(code_objects::specs::CodeObjects::layout_of))]
pub fn one_frame_can_stand_for_three_functions()
    ensures positions { stack_positions chained (three_inlined ∷ main_at_call ∷ []) ≡ (3, 0) ∷ (2, 0) ∷ (1, 0) ∷ (0, 1) ∷ [] }
    ensures addresses { addresses starts_by_kind (three_inlined ∷ main_at_call ∷ []) ≡ 4104 ∷ 8200 ∷ [] }
    ensures given_up { all_given_up chained 1 (three_inlined ∷ main_at_call ∷ []) ≡ plain_code_frame (3, 0) ∷ plain_code_frame (2, 0) ∷ plain_code_frame (1, 0) ∷ main_at_call ∷ [] }
{}
