//! Layouts of small programs, worked out by hand. Each function does nothing: its contract is the
//! example.
ghost use Rattle.std.specs.Prelude.{◌≡◌, ℕ, ◌+◌, [], ◌∷◌, Some, None};
ghost use Rattle.guest_program.specs.InlinedSize.{inlined_size};
ghost use Rattle.code_layout.specs.Layouts.{plain_layout, inlined_layout};
ghost use Rattle.code_layout.specs.Laws.{slot_of};
ghost use Rattle.code_layout.specs.Examples.{chained, circling, calling, slots_of, funcs_of, sites_of};

/// A call that is inlined is followed at once by the callee's code, also within an inlined callee.
pub fn inlined_code_follows_its_call()
    ensures plain { slots_of (plain_layout chained 1) ≡ (0, 0) ∷ (0, 1) ∷ [] }
    ensures units { funcs_of (inlined_layout chained 1) ≡ 1 ∷ 2 ∷ 3 ∷ [] }
    ensures sites { sites_of (inlined_layout chained 1) ≡ None ∷ Some (0, 0) ∷ Some (1, 0) ∷ [] }
    ensures slots { slots_of (inlined_layout chained 1) ≡ (0, 0) ∷ (1, 0) ∷ (2, 0) ∷ (2, 1) ∷ (1, 1) ∷ (0, 1) ∷ [] }
    ensures found { slot_of (inlined_layout chained 1) 0 1 ≡ Some 5 }
    ensures main { slots_of (inlined_layout chained 0) ≡ (0, 0) ∷ (0, 1) ∷ (0, 2) ∷ [] }
{}

/// A function that calls itself is inlined four deep.
pub fn at_most_four_units_are_above()
    ensures sites { sites_of (inlined_layout circling 0) ≡ None ∷ Some (0, 0) ∷ Some (1, 0) ∷ Some (2, 0) ∷ Some (3, 0) ∷ [] }
    ensures slots { slots_of (inlined_layout circling 0) ≡ (0, 0) ∷ (1, 0) ∷ (2, 0) ∷ (3, 0) ∷ (4, 0) ∷ (4, 1) ∷ (3, 1) ∷ (2, 1) ∷ (1, 1) ∷ (0, 1) ∷ [] }
    ensures size { inlined_size circling 4 0 ≡ 10 }
{}

/// A call and a return of a function whose callee is inlined add two slots to the callee's. So 4,094
/// instructions are the most that fit.
pub fn a_callee_adds_its_instructions()
    ensures { (size : ℕ) → inlined_size (calling size) 4 0 ≡ size + 2 }
{}
