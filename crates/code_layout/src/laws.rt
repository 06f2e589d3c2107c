//! Laws of layouts. Each function does nothing: its contract is the law.
ghost use Rattle.code_layout.specs.Laws.{FoundSlotsAreRight, LayoutsAreCode, PlainInlinesNothing, PlainSlotsAreInstructions, SlotsAreCounted, SmallIsLayout};

/// What holds of the layout of a function, where calls are inlined to any depth. Unit 0 is the
/// function, and the first slot is its first instruction. Each unit has a slot for each of its
/// instructions; all but the first were inlined at a call of a unit with a smaller number, which
/// calls a function that is marked `inline` and has fewer units above it than the depth. Where a
/// slot is such a call, the first slot of its unit follows at once. No unit has more above it than
/// the depth. Each slot and each site has the line of its instruction. The slot that is found for a
/// unit and an index is the right one.
pub fn layouts_are_code()
    ensures code { LayoutsAreCode }
    ensures found { FoundSlotsAreRight }
{}

/// The plain layout is that in which no call is inlined, so the other laws hold of it too. The slot
/// of each instruction stands at its index.
pub fn plain_layouts_are_bodies()
    ensures nothing_inlined { PlainInlinesNothing }
    ensures slots { PlainSlotsAreInstructions }
{}

/// A layout has as many slots as the inlined size says. It keeps the rules of a layout where these
/// are few enough.
pub fn slots_are_counted()
    ensures counted { SlotsAreCounted }
    ensures rules { SmallIsLayout }
{}
