//! Laws of the physical stack. Each function does nothing: its contract is the law.
ghost use Rattle.guest_stack.specs.Laws.{Begins, CallersAreCounted, CallingCodeKeepsRegisters, CallingWithinKeepsRegisters, CallsCode, CallsWithin, FirstUnitsStandAlone, FoundSlotsStand, FramesAreFew, GivenUpAreInCode, GivenUpStand, GoesOn, GoingOnKeepsRegisters, InlinedUnitsAreCalled, LastReturns, NoneIsInGivenUpCode, PlainCodeFramesStand, ReturningToFrameKeepsRegisters, ReturningWithinKeepsRegisters, ReturnsToFrame, ReturnsWithin, SlotsEndWithBodies, SlotsStand, StackIsPlain, StacksAreRead, UnitsStandBelowCalls, YoungestIsAtSlot};

/// What a slot of code stands for. The slot of a unit and an index stands for the unit's function at
/// that index; above an inlined unit is its call, and above another nothing. That call is an
/// instruction that calls the unit's function.
pub fn slots_stand_for_functions()
    ensures slots { SlotsStand }
    ensures found { FoundSlotsStand }
    ensures inlined { UnitsStandBelowCalls }
    ensures first { FirstUnitsStandAlone }
    ensures called { InlinedUnitsAreCalled }
{}

/// A unit has no slot for an index exactly where the index is past the end of its function's body.
pub fn slots_end_with_bodies()
    ensures { SlotsEndWithBodies }
{}

/// The addresses of a stack, read through the ranges of the code, name the functions and lines that
/// the stack stands for.
pub fn stacks_are_read_through_ranges()
    ensures { StacksAreRead }
{}

/// What the machine does to its frames is what the plain machine does to its own: it begins, goes on
/// at another instruction, calls a function, inlined or in a frame of its own, and returns.
pub fn frames_move_as_those_of_the_plain_machine()
    ensures begins { Begins }
    ensures youngest { YoungestIsAtSlot }
    ensures goes_on { GoesOn }
    ensures calls_within { CallsWithin }
    ensures calls_code { CallsCode }
    ensures returns_within { ReturnsWithin }
    ensures returns_to_frame { ReturnsToFrame }
    ensures last { LastReturns }
{}

/// Whatever the machine does to its frames, each function on the stack keeps its registers.
pub fn each_function_keeps_its_registers()
    ensures going_on { GoingOnKeepsRegisters }
    ensures calling_within { CallingWithinKeepsRegisters }
    ensures calling_code { CallingCodeKeepsRegisters }
    ensures returning_within { ReturningWithinKeepsRegisters }
    ensures returning_to_frame { ReturningToFrameKeepsRegisters }
{}

/// The stack of the plain machine is as deep as the lists of registers say, and there are at most as
/// many frames as functions on the stack.
pub fn stacks_are_as_deep_as_their_registers()
    ensures callers { CallersAreCounted }
    ensures frames { FramesAreFew }
{}

/// Where the optimised code of a function is given up, each frame in it becomes one frame of plain
/// code for each function that it stands for. The stack stands for the same as before, each frame is
/// in code, and none is in the code that was given up.
pub fn giving_up_code_leaves_the_stack()
    ensures plain { PlainCodeFramesStand }
    ensures same { GivenUpStand }
    ensures in_code { GivenUpAreInCode }
    ensures none_left { NoneIsInGivenUpCode }
{}

/// Where the physical stack stands for that of the plain machine, a profile shows the functions and
/// lines of the plain machine: those on its stack while it runs guest code, and what its engine does
/// otherwise.
pub fn the_stack_is_that_of_the_plain_machine()
    ensures { StackIsPlain }
{}
