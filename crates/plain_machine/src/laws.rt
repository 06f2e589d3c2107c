//! Laws of the plain machine. Each function does nothing: its contract is the law.
ghost use Rattle.plain_machine.specs.Laws.{CodeIsOfFunctions, DeoptsTakeCodeAway, EndsAreFinal, FramesAreInBodies, FramesHaveInstructions, FramesHaveRegisters, NoneIsGivenUpAtTheEnd, ReasonsFollow, StacksAreNotEmpty, StacksAreSmall};

/// Once the machine has ended, no step changes it, and none makes a deoptimisation.
pub fn nothing_follows_the_end()
    ensures stays { EndsAreFinal }
    ensures none_given_up { NoneIsGivenUpAtTheEnd }
{}

/// For every program, and also after its end, there is a frame, and there are never more than 255.
pub fn the_stack_has_1_to_255_frames()
    ensures some { StacksAreNotEmpty }
    ensures room { StacksAreSmall }
{}

/// The machine always has the code of each function of the program, and of nothing else.
pub fn code_is_said_of_each_function()
    ensures { CodeIsOfFunctions }
{}

/// In a program that keeps the rules, each frame is always in a function that exists, at one of its
/// instructions. So the machine always has an operation to do.
pub fn each_frame_is_in_its_body()
    ensures in_body { FramesAreInBodies }
    ensures instruction { FramesHaveInstructions }
{}

/// In every program each frame always has eight registers, and each register is less than 2^64.
pub fn registers_are_below_two_to_the_64()
    ensures { FramesHaveRegisters }
{}

/// A step is a deoptimisation exactly where some function is optimised before it and not optimised
/// after it.
pub fn deoptimisations_take_code_away()
    ensures { DeoptsTakeCodeAway }
{}

/// A function that gets a deopt reason changes the reason of its own entry alone, since no two
/// functions of a program have the same entry.
pub fn each_reason_is_of_one_function()
    ensures { ReasonsFollow }
{}
