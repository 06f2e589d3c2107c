//! Laws of calls that are answered by a state. The function does nothing: its contract is the laws.
ghost use Rattle.port_calls.specs.AnswerLaws.{CallsJoin, CallsSplit};

/// Calls that are answered from a state, and calls that are answered from the state after them, are
/// together answered from the first state; and all calls that are answered fall into such two parts
/// wherever they are cut.
pub fn answered_calls_are_joined<S>()
    ensures join { CallsJoin S }
    ensures split { CallsSplit S }
{}
