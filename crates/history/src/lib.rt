//! A list that only proofs read. A struct that has to state what it was passed over time has a history
//! as a field, and replaces it by a longer one each time. A history has no bytes.
#![tactic(auto)]

ghost use Rattle.std.specs.Prelude.{◌≡◌, List, [], ◌∷◌, ◌++◌};
ghost use Rattle.std.specs.Borrow.{ftrue};

use std::marker::{Model, PhantomData};

/// A list of values that exists in proofs alone. A clause reads it as `items`, the first value first.
#[derive(Drop)]
pub struct History<T> {
    of: PhantomData<T>,
    pub ghost items: { List T },
}

impl<T> Model for History<T> {
    ghost also_owns = { λ _. ftrue };
}

impl<T> History<T> {
    /// Makes an empty history.
    pub fn new() -> History<T>
        ensures empty { result.items ≡ [] }
    {
        History { of: PhantomData }
    }

    /// Returns the history with this value at its end. It does nothing when it runs.
    pub fn with(&self, value: &T) -> History<T>
        ensures more { result.items ≡ self.now.items ++ value.now ∷ [] }
    {
        Self { of: PhantomData }
    }
}
