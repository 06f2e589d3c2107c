// A set of words.
ghost use Rattle.std.specs.Prelude.{◌≡◌, ◌||◌, ℕ, List, [], bytes_eq, IfOk};
ghost use Rattle.guest_text.specs.Draft.{is_among};

use prof_base::Memory;
use std::alloc::Global;
use std::collections::BTreeSet;
use std::marker::Model;

/// Words, seen as the list of them in the order of their bytes.
#[derive(Drop)]
pub(crate) struct WordSet {
    words: BTreeSet<Vec<u8>>,
}

impl Model for WordSet {
    ghost use Rattle.std.specs.Prelude.{ℕ, List, map};

    ghost Value = { List (List ℕ) };

    ghost view = { λ s. map (λ word. word.items) s.words.keys };
}

impl WordSet {
    pub(crate) fn new(alloc: Global) -> WordSet
        ensures { result ≡ [] }
    {
        WordSet {
            words: BTreeSet::new(alloc),
        }
    }

    pub(crate) fn contains(&self, word: &[u8]) -> bool
        ensures { result ≡ is_among self.now word.now }
    {
        self.words.contains(word)
    }

    /// The words with one more.
    pub(crate) fn with(self, word: Vec<u8>) -> Result<WordSet, Memory>
        ensures { IfOk result (λ words. (q : List ℕ) → is_among words q ≡ (bytes_eq word.items q || is_among self q)) }
    {
        let WordSet { words } = self;
        let mut words = words;
        words.insert(word)?;
        Ok(WordSet { words })
    }
}
