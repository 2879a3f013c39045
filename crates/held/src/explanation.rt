// Explanations: sets of unknowns with numbers below 512.
ghost use Rattle.std.specs.Prelude.{◌≡◌, ℕ, ◌<◌, false, ◌||◌, [], ◌∷◌, length};
ghost use Rattle.held.specs.Explanations.{contains, Adds};

use std::array;

// An unknown is in the set if the bit of its number is 1.
#[derive(Clone, Copy)]
pub struct Explanation {
    words: [u64; 8],
    ghost long: { length words ≡ 8 },
}

impl Explanation {
    // The empty set.
    pub fn nothing() -> Explanation
        ensures { (u : ℕ) → contains result.words u ≡ false }
    {
        Explanation { words: [0; 8] }
    }

    // Whether the unknown is in the set.
    pub fn has(&self, unknown: u16) -> bool
        ensures { result ≡ contains self.now.words unknown }
    {
        let word = (unknown / 64) as usize;
        self.words
            .get(word)
            .is_some_and(|bits| (*bits >> (unknown % 64)) % 2 == 1)
    }

    // Puts the unknown into the set, which has no room for numbers from 512 on: those change nothing.
    pub fn add(&mut self, unknown: u16)
        ensures { Adds self.old.words self.new.words (unknown ∷ []) }
    {
        let word = (unknown / 64) as usize;
        // Kept as it is: tested and then indexed, since the check knows nothing of an array's elements after `get_mut`.
        if word < self.words.len() {
            self.words[word] |= 1 << (unknown % 64);
        }
    }

    // Puts all unknowns of the other set into this one: it then has exactly the unknowns of both.
    pub fn join(&mut self, other: &Explanation)
        ensures { (u : ℕ) → contains self.new.words u ≡ (contains self.old.words u || contains other.now.words u) }
    {
        let mine = self.words;
        self.words = array::from_fn(|word| mine[word] | other.words[word]);
    }
}
