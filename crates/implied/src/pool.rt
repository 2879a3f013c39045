ghost use Rattle.std.specs.Prelude.{◌≡◌, ℕ, ◌^◌, ◌<◌, ◌≤◌, List, [], ◌∷◌, ◌++◌, length, map, slice_index_or, IfOk, IfSome, MatchOption};
ghost use Rattle.implied.specs.Lying.{clause_at, Lying};

use rows::push_clause;
use std::alloc::{AllocError, Global};
use std::marker::Model;

// Room for clauses: for how many, and for their numbers.
#[derive(Clone, Copy)]
pub struct Room {
    pub numbers: usize,
    pub clauses: usize,
}

impl Room {
    pub const NONE: Room = Room {
        numbers: 0,
        clauses: 0,
    };
}

// A list of clauses in room that is reserved once: they lie one after another in a run of numbers, each as its length and then
// its literals, and `starts` has where each of them starts.
// Kept as it is: a `Vec` for each clause would allocate, and nothing is allocated after a chooser is made.
#[derive(Drop)]
pub struct Pool {
    numbers: Vec<u16>,
    starts: Vec<u32>,
}

impl Model for Pool {
    ghost Value = { List (List ℕ) };

    ghost view = { λ p. map (clause_at p.numbers.items) p.starts.items };

    ghost invariant = { λ p. Lying p.numbers.items p.starts.items };
}

impl Pool {
    // Makes an empty pool with this room.
    pub fn new(heap: Global, room: Room) -> Result<Pool, AllocError>
        ensures { IfOk result (λ p. p ≡ []) }
    {
        Ok(Pool {
            numbers: Vec::with_capacity(heap, room.numbers)?,
            starts: Vec::with_capacity(heap, room.clauses)?,
        })
    }

    pub fn len(&self) -> usize
        ensures { result ≡ length self.now }
    {
        self.starts.len()
    }

    // Returns the literals of the clause `c`.
    pub fn clause(&self, c: u32) -> Option<&[u16]>
        ensures clause { MatchOption result (length self.now ≤ c) (λ ls. (c < length self.now) × (ls.now ≡ slice_index_or self.now c [])) }
        ensures short { IfSome result (λ ls. length ls.now < 2 ^ 16) }
    {
        let first = *self.starts.get(c as usize)? as usize + 1;
        let len = self.numbers[first - 1] as usize;
        Some(&self.numbers[first..first + len])
    }

    // Puts a clause behind the others, and returns its number. Without room for it, the pool stays as it is; nor is there room
    // where less than `left` would be left for other clauses.
    pub fn push(&mut self, clause: &[u16], left: Room) -> Option<u32>
        ensures { MatchOption result (self.new ≡ self.old) (λ c. (c ≡ length self.old) × (self.new ≡ self.old ++ clause.now ∷ [])) }
    {
        if self.starts.capacity() - self.starts.len() <= left.clauses
            || self.numbers.capacity() - self.numbers.len()
                <= clause.len().saturating_add(left.numbers)
            || clause.len() > u16::MAX as usize
        {
            return None;
        }
        let Ok(c) = u32::try_from(self.starts.len()) else {
            return None;
        };
        let Ok(start) = u32::try_from(self.numbers.len()) else {
            return None;
        };
        self.starts.push_reserved(start);
        push_clause(&mut self.numbers, clause);
        Some(c)
    }

    // Takes all clauses out.
    pub fn clear(&mut self)
        ensures { self.new ≡ [] }
    {
        self.numbers.clear();
        self.starts.clear();
    }
}
