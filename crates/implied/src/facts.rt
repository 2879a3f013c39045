ghost use Rattle.std.specs.Prelude.{◌≡◌, ℕ, Bool, true, false, [], ◌∷◌, ◌++◌, length, IfOk, MatchOption, slice_index_or, is_ok, if◌then◌else◌, ◌⊎◌};
ghost use Rattle.chooser.specs.Ways.{lit};
ghost use Rattle.implied.specs.Implied.{allowed, Implied, Met, Off};

use crate::pool::{Pool, Room};
use chooser::Fault;
use rows::{ClauseStore, MOST_LITERALS, turned};
use std::alloc::{AllocError, Global};
use std::mem::swap;

// What is known of the allowed ways.
#[derive(Drop)]
pub struct Facts {
    // The clauses that were added.
    pub store: ClauseStore,
    // Clauses that every allowed way meets, added and learned ones.
    pub pool: Pool,
    // Of each literal, whether every allowed way makes it false, as far as is known.
    off: Vec<bool>,
    ghost met: { Met (allowed store.row.items) pool },
    ghost offs: { Off (allowed store.row.items) off.items },
}

impl Facts {
    ghost use Rattle.chooser.specs.Steps.{NewVariable, Add};
    ghost use Rattle.rows.specs.Store.{store_means, Spent};

    // Knows nothing but what the store has, which is empty. The pool has this room.
    pub fn new(heap: Global, store: ClauseStore, room: Room) -> Result<Facts, AllocError>
        ensures store { IfOk result (λ f. f.store ≡ store) }
        ensures pool { IfOk result (λ f. f.pool ≡ []) }
    {
        Ok(Facts {
            store,
            pool: Pool::new(heap, room)?,
            off: vec![in heap; false; MOST_LITERALS]?,
        })
    }

    // Returns whether it is known that every allowed way makes the literal false.
    pub fn is_off(&self, l: u16) -> bool
        ensures known { result ≡ true → (p : ℕ → Bool) → allowed self.now.store.row.items p ≡ true → lit p l ≡ false }
        ensures marked { result ≡ slice_index_or self.now.off.items l false }
    {
        self.off.get(l as usize).map_or(false, |off| *off)
    }

    // Marks the literal known true: its opposite is off.
    pub fn mark_true(&mut self, l: u16)
        requires { (p : ℕ → Bool) → allowed self.old.store.row.items p ≡ true → lit p l ≡ true }
        ensures store { self.new.store ≡ self.old.store }
        ensures pool { self.new.pool ≡ self.old.pool }
    {
        let t = turned(l) as usize;
        if t < self.off.len() {
            self.off[t] = true;
        }
    }

    // Marks the literal `l` known true, if the clause `c` shows it: each other literal of the clause is off.
    pub fn fix(&mut self, c: u32, l: u16)
        ensures store { self.new.store ≡ self.old.store }
        ensures pool { self.new.pool ≡ self.old.pool }
    {
        let Some(clause) = self.pool.clause(c) else {
            return;
        };
        for m in clause {
            if !self.is_off_or(*m, l) {
                return;
            }
        }
        self.mark_true(l);
    }

    // Returns whether the literal `m` is off, or `l` itself.
    fn is_off_or(&self, m: u16, l: u16) -> bool
        ensures { result ≡ true → (p : ℕ → Bool) → allowed self.now.store.row.items p ≡ true → (lit p m ≡ false) ⊎ (m ≡ l) }
    {
        m == l || self.is_off(m)
    }

    // Puts a clause into the pool that every allowed way meets, and returns its number; None where there is no room, or less than
    // `left` would be left.
    pub fn learn(&mut self, clause: &[u16], left: Room) -> Option<u32>
        requires { Implied (allowed self.old.store.row.items) clause.now }
        ensures store { self.new.store ≡ self.old.store }
        ensures off { self.new.off ≡ self.old.off }
        ensures pool { MatchOption result (self.new.pool ≡ self.old.pool) (λ c. (c ≡ length self.old.pool) × (self.new.pool ≡ self.old.pool ++ clause.now ∷ [])) }
    {
        self.pool.push(clause, left)
    }

    // Has the clauses of `spare` in place of those in the pool, which `spare` then has.
    pub fn exchange(&mut self, spare: &mut Pool)
        requires { Met (allowed self.old.store.row.items) spare.old }
        ensures store { self.new.store ≡ self.old.store }
        ensures off { self.new.off ≡ self.old.off }
        ensures pool { self.new.pool ≡ spare.old }
        ensures spare { spare.new ≡ self.old.pool }
    {
        swap(&mut self.pool, spare);
    }

    // Allots a variable and returns its number.
    // Kept as it is: this call and `add` say what the store's own say, here and in `Search` and `Solver`. At `add` each of them
    // has ghost fields to carry over to the longer row, and no caller is to know which of the two calls has that to do.
    pub fn new_variable(&mut self) -> Result<u16, Fault>
        ensures grows { NewVariable (store_means self.old.store) (store_means self.new.store) result }
        ensures row { self.new.store.row.items ≡ self.old.store.row.items }
        ensures pool { self.new.pool ≡ self.old.pool }
        ensures off { self.new.off ≡ self.old.off }
    {
        self.store.new_variable()
    }

    // Puts the clause into the store. What is known of the allowed ways is known of those that are left.
    pub fn add(&mut self, clause: &[u16]) -> Result<(), Fault>
        ensures adds { Add (store_means self.old.store) (store_means self.new.store) clause.now result }
        ensures spends { Spent (store_means self.old.store) (store_means self.new.store) clause.now result }
        ensures row { self.new.store.row.items ≡ (if is_ok result then self.old.store.row.items ++ (length clause.now ∷ clause.now) else self.old.store.row.items) }
        ensures pool { self.new.pool ≡ self.old.pool }
        ensures off { self.new.off ≡ self.old.off }
    {
        self.store.add(clause)
    }
}
