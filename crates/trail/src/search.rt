ghost use Rattle.std.specs.Prelude.{◌≡◌, ◌<◌, [], ◌∷◌, ◌++◌, ◌≢◌, length, IfOk, is_ok, if◌then◌else◌};
ghost use Rattle.implied.specs.Implied.{allowed};
ghost use Rattle.trail.specs.Trails.{Sound, Follows};

use crate::step::Reason;
use crate::trail::Trail;
use chooser::Fault;
use implied::Facts;
use std::alloc::{AllocError, Global};

// What is known of the allowed ways, and a trail whose literals follow from that and from its decisions.
#[derive(Drop)]
pub struct Search {
    pub facts: Facts,
    pub trail: Trail,
    ghost steady: { Sound (allowed facts.store.row.items) trail.values trail.positions trail.steps.items },
}

impl Search {
    ghost use Rattle.chooser.specs.Steps.{NewVariable, Add};
    ghost use Rattle.rows.specs.Store.{store_means, Spent};
    ghost use Rattle.trail.specs.Steps.{Pushed, Popped, Cleared};

    // Begins with an empty trail.
    pub fn new(heap: Global, facts: Facts) -> Result<Search, AllocError>
        ensures facts { IfOk result (λ s. s.facts ≡ facts) }
        ensures trail { IfOk result (λ s. s.trail.steps.items ≡ []) }
    {
        Ok(Search {
            facts,
            trail: Trail::new(heap)?,
        })
    }

    // Puts the literal on the trail, if its variable is open.
    pub fn push(&mut self, l: u16, reason: Reason) -> bool
        requires { (reason ≢ Reason.Decision) → Follows (allowed self.old.facts.store.row.items) self.old.trail.steps.items (length self.old.trail.steps.items) l }
        ensures { Pushed self.old self.new l reason result }
    {
        if !self.trail.is_open(l) {
            return false;
        }
        self.trail.put(l, reason);
        true
    }

    // Takes the last literal back, and returns it.
    pub fn pop(&mut self) -> u16
        requires { 0 < length self.old.trail.steps.items }
        ensures { Popped self.old self.new result }
    {
        self.trail.take_last()
    }

    // Empties the trail: every variable is open.
    pub fn clear(&mut self)
        ensures { Cleared self.old self.new }
    {
        self.trail.clear();
    }

    // Allots a variable and returns its number.
    pub fn new_variable(&mut self) -> Result<u16, Fault>
        ensures grows { NewVariable (store_means self.old.facts.store) (store_means self.new.facts.store) result }
        ensures row { self.new.facts.store.row.items ≡ self.old.facts.store.row.items }
        ensures pool { self.new.facts.pool ≡ self.old.facts.pool }
        ensures off { self.new.facts.off ≡ self.old.facts.off }
        ensures trail { self.new.trail ≡ self.old.trail }
    {
        self.facts.new_variable()
    }

    // Puts the clause into the store. The trail stays as it is, since what follows from less follows from more.
    pub fn add(&mut self, clause: &[u16]) -> Result<(), Fault>
        ensures adds { Add (store_means self.old.facts.store) (store_means self.new.facts.store) clause.now result }
        ensures spends { Spent (store_means self.old.facts.store) (store_means self.new.facts.store) clause.now result }
        ensures row { self.new.facts.store.row.items ≡ (if is_ok result then self.old.facts.store.row.items ++ (length clause.now ∷ clause.now) else self.old.facts.store.row.items) }
        ensures pool { self.new.facts.pool ≡ self.old.facts.pool }
        ensures off { self.new.facts.off ≡ self.old.facts.off }
        ensures trail { self.new.trail ≡ self.old.trail }
    {
        self.facts.add(clause)
    }
}
