// Steps put on the trail and taken back.
ghost use Rattle.std.specs.Prelude.{◌≡◌, ℕ, ◌+◌, ◌/◌, ◌<◌, ◌≤◌, Bool, true, [], ◌∷◌, ◌++◌, length, vec_capacity, IfOk, if◌then◌else◌, nat_eq, slice_index, slice_set};
ghost use Rattle.chooser.specs.Ways.{allotted};
ghost use Rattle.backtrack.specs.Values.{bit};
ghost use Rattle.backtrack.specs.Trail.{lit_of, lits, Trail, Dead, TakenBack};

use super::OPEN;
use super::trail::Step;
use rows::{is_positive, variable};
use std::alloc::{AllocError, Global};

// The steps on the trail, for at most N variables. Their memory is reserved once.
#[derive(Drop)]
pub struct Steps<const N: usize> {
    pub(crate) list: Vec<Step>,
    ghost room: { N ≤ vec_capacity list },
}

impl<const N: usize> Steps<N> {
    // Makes a trail without a step.
    pub fn new(heap: Global) -> Result<Self, AllocError>
        ensures { IfOk result (λ s. s.list.items ≡ []) }
    {
        Ok(Steps {
            list: Vec::with_capacity(heap, N)?,
        })
    }

    // Puts the step on the trail and makes its literal true.
    pub(crate) fn push(&mut self, values: &mut [u8], step: Step)
        requires value { lit_of step / 2 < length values.old }
        requires room { length self.old.list.items < N }
        ensures values { values.new ≡ slice_set values.old (lit_of step / 2) (bit (lit_of step)) }
        ensures trail { self.new.list.items ≡ self.old.list.items ++ (step ∷ []) }
    {
        let l = step.literal();
        values[variable(l)] = u8::from(is_positive(l));
        self.list.push_reserved(step);
    }

    // Takes back the steps to the last decision, and that too, and returns its literal; or None when there is none.
    pub(crate) fn take_back(&mut self, values: &mut [u8]) -> Option<u16>
        requires { allotted (length values.old) (lits self.old.list.items) ≡ true }
        ensures { (X : (ℕ → Bool) → Bool) → Trail X values.old self.old.list.items → Dead X (lits self.old.list.items) → TakenBack X self.old.list.items values.new self.new.list.items result }
    {
        while let Some(step) = self.list.pop() {
            let l = step.literal();
            values[variable(l)] = OPEN;
            if let Step::Decided(_) = step {
                return Some(l);
            }
        }
        None
    }
}

// Gives each open variable the value 0.
pub(crate) fn finish(values: &mut [u8])
    ensures { (k : ℕ) → slice_index values.new k ≡ (if nat_eq (slice_index values.old k) 2 then 0 else slice_index values.old k) }
{
    for value in values.iter_mut() {
        if *value == OPEN {
            *value = 0;
        }
    }
}
