ghost use Rattle.std.specs.Prelude.{◌≡◌, ◌-◌, ◌/◌, ◌<◌, true, [], length, replicate, vec_capacity, IfOk, IfSome};
ghost use Rattle.rows.specs.Lits.{Turned};
ghost use Rattle.rows.specs.declared.store.TheConstants.{MOST_LITERALS, MOST_VARIABLES};
ghost use Rattle.trail.specs.Trails.{step_at, literal_at};
ghost use Rattle.trail.specs.Values.{Refuted, Holds, Free, Valued};

use crate::step::{Reason, Step, Value, making};
use rows::{MOST_VARIABLES, turned, variable};
use std::alloc::{AllocError, Global};

// Literals in the order in which they were put, and what is known of each variable.
#[derive(Drop)]
pub struct Trail {
    // Kept as it is: values and places in two arrays. Nearly each use asks for one of the two alone, so that a struct of both would
    // be no plainer.
    pub values: [Value; MOST_VARIABLES],
    // Where each variable that has a value stands among the steps.
    pub positions: [u16; MOST_VARIABLES],
    pub steps: Vec<Step>,
    // The place of each decision.
    pub decisions: Vec<u16>,
    ghost room: { vec_capacity steps ≡ MOST_VARIABLES },
    ghost levels: { vec_capacity decisions ≡ MOST_VARIABLES },
}

impl Trail {
    ghost use Rattle.trail.specs.Steps.{Put, TakenLast};

    // Makes an empty trail: every variable is open.
    pub fn new(heap: Global) -> Result<Trail, AllocError>
        ensures steps { IfOk result (λ t. t.steps.items ≡ []) }
        ensures values { IfOk result (λ t. t.values ≡ replicate MOST_VARIABLES Value.Open) }
        ensures placed { IfOk result (λ t. length t.positions ≡ MOST_VARIABLES) }
    {
        Ok(Trail {
            values: [Value::Open; MOST_VARIABLES],
            positions: [0; MOST_VARIABLES],
            steps: Vec::with_capacity(heap, MOST_VARIABLES)?,
            decisions: Vec::with_capacity(heap, MOST_VARIABLES)?,
        })
    }

    // Returns whether the literal is false.
    pub fn is_false(&self, l: u16) -> bool
        ensures { result ≡ true → Refuted self.now.values l }
    {
        let v = variable(l);
        v < MOST_VARIABLES && self.values[v] == making(turned(l))
    }

    // Returns whether the literal is true.
    // Kept as it is: two tests of one line each. That a literal is false where its opposite is true was tried as the test of
    // `is_false`: the learning chooser takes 13 % more instructions on seven pigeonholes.
    pub fn is_true(&self, l: u16) -> bool
        ensures { result ≡ true → Holds self.now.values l }
    {
        let v = variable(l);
        v < MOST_VARIABLES && self.values[v] == making(l)
    }

    // Returns whether the literal is of an open variable.
    pub fn is_open(&self, l: u16) -> bool
        ensures open { result ≡ true → Free self.now.values l }
        ensures shut { Free self.now.values l → result ≡ true }
    {
        self.values.get(variable(l)) == Some(&Value::Open)
    }

    // Returns whether the literal is true, false or open; None for what is no literal of a variable.
    pub fn value(&self, l: u16) -> Option<Value>
        ensures { Valued self.now.values l result }
    {
        let value = *self.values.get(variable(l))?;
        Some(if value == Value::Open {
            Value::Open
        } else if value == making(l) {
            Value::True
        } else {
            Value::False
        })
    }

    // Returns the step at the place `j`.
    pub fn step(&self, j: usize) -> Step
        requires { j < length self.now.steps.items }
        ensures { result ≡ step_at self.now.steps.items j }
    {
        self.steps[j]
    }

    // Returns where the opposite of the literal stands.
    pub fn place_against(&self, l: u16) -> Option<usize>
        ensures { IfSome result (λ j. (j < length self.now.steps.items) × Turned (literal_at self.now.steps.items j) l) }
    {
        let j = *self.positions.get(variable(l))? as usize;
        if j < self.steps.len() && self.step(j).literal == turned(l) {
            Some(j)
        } else {
            None
        }
    }

    // Returns how many decisions were made.
    pub fn levels(&self) -> u16
        ensures { result ≡ length self.now.decisions.items }
    {
        self.decisions.len() as u16
    }

    // Puts the literal behind the others, and gives its variable the value that makes it true.
    pub(crate) fn put(&mut self, l: u16, reason: Reason)
        requires small { l / 2 < MOST_VARIABLES }
        requires room { length self.old.steps.items < MOST_VARIABLES }
        ensures { Put self.old self.new l reason }
    {
        let v = variable(l);
        let place = self.steps.len() as u16;
        if reason == Reason::Decision && self.decisions.len() < MOST_VARIABLES {
            self.decisions.push_reserved(place);
        }
        let level = self.levels();
        self.values[v] = making(l);
        self.positions[v] = place;
        self.steps.push_reserved(Step {
            literal: l,
            level,
            reason,
        });
    }

    // Takes the last literal away and returns it; its variable is open.
    pub(crate) fn take_last(&mut self) -> u16
        requires some { 0 < length self.old.steps.items }
        requires named { literal_at self.old.steps.items (length self.old.steps.items - 1) < MOST_LITERALS }
        ensures { TakenLast self.old self.new result }
    {
        let step = self.steps.pop().unwrap();
        if step.is_decision() {
            let _ = self.decisions.pop();
        }
        self.values[variable(step.literal)] = Value::Open;
        step.literal
    }

    // Takes all literals away: every variable is open.
    pub(crate) fn clear(&mut self)
        ensures steps { self.new.steps.items ≡ [] }
        ensures values { self.new.values ≡ replicate MOST_VARIABLES Value.Open }
        ensures positions { self.new.positions ≡ self.old.positions }
    {
        self.steps.clear();
        self.decisions.clear();
        self.values = [Value::Open; MOST_VARIABLES];
    }
}
