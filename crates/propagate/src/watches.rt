ghost use Rattle.std.specs.Prelude.{◌≡◌, ℕ, ◌<◌, ◌≤◌, true, false, length, replicate, slice_set, IfOk};
ghost use Rattle.rows.specs.declared.store.TheConstants.{MOST_LITERALS};
ghost use Rattle.propagate.specs.Visits.{Stopped};
ghost use Rattle.propagate.specs.Uses.{entry, timed, worth, Noted};

use crate::visit::{Visit, unfalse, visit_clause};
use rows::{MOST_LITERALS, turned, variable};
use std::alloc::{AllocError, Global};
use trail::{Reason, Search, Trail};

// No watch.
// Kept as it is: the lists lie in arrays and name their watches by number, since nothing is allocated after a chooser is made. With
// `None` at their ends each link takes 8 bytes and not 4: 8 more for each of E / 3 + 16,384 clauses, past the documented memory.
const NONE: u32 = u32::MAX;

// Clauses from this number on are not watched, so that the watches of all others have numbers below `NONE`.
const MOST_WATCHED: u32 = NONE / 2;

// What is kept of each clause.
#[derive(Clone, Copy)]
struct Watched {
    // Its watches 2c and 2c + 1: the next one behind each in its list, and the literal that each watches.
    next: [u32; 2],
    literals: [u16; 2],
    // Where the search for another literal begins.
    from: u16,
    // How many levels it joins, 0 for a clause that was added.
    // Kept as it is: an Option takes 4 bytes more for each of E / 3 + 16,384 clauses, past the documented memory.
    glue: u16,
    // When it was last of use.
    used: u32,
}

const UNWATCHED: Watched = Watched {
    next: [NONE; 2],
    literals: [0; 2],
    from: 0,
    glue: 0,
    used: 0,
};

// The lists of watches.
#[derive(Drop)]
pub struct Watches {
    // The first watch of each literal's list.
    first: Vec<u32>,
    clauses: Vec<Watched>,
}

impl Watches {
    // Makes empty lists, for so many clauses.
    pub fn new(heap: Global, clauses: usize) -> Result<Watches, AllocError>
        ensures lists { IfOk result (λ w. w.first.items ≡ replicate MOST_LITERALS NONE) }
        ensures clauses { IfOk result (λ w. w.clauses.items ≡ replicate clauses UNWATCHED) }
    {
        Ok(Watches {
            first: vec![in heap; NONE; MOST_LITERALS]?,
            clauses: vec![in heap; UNWATCHED; clauses]?,
        })
    }

    // Puts the watch `w` into the list of the literal.
    fn link(&mut self, w: u32, l: u16) {
        let Some(clause) = self.clauses.get_mut((w / 2) as usize) else {
            return;
        };
        let Some(first) = self.first.get_mut(l as usize) else {
            return;
        };
        let side = (w % 2) as usize;
        clause.literals[side] = l;
        clause.next[side] = *first;
        *first = w;
    }

    // Takes the watch behind `before`, or the first one, out of the list of the literal; `after` comes next.
    fn unlink(&mut self, l: u16, before: Option<u32>, after: u32) {
        if let Some(w) = before {
            if let Some(clause) = self.clauses.get_mut((w / 2) as usize) {
                clause.next[(w % 2) as usize] = after;
            }
        } else if let Some(first) = self.first.get_mut(l as usize) {
            *first = after;
        }
    }

    // Watches the literals `a` and `b` of the clause.
    fn watch(&mut self, c: u32, a: u16, b: u16) {
        if c < MOST_WATCHED {
            self.link(2 * c, a);
            self.link(2 * c + 1, b);
        }
    }

    // Watches the first two literals of a clause that is new: it was last of use at the time `now`, and `glue` is how many
    // levels it joins.
    pub fn watch_first(&mut self, c: u32, clause: &[u16], now: u32, glue: u16) {
        if let Some(watched) = self.clauses.get_mut(c as usize) {
            watched.from = 0;
            watched.glue = glue;
            watched.used = now;
        }
        if let [a, b, ..] = clause {
            self.watch(c, *a, *b);
        }
    }

    // Visits the clauses that watch the literal `l`, which became false. Returns the clause that is false.
    fn visit_all(&mut self, search: &mut Search, l: u16) -> Option<u32>
        ensures { Stopped search.old search.new result }
    {
        let mut before: Option<u32> = None;
        let mut w = self.first.get(l as usize).copied().unwrap_or(NONE);
        // Kept as it is: a list changes while it is gone over, which no iterator over it allows. There are two watches a clause.
        for _ in 0..self.clauses.len().saturating_mul(2) {
            let c = w / 2;
            let Some(watched) = self.clauses.get(c as usize) else {
                break;
            };
            let after = watched.next[(w % 2) as usize];
            let other = watched.literals[(1 - w % 2) as usize];
            let from = watched.from;
            if search.trail.is_true(other) {
                before = Some(w);
            } else {
                match visit_clause(search, c, other, from) {
                    Visit::Stays => before = Some(w),
                    Visit::Moves { literal, from } => {
                        self.begin_at(c, from);
                        self.unlink(l, before, after);
                        self.link(w, literal);
                    }
                    Visit::Clashes => return Some(c),
                }
            }
            w = after;
        }
        None
    }

    // Lets the next search for another literal of the clause begin at the place `from`.
    // Kept as it is: `stamp` writes another field of the clause in as many lines; one function for both would be told which.
    fn begin_at(&mut self, c: u32, from: u16) {
        if let Some(watched) = self.clauses.get_mut(c as usize) {
            watched.from = from;
        }
    }

    // Follows the literals of the trail from the place `from` on. Returns the clause that is false.
    pub fn propagate(&mut self, search: &mut Search, from: usize) -> Option<u32>
        ensures { Stopped search.old search.new result }
    {
        // Kept as it is: the trail grows while it is gone over, which no iterator over it allows.
        let mut queue = from;
        while queue < search.trail.steps.len() {
            let l = turned(search.trail.steps[queue].literal);
            queue += 1;
            let clash = self.visit_all(search, l);
            if clash.is_some() {
                return clash;
            }
        }
        None
    }

    // Empties the lists, and watches two literals of each clause, such as are not false if it has them.
    pub fn watch_all(&mut self, search: &Search) {
        self.first.fill(NONE);
        // Kept as it is: clauses are asked for by number. For an iterator over a pool, as rows has it, the pool would have to say as
        // well that its run of numbers is the row of its clauses.
        for c in 0..MOST_WATCHED {
            let Some(clause) = search.facts.pool.clause(c) else {
                return;
            };
            self.begin_at(c, 0);
            let n = clause.len();
            if n >= 2 {
                let i = unfalse(&clause[..n - 1], &search.trail);
                let j = i + 1 + unfalse(&clause[i + 1..], &search.trail);
                self.watch(c, clause[i], clause[j]);
            }
        }
    }

    // Writes the time `now` into the clause.
    fn stamp(&mut self, c: u32, now: u32)
        ensures lists { self.new.first ≡ self.old.first }
        ensures clauses { self.new.clauses.items ≡ slice_set self.old.clauses.items c (timed (entry self.old c) now) }
    {
        if let Some(watched) = self.clauses.get_mut(c as usize) {
            watched.used = now;
        }
    }

    // Writes the time `now` into the clauses that the seen variables of the trail follow by.
    pub fn note_use(&mut self, trail: &Trail, seen: &[bool], now: u32)
        ensures { Noted self.old self.new trail.now.steps.items seen.now (length trail.now.steps.items) now }
    {
        for step in &trail.steps {
            let v = variable(step.literal);
            if v < seen.len() && seen[v] {
                if let Reason::Clause(c) = step.reason {
                    self.stamp(c, now);
                }
            }
        }
    }

    // Returns whether the clause is to be kept: one that was added, joins few levels, or was of use within the window.
    pub fn is_worth(&self, c: u32, now: u32, window: u32) -> bool
        ensures { result ≡ worth (entry self.now c) now window }
    {
        match self.clauses.get(c as usize) {
            Some(watched) => watched.glue <= 3 || now.wrapping_sub(watched.used) < window,
            None => true,
        }
    }

    // Gives the clause the number `to` in what is kept of it. Returns whether it is a learned one.
    pub fn renumber(&mut self, c: u32, to: u32) -> bool
        ensures lists { self.new.first ≡ self.old.first }
        ensures moved { c < length self.old.clauses.items → self.new.clauses.items ≡ slice_set self.old.clauses.items to (entry self.old c) }
        ensures learned { result ≡ true → 0 < (entry self.old c).glue }
        ensures added { result ≡ false → (entry self.old c).glue ≡ 0 }
        ensures none { length self.old.clauses.items ≤ c → self.new ≡ self.old }
    {
        let Some(watched) = self.clauses.get(c as usize).copied() else {
            return false;
        };
        if let Some(place) = self.clauses.get_mut(to as usize) {
            *place = watched;
        }
        watched.glue > 0
    }
}
