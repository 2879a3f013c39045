ghost use Rattle.std.specs.Prelude.{◌≡◌, ℕ, ◌+◌, ◌-◌, ◌/◌, ◌<◌, ◌≤◌, ◌⊎◌, Bool, true, [], length, replicate, slice_index_or, vec_capacity, IfOk};
ghost use Rattle.chooser.specs.Ways.{lit, some};
ghost use Rattle.rows.specs.Lits.{Turned};
ghost use Rattle.rows.specs.declared.store.TheConstants.{MOST_VARIABLES};
ghost use Rattle.implied.specs.Implied.{allowed, Implied};
ghost use Rattle.trail.specs.Trails.{literal_at, Dead};
ghost use Rattle.analyze.specs.Analysis.{Wrong, Grows, Absorbed, Opposed, Jump};

use rows::{MOST_VARIABLES, turned, variable};
use std::alloc::{AllocError, Global};
use trail::{Reason, Search, Trail};

// The clause that a clash teaches, and what it is drawn with. Its memory is reserved once, when it is made.
#[derive(Drop)]
pub struct Analyzer {
    // The literals of the clause.
    pub clause: Vec<u16>,
    // Which variables are seen: a literal of the trail whose variable is seen may be false.
    pub seen: Vec<bool>,
    // How many seen literals of the last level are still to be gone over.
    left: u32,
    // The clash in which each level was last met.
    met: Vec<u32>,
    ghost room: { vec_capacity clause ≡ MOST_VARIABLES },
}

impl Analyzer {
    // Makes an analyzer that has no clause, saw no variable and met no level.
    pub fn new(heap: Global) -> Result<Analyzer, AllocError>
        ensures clause { IfOk result (λ a. a.clause.items ≡ []) }
        ensures seen { IfOk result (λ a. a.seen.items ≡ replicate MOST_VARIABLES Bool.false) }
        ensures left { IfOk result (λ a. a.left ≡ 0) }
        ensures met { IfOk result (λ a. a.met.items ≡ replicate (MOST_VARIABLES + 1) 0) }
    {
        Ok(Analyzer {
            clause: Vec::with_capacity(heap, MOST_VARIABLES)?,
            seen: vec![in heap; false; MOST_VARIABLES]?,
            left: 0,
            met: vec![in heap; 0u32; MOST_VARIABLES + 1]?,
        })
    }

    // Returns whether the variable of the literal is seen.
    fn is_seen(&self, l: u16) -> bool
        ensures { result ≡ slice_index_or self.now.seen.items (l / 2) Bool.false }
    {
        self.seen.get(variable(l)).copied().unwrap_or(false)
    }

    // Marks the variable of `m` seen, if the opposite of `m` stands on the trail before the place `i`.
    fn see(&mut self, trail: &Trail, m: u16, i: usize) -> bool
        ensures grows { Grows self.old.seen.items self.new.seen.items }
        ensures found { result ≡ true → (j : ℕ) × (j < i) × Turned (literal_at trail.now.steps.items j) m × (slice_index_or self.new.seen.items (literal_at trail.now.steps.items j / 2) Bool.false ≡ true) }
        ensures clause { self.new.clause ≡ self.old.clause }
    {
        let v = variable(m);
        let Some(j) = trail.place_against(m) else {
            return false;
        };
        if j >= i || v >= self.seen.len() {
            return false;
        }
        if !self.seen[v] && trail.step(j).level == trail.levels() {
            self.left = self.left.wrapping_add(1);
        }
        self.seen[v] = true;
        true
    }

    // Takes the clause `c` in: each of its literals but `but` is off, or the opposite of one on the trail before the place `i`,
    // which is then seen.
    fn absorb(&mut self, search: &Search, c: u32, but: Option<u16>, i: usize) -> bool
        ensures grows { Grows self.old.seen.items self.new.seen.items }
        ensures absorbed { result ≡ true → Absorbed (allowed search.now.facts.store.row.items) search.now.trail.steps.items self.new.seen.items i but }
        ensures clause { self.new.clause ≡ self.old.clause }
    {
        let facts = &search.facts;
        let Some(clause) = facts.pool.clause(c) else {
            return false;
        };
        for m in clause {
            if Some(*m) != but && !facts.is_off(*m) && !self.see(&search.trail, *m, i) {
                return false;
            }
        }
        true
    }

    // Returns whether each literal of the clause but `l` is off or seen: then taking it in adds nothing.
    fn covers(&self, search: &Search, c: u32, l: u16) -> bool {
        let facts = &search.facts;
        let Some(clause) = facts.pool.clause(c) else {
            return false;
        };
        clause
            .iter()
            .all(|m| *m == l || facts.is_off(*m) || self.is_seen(*m))
    }

    // Takes the reason of the literal at the place `i` in where that is wanted: on the last level while another seen literal of
    // it is left, below where the reason adds nothing.
    fn attempt(&mut self, search: &Search, i: usize) -> bool
        requires { i < length search.now.trail.steps.items }
        ensures grows { Grows self.old.seen.items self.new.seen.items }
        ensures absorbed { result ≡ true → (p : ℕ → Bool) → allowed search.now.facts.store.row.items p ≡ true → Wrong p search.now.trail.steps.items self.new.seen.items i ⊎ (lit p (literal_at search.now.trail.steps.items i) ≡ true) }
        ensures clause { self.new.clause ≡ self.old.clause }
    {
        let step = search.trail.step(i);
        let last = step.level == search.trail.levels();
        if last {
            if self.left <= 1 {
                self.left = 0;
                return false;
            }
            self.left -= 1;
        }
        let Reason::Clause(c) = step.reason else {
            return false;
        };
        (last || self.covers(search, c, step.literal))
            && self.absorb(search, c, Some(step.literal), i)
    }

    // Goes back over the trail, and writes a clause that every allowed way meets; the last literal first.
    fn walk(&mut self, search: &Search)
        requires begun { (p : ℕ → Bool) → allowed search.now.facts.store.row.items p ≡ true → Wrong p search.now.trail.steps.items self.old.seen.items (length search.now.trail.steps.items) }
        ensures { Implied (allowed search.now.facts.store.row.items) self.new.clause.items }
    {
        self.clause.clear();
        // Kept as it is: places counted down, here and in `decisions`. `iter().enumerate().rev()` was tried: a loop over it is proved
        // from the pairs that it has yielded, and no place is known to speak of what was gone over.
        for i in (0..search.trail.steps.len()).rev() {
            let l = search.trail.step(i).literal;
            if self.is_seen(l) && !self.attempt(search, i) {
                self.clause.push_reserved(turned(l));
            }
        }
    }

    // Draws the clause that the clash with the clause `c` teaches.
    fn explain(&mut self, search: &Search, c: u32) -> bool
        ensures { result ≡ true → Implied (allowed search.now.facts.store.row.items) self.new.clause.items }
    {
        self.left = 0;
        if !self.absorb(search, c, None, search.trail.steps.len()) {
            return false;
        }
        self.walk(search);
        true
    }

    // Returns whether the literals but the first are false before the place `k`, and the opposite of the first stands at it or
    // behind it.
    fn asserts(&self, trail: &Trail, k: usize) -> bool
        ensures { result ≡ true → Opposed trail.now.steps.items self.now.clause.items k }
    {
        let Some((first, others)) = self.clause.split_first() else {
            return false;
        };
        others
            .iter()
            .all(|m| trail.place_against(*m).is_some_and(|j| j < k))
            && trail.place_against(*first).is_some_and(|j| j >= k)
    }

    // Returns the place of the decision after the level of the clause's second literal.
    fn target(&self, trail: &Trail) -> Option<usize> {
        let level = match self.clause.get(1) {
            Some(m) => trail.step(trail.place_against(*m)?).level,
            None => 0,
        };
        trail.decisions.get(level as usize).map(|k| *k as usize)
    }

    // Draws the clause that not all decisions hold, the last of them first. Returns the place of the last.
    fn decisions(&mut self, search: &Search) -> Option<usize>
        requires { Dead (allowed search.now.facts.store.row.items) search.now.trail.steps.items }
        ensures { Jump (allowed search.now.facts.store.row.items) search.now.trail.steps.items self.new.clause.items result }
    {
        self.clause.clear();
        let mut last = None;
        for i in (0..search.trail.steps.len()).rev() {
            let step = search.trail.step(i);
            if step.is_decision() {
                last = last.or(Some(i));
                self.clause.push_reserved(turned(step.literal));
            }
        }
        last
    }

    // Draws the clause that a clash teaches, and returns the decision to jump back to: None where no way is allowed. `clash` is
    // the clause that is false, if it is in the pool.
    pub fn analyze(&mut self, search: &Search, clash: Option<u32>) -> Option<usize>
        requires { Dead (allowed search.now.facts.store.row.items) search.now.trail.steps.items }
        ensures { Jump (allowed search.now.facts.store.row.items) search.now.trail.steps.items self.new.clause.items result }
    {
        if let Some(c) = clash {
            if self.explain(search, c) {
                if self.clause.is_empty() {
                    return None;
                }
                if let Some(k) = self.target(&search.trail) {
                    if k < search.trail.steps.len()
                        && search.trail.step(k).is_decision()
                        && self.asserts(&search.trail, k)
                    {
                        return Some(k);
                    }
                }
            }
        }
        self.decisions(search)
    }

    // Returns how many levels the clause joins, at most; `clash` is the number of the clash.
    pub fn glue(&mut self, trail: &Trail, clash: u32) -> u16
        ensures clause { self.new.clause ≡ self.old.clause }
        ensures seen { self.new.seen ≡ self.old.seen }
    {
        let mut glue: u16 = 1;
        for m in &self.clause {
            if let Some(j) = trail.place_against(*m) {
                if let Some(met) = self.met.get_mut(trail.step(j).level as usize) {
                    if *met != clash {
                        *met = clash;
                        glue = glue.saturating_add(1);
                    }
                }
            }
        }
        glue
    }
}
