ghost use Rattle.std.specs.Prelude.{◌≡◌, true};
ghost use Rattle.implied.specs.Implied.{allowed, Implied};
ghost use Rattle.trail.specs.Trails.{Dead};
ghost use Rattle.decisions.specs.Plans.{Planned};
ghost use Rattle.cdcl_steps.specs.Search.{Jumps};

use crate::solver::Solver;
use decisions::{Plan, cut_back};
use implied::Room;
use trail::Reason;

impl Solver {
    // Puts the drawn clause into the pool, if that leaves room for what is added later. Returns its number.
    fn learn(&mut self, glue: u16) -> Option<u32>
        requires { Implied (allowed self.old.search.facts.store.row.items) self.old.analyzer.clause.items }
        ensures store { self.new.search.facts.store ≡ self.old.search.facts.store }
        ensures off { self.new.search.facts.off ≡ self.old.search.facts.off }
        ensures trail { self.new.search.trail ≡ self.old.search.trail }
    {
        let reserved = self.tally.reserved;
        let left = Room {
            numbers: reserved,
            clauses: reserved / 3,
        };
        let analyzer = &self.analyzer;
        let clause = analyzer.clause.as_slice();
        let Some(c) = self.search.facts.learn(clause, left) else {
            // The next restart forgets.
            self.tally.limit = 0;
            return None;
        };
        self.watches
            .watch_first(c, clause, self.tally.clashes, glue);
        self.tally.learned = self.tally.learned.saturating_add(1);
        Some(c)
    }

    // Draws what the clash teaches, jumps back and puts the clause's first literal on the trail. `clash` is the clause that is
    // false, if it is in the pool. Returns false where no way is allowed at all.
    pub fn backjump(&mut self, given: &[u16], plan: &mut Plan, clash: Option<u32>) -> bool
        requires planned { Planned given.now self.old.search.trail.steps.items plan.old }
        requires dead { Dead (allowed self.old.search.facts.store.row.items) self.old.search.trail.steps.items }
        ensures store { self.new.search.facts.store ≡ self.old.search.facts.store }
        ensures off { self.new.search.facts.off ≡ self.old.search.facts.off }
        ensures planned { Planned given.now self.new.search.trail.steps.items plan.new }
        ensures jumped { Jumps self.old.search self.new.search result }
    {
        let Some(k) = self.analyzer.analyze(&self.search, clash) else {
            return false;
        };
        let now = self.tally.clashes.wrapping_add(1);
        self.tally.clashes = now;
        let analyzer = &mut self.analyzer;
        let search = &self.search;
        let first = analyzer.clause[0];
        let glue = analyzer.glue(&search.trail, now);
        self.watches.note_use(&search.trail, &analyzer.seen, now);
        self.order.reward(&search.trail, &mut analyzer.seen);
        cut_back(&mut self.search, given, &mut self.order, plan, k);
        let reason = match self.learn(glue) {
            Some(c) => Reason::Clause(c),
            None => Reason::Known,
        };
        self.search.push(first, reason)
    }
}
