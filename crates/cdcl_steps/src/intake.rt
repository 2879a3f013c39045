ghost use Rattle.std.specs.Prelude.{◌≡◌, true, ◌∷◌, ◌++◌, length, Ok, is_ok, if◌then◌else◌};
ghost use Rattle.chooser.specs.Steps.{Add};
ghost use Rattle.rows.specs.Store.{store_means, Spent};
ghost use Rattle.implied.specs.Implied.{allowed, Implied};
ghost use Rattle.cdcl_steps.specs.Search.{Empty};

use crate::solver::Solver;
use chooser::Fault;
use implied::Room;

impl Solver {
    // Puts the clause into the pool, if there is room.
    fn pool_clause(&mut self, clause: &[u16])
        requires { Implied (allowed self.old.search.facts.store.row.items) clause.now }
        ensures store { self.new.search.facts.store ≡ self.old.search.facts.store }
        ensures trail { self.new.search.trail ≡ self.old.search.trail }
    {
        self.tally.reserved = self
            .tally
            .reserved
            .saturating_sub(clause.len())
            .saturating_sub(1);
        if let Some(c) = self.search.facts.learn(clause, Room::NONE) {
            self.watches.watch_first(c, clause, self.tally.clashes, 0);
        }
    }

    // Takes the clause in: a literal alone is known true. Returns whether no way is allowed, as far as that shows at once.
    fn take_in(&mut self, clause: &[u16]) -> bool
        requires { Implied (allowed self.old.search.facts.store.row.items) clause.now }
        ensures store { self.new.search.facts.store ≡ self.old.search.facts.store }
        ensures trail { self.new.search.trail ≡ self.old.search.trail }
        ensures none { result ≡ true → Empty self.new.search.facts.store.row.items }
    {
        match clause {
            [] => true,
            [l] => {
                if self.search.facts.is_off(*l) {
                    return true;
                }
                self.search.facts.mark_true(*l);
                false
            }
            _ => {
                self.pool_clause(clause);
                false
            }
        }
    }

    // Adds a clause. Returns whether no way is allowed then, as far as that shows at once.
    pub fn add(&mut self, clause: &[u16]) -> Result<bool, Fault>
        ensures adds { Add (store_means self.old.search.facts.store) (store_means self.new.search.facts.store) clause.now result }
        ensures spends { Spent (store_means self.old.search.facts.store) (store_means self.new.search.facts.store) clause.now result }
        ensures row { self.new.search.facts.store.row.items ≡ (if is_ok result then self.old.search.facts.store.row.items ++ (length clause.now ∷ clause.now) else self.old.search.facts.store.row.items) }
        ensures trail { self.new.search.trail ≡ self.old.search.trail }
        ensures none { result ≡ Ok true → Empty self.new.search.facts.store.row.items }
    {
        self.search.add(clause)?;
        Ok(self.take_in(clause))
    }
}
