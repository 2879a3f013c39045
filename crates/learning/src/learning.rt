ghost use Rattle.std.specs.Prelude.{◌≡◌, true};
ghost use Rattle.cdcl_steps.specs.Search.{Empty};

use cdcl::{Outcome, run};
use cdcl_steps::Solver;
use chooser::{Answer, Chooser, Fault, MakeFault};
use rows::{ClauseStore, MOST_VARIABLES};
use std::alloc::Global;

// The learning chooser. Its memory is reserved once, when it is made, and no call takes more.
// With E entries the row takes 2 E bytes, and the pool with its spare copy 4 (E + 262,144). The pool has room for
// E / 3 + 16,384 clauses, each of which takes 28 bytes for where it starts, its two watches and its worth. To this come
// 212,996 bytes for the 4,096 variables that it can have, whether they are allotted or not: 52 for each, and a few for all.
// In all that is less than 16 E + 1,730,000 bytes.
#[derive(Drop)]
pub struct Learning {
    solver: Solver,
    // Whether it was found that no way is allowed.
    empty: bool,
    ghost none: { (empty ≡ true → Empty solver.search.facts.store.row.items) },
}

impl Learning {
    ghost use Rattle.chooser.specs.Made.{Made};
    ghost use Rattle.learning.specs.Means.{learning_means};

    // Makes a chooser of so many entries that has no variable and allows every way.
    pub fn new(heap: Global, entries: usize) -> Result<Learning, MakeFault>
        ensures { Made learning_means MOST_VARIABLES entries result }
    {
        let store = ClauseStore::new(heap, entries)?;
        Ok(Learning {
            solver: Solver::new(heap, store)?,
            empty: false,
        })
    }
}

impl Chooser for Learning {
    ghost use Rattle.chooser.specs.Steps.{Add};
    ghost use Rattle.rows.specs.Store.{Spent};
    ghost use Rattle.rows.specs.declared.store.TheConstants.{MOST_VARIABLES};
    ghost use Rattle.learning.specs.Means.{learning_means, learning_laws};

    const MAX_VARIABLES: u16 = MOST_VARIABLES as u16;

    ghost MAX_VARIABLES = { MOST_VARIABLES };

    ghost meaning = { learning_means };

    ghost laws = { learning_laws };

    fn variables_left(&self) -> u16 {
        self.solver.search.facts.store.variables_left()
    }

    fn entries_left(&self) -> usize {
        self.solver.search.facts.store.entries_left()
    }

    fn new_variable(&mut self) -> Result<u16, Fault> {
        self.solver.search.new_variable()
    }

    // An accepted clause of L literals spends exactly L + 1 entries.
    fn add(&mut self, clause: &[u16]) -> Result<(), Fault>
        ensures adds { Add (learning_means self.old) (learning_means self.new) clause.now result }
        ensures spends { Spent (learning_means self.old) (learning_means self.new) clause.now result }
    {
        let empty = self.solver.add(clause)?;
        self.empty = self.empty | empty;
        Ok(())
    }

    fn ask(&mut self, assumptions: &[u16], answer: &mut [u8]) -> Result<Answer, Fault> {
        self.solver
            .search
            .facts
            .store
            .check_question(assumptions, answer)?;
        if self.empty {
            return Ok(Answer::No);
        }
        match run(&mut self.solver, assumptions, answer) {
            Outcome::Yes => Ok(Answer::Yes),
            Outcome::No => Ok(Answer::No),
            Outcome::Never => {
                self.empty = true;
                Ok(Answer::No)
            }
        }
    }
}
