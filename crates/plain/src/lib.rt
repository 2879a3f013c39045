// The plain chooser: it keeps its clauses as they were added, and answers by backtracking.
#![tactic(auto)]

ghost use Rattle.chooser.specs.Steps.{Add};
ghost use Rattle.chooser.specs.Made.{Made};
ghost use Rattle.rows.specs.Store.{Spent};
ghost use Rattle.plain.specs.Means.{plain_means, plain_laws};
ghost use Rattle.rows.specs.declared.store.TheConstants.{MOST_VARIABLES};

use backtrack::{Steps, solve};
use chooser::{Answer, Chooser, Fault, MakeFault};
use rows::{ClauseStore, MOST_VARIABLES};
use std::alloc::Global;

mod plain;

pub use plain::Plain;

impl Plain {
    // Makes a chooser of so many entries that has no variable and allows every way.
    pub fn new(heap: Global, entries: usize) -> Result<Plain, MakeFault>
        ensures { Made plain_means MOST_VARIABLES entries result }
    {
        Ok(Plain {
            clauses: ClauseStore::new(heap, entries)?,
            trail: Steps::new(heap)?,
        })
    }
}

impl Chooser for Plain {
    const MAX_VARIABLES: u16 = MOST_VARIABLES as u16;

    ghost MAX_VARIABLES = { MOST_VARIABLES };

    ghost meaning = { plain_means };

    ghost laws = { plain_laws };

    fn variables_left(&self) -> u16 {
        self.clauses.variables_left()
    }

    fn entries_left(&self) -> usize {
        self.clauses.entries_left()
    }

    fn new_variable(&mut self) -> Result<u16, Fault> {
        self.clauses.new_variable()
    }

    // An accepted clause of L literals spends exactly L + 1 entries.
    fn add(&mut self, clause: &[u16]) -> Result<(), Fault>
        ensures adds { Add (plain_means self.old) (plain_means self.new) clause.now result }
        ensures spends { Spent (plain_means self.old) (plain_means self.new) clause.now result }
    {
        self.clauses.add(clause)
    }

    fn ask(&mut self, assumptions: &[u16], answer: &mut [u8]) -> Result<Answer, Fault> {
        self.clauses.check_question(assumptions, answer)?;
        Ok(solve(self.clauses.row(), assumptions, answer, &mut self.trail))
    }
}
