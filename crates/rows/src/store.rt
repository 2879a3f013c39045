ghost use Rattle.std.specs.Prelude.{◌≡◌, ◌+◌, ◌≤◌, true, ◌∷◌, ◌++◌, length, vec_len, vec_capacity, is_ok, if◌then◌else◌};
ghost use Rattle.rows.specs.Rows.{inside};
ghost use Rattle.rows.specs.declared.store.TheConstants.{MOST_ENTRIES, MOST_VARIABLES};

use crate::{are_allotted, push_clause};
use chooser::{Fault, MakeFault};
use std::alloc::Global;

// The most entries that a chooser may be made with, and the most variables that it can have.
// Kept as it is: specs/ has these numbers written out, here and in the crates above. It is to be read without the code, and a name
// that it took from here would be no plainer.
pub const MOST_ENTRIES: usize = 65535;

pub const MOST_VARIABLES: usize = 4096;

// Each variable has two literals: they are the numbers below this one.
pub const MOST_LITERALS: usize = 2 * MOST_VARIABLES;

// What a chooser was given: its clauses, and how many variables are allotted. Its memory is reserved once, when it is made: two
// bytes for each entry.
#[derive(Drop)]
pub struct ClauseStore {
    // The clauses, each as its length and then its literals: an entry for each number.
    row: Vec<u16>,
    // How many entries it was made with, and how many variables are allotted.
    entries: usize,
    count: u16,
    pub ghost fits: { vec_len row ≤ entries },
    pub ghost reserved: { entries ≤ vec_capacity row },
    pub ghost small: { entries ≤ MOST_ENTRIES },
    pub ghost few: { count ≤ MOST_VARIABLES },
    pub ghost whole: { inside count 0 row.items ≡ true },
}

impl ClauseStore {
    ghost use Rattle.chooser.specs.Steps.{NewVariable, Add};
    ghost use Rattle.chooser.specs.Made.{Made};
    ghost use Rattle.rows.specs.Store.{store_means, Spent, Askable};

    // Makes a store of so many entries that has no variable and allows every way.
    pub fn new(heap: Global, entries: usize) -> Result<ClauseStore, MakeFault>
        ensures { Made store_means MOST_VARIABLES entries result }
    {
        if entries > MOST_ENTRIES {
            return Err(MakeFault::TooManyEntries);
        }
        Ok(ClauseStore {
            row: Vec::with_capacity(heap, entries)?,
            entries,
            count: 0,
        })
    }

    // Returns the clauses as they stand in the row.
    pub fn row(&self) -> &[u16]
        ensures value { result.now ≡ self.now.row.items }
        ensures whole { inside self.now.count 0 result.now ≡ true }
    {
        self.row.as_slice()
    }

    // Returns how many variables can still be allotted.
    pub fn variables_left(&self) -> u16
        ensures { result ≡ (store_means self.now).room }
    {
        MOST_VARIABLES as u16 - self.count
    }

    // Returns how many entries are left.
    pub fn entries_left(&self) -> usize
        ensures { result ≡ (store_means self.now).left }
    {
        self.entries - self.row.len()
    }

    // Allots a variable and returns its number.
    pub fn new_variable(&mut self) -> Result<u16, Fault>
        ensures grows { NewVariable (store_means self.old) (store_means self.new) result }
        ensures row { self.new.row.items ≡ self.old.row.items }
    {
        if self.count as usize >= MOST_VARIABLES {
            return Err(Fault::NoVariable);
        }
        let variable = self.count;
        self.count += 1;
        Ok(variable)
    }

    // Puts the clause behind the others. An accepted clause of L literals spends exactly L + 1 entries.
    pub fn add(&mut self, clause: &[u16]) -> Result<(), Fault>
        ensures adds { Add (store_means self.old) (store_means self.new) clause.now result }
        ensures spends { Spent (store_means self.old) (store_means self.new) clause.now result }
        ensures row { self.new.row.items ≡ (if is_ok result then self.old.row.items ++ (length clause.now ∷ clause.now) else self.old.row.items) }
        ensures count { self.new.count ≡ self.old.count }
    {
        if !are_allotted(self.count, clause) {
            return Err(Fault::Unallotted);
        }
        if self.entries_left() <= clause.len() {
            return Err(Fault::NoEntries);
        }
        push_clause(&mut self.row, clause);
        Ok(())
    }

    // Returns whether a question may be asked: its assumptions are of allotted variables, and its answer has a byte for each.
    pub fn check_question(&self, assumptions: &[u16], answer: &[u8]) -> Result<(), Fault>
        ensures { Askable (store_means self.now) assumptions.now answer.now result }
    {
        if !are_allotted(self.count, assumptions) {
            return Err(Fault::Unallotted);
        }
        if answer.len() != self.count as usize {
            return Err(Fault::WrongLength);
        }
        Ok(())
    }
}
