// Clauses one after another in a row of numbers, each as its length and then its literals.
#![tactic(auto)]

ghost use Rattle.std.specs.Prelude.{◌≡◌, ◌+◌, ◌*◌, ◌/◌, ◌%◌, ◌^◌, ◌<◌, ◌≤◌, ◌==◌, ◌∷◌, ◌++◌, length, vec_len, vec_capacity, if◌then◌else◌};
ghost use Rattle.chooser.specs.Ways.{allotted};
ghost use Rattle.rows.specs.Lits.{opposite, Turned};
ghost use Rattle.rows.specs.Rows.{inside};

mod clause_iter;
mod store;

pub use clause_iter::ClauseIter;
pub use store::{ClauseStore, MOST_ENTRIES, MOST_LITERALS, MOST_VARIABLES};

// Returns the variable of the literal.
pub fn variable(l: u16) -> usize
    ensures { result ≡ l / 2 }
{
    (l / 2) as usize
}

// Returns whether the literal says that its variable is 1.
pub fn is_positive(l: u16) -> bool
    ensures { result ≡ (l % 2 == 0) }
{
    l % 2 == 0
}

// Returns the literal that says that the variable has this value.
pub fn literal(variable: u16, value: bool) -> u16
    requires { variable < 2 ^ 15 }
    ensures { result ≡ (if value then 2 * variable else 2 * variable + 1) }
{
    if value {
        2 * variable
    } else {
        2 * variable + 1
    }
}

// Returns the other literal of the variable.
pub fn turned(l: u16) -> u16
    ensures value { result ≡ opposite l }
    ensures other { Turned l result }
{
    if is_positive(l) { l + 1 } else { l - 1 }
}

// Returns whether each literal is of a variable below `count`.
pub fn are_allotted(count: u16, literals: &[u16]) -> bool
    ensures { result ≡ allotted count literals.now }
{
    literals.iter().all(|l| variable(*l) < count as usize)
}

// Returns whether the row has whole clauses over `count` variables.
pub fn is_whole(count: u16, row: &[u16]) -> bool
    ensures { result ≡ inside count 0 row.now }
{
    let mut rest = row;
    while let Some((length, behind)) = rest.split_first() {
        let Some((clause, next)) = behind.split_at_checked(*length as usize) else {
            return false;
        };
        if !are_allotted(count, clause) {
            return false;
        }
        rest = next;
    }
    true
}

// Writes the clause behind the others, in room that was reserved.
pub fn push_clause(row: &mut Vec<u16>, clause: &[u16])
    requires room { vec_len row.old + (length clause.now + 1) ≤ vec_capacity row.old }
    requires small { length clause.now < 2 ^ 16 }
    ensures items { row.new.items ≡ row.old.items ++ (length clause.now ∷ clause.now) }
    ensures cap { vec_capacity row.new ≡ vec_capacity row.old }
    ensures len { vec_len row.new ≡ vec_len row.old + (length clause.now + 1) }
{
    row.push_reserved(clause.len() as u16);
    for l in clause {
        row.push_reserved(*l);
    }
}
