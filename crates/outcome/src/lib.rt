// What the values of a trail come to once nothing is left to decide: they are written out and held against each clause and each
// assumption. Where one fails, a literal of it is open, or no allowed way is along the trail.
#![tactic(auto)]

ghost use Rattle.std.specs.Prelude.{◌≡◌, ℕ, ◌<◌, ◌≤◌, Bool, true, false, length, slice_index, MatchOption};
ghost use Rattle.chooser.specs.Ways.{lit, some, every, written};
ghost use Rattle.rows.specs.Rows.{inside, holds};
ghost use Rattle.rows.specs.declared.store.TheConstants.{MOST_VARIABLES};
ghost use Rattle.implied.specs.Implied.{allowed};
ghost use Rattle.trail.specs.Trails.{literal_at};
ghost use Rattle.trail.specs.Values.{Free};
ghost use Rattle.outcome.specs.Outcome.{byte_of, Copied, Failing, Missed, Onto, Concluded, Question};

use rows::{ClauseIter, is_positive, variable};
use trail::{Search, Trail, Value};

// What comes next: a literal to decide, a clash, with the clause that is false if it is in the pool, or the answer.
#[derive(Clone, Copy, PartialEq, Eq, Debug)]
pub enum Next {
    Decide(u16),
    Clash(Option<u32>),
    Yes,
    No,
}

// Returns the byte that an answer has for a value: 1 for true, else 0.
// Kept as it is: an answer is bytes in memory that the caller lends, in the form that the choosers' trait says.
fn byte(value: Value) -> u8
    ensures { result ≡ byte_of value }
{
    match value {
        Value::True => 1,
        Value::False | Value::Open => 0,
    }
}

// Writes the values out.
// Kept as it is: a loop over `enumerate` is proved from place to place, one over a `zip` from the pairs that it has yielded
// (tried: the proof didn't close on what each byte is).
fn write(trail: &Trail, out: &mut [u8])
    requires { length out.old ≤ MOST_VARIABLES }
    ensures { (k : ℕ) → k < length out.new → Copied trail.now.values out.new k }
{
    for (v, written) in out.iter_mut().enumerate() {
        *written = byte(trail.values[v]);
    }
}

// Returns whether the written values make the literal true.
fn holds_in(out: &[u8], l: u16) -> bool
    ensures { result ≡ lit (written out.now) l }
{
    let one = out.get(variable(l)).copied() == Some(1);
    if is_positive(l) { one } else { !one }
}

// Returns whether some literal of the clause is true.
fn meets(out: &[u8], clause: &[u16]) -> bool
    ensures { result ≡ some (lit (written out.now)) clause.now }
{
    clause.iter().any(|l| holds_in(out, *l))
}

// Returns the first clause that the written values do not meet.
fn unmet<'a>(row: &'a [u16], out: &[u8]) -> Option<&'a [u16]>
    requires { inside (length out.now) 0 row.now ≡ true }
    ensures { MatchOption result (holds (lit (written out.now)) true 0 row.now ≡ true) (λ clause. Failing row.now out.now clause.now) }
{
    ClauseIter::new(row).find(|clause| !meets(out, clause))
}

// Returns the first assumption that the written values do not meet.
fn denied(given: &[u16], out: &[u8]) -> Option<u16>
    ensures { MatchOption result (every (lit (written out.now)) given.now ≡ true) (λ g. Missed given.now out.now g) }
{
    given.iter().find(|g| !holds_in(out, **g)).copied()
}

// Goes over a clause that the written values do not meet: a literal of it that is open is to be decided.
fn reopen(search: &Search, out: &[u8], clause: &[u16]) -> Next
    requires few { length out.now ≤ MOST_VARIABLES }
    requires copied { (k : ℕ) → k < length out.now → Copied search.now.trail.values out.now k }
    requires failing { Failing search.now.facts.store.row.items out.now clause.now }
    ensures { Onto (allowed search.now.facts.store.row.items) search.now.trail.values search.now.trail.steps.items result }
{
    match clause.iter().find(|m| search.trail.is_open(**m)) {
        Some(m) => Next::Decide(*m),
        None => Next::Clash(None),
    }
}

// Writes the values out, and holds them against each clause and each assumption.
// Kept as it is: `given` and `out` beside each other. A struct of both with a ghost field was tried: the proof didn't close on what
// `out` holds after the struct's last use.
pub fn conclude(search: &Search, given: &[u16], out: &mut [u8]) -> Next
    requires asks { Question search.now.facts.store.row.items given.now (length out.old) }
    requires assumed { (i : ℕ) → i < length given.now → (j : ℕ) × (j < length search.now.trail.steps.items) × (literal_at search.now.trail.steps.items j ≡ slice_index given.now i) }
    ensures { Concluded search.now.facts.store.row.items given.now search.now.trail.values search.now.trail.steps.items out.new result }
{
    write(&search.trail, out);
    if let Some(clause) = unmet(search.facts.store.row(), out) {
        return reopen(search, out, clause);
    }
    let Some(g) = denied(given, out) else {
        return Next::Yes;
    };
    if !search.trail.is_open(g) {
        return Next::Clash(None);
    }
    Next::Decide(g)
}
