ghost use Rattle.std.specs.Prelude.{◌≡◌, ℕ, ◌+◌, ◌<◌, ◌⊎◌, length, slice_index, IfNone, IfSome};
ghost use Rattle.trail.specs.Values.{Refuted};
ghost use Rattle.propagate.specs.Visits.{Visited};

use trail::{Reason, Search, Trail};

// What a visit of a clause came to: its watch stays, moves to another literal, where the next search begins too, or the clause
// is false.
#[derive(Clone, Copy, PartialEq, Eq, Debug)]
pub(crate) enum Visit {
    Stays,
    Moves { literal: u16, from: u16 },
    Clashes,
}

// Returns the first place of a literal that is neither `other` nor false.
pub(crate) fn scan(literals: &[u16], trail: &Trail, other: u16) -> Option<usize>
    ensures within { IfSome result (λ i. i < length literals.now) }
    ensures none { IfNone result ((i : ℕ) → i < length literals.now → (slice_index literals.now i ≡ other) ⊎ Refuted trail.now.values (slice_index literals.now i)) }
{
    literals
        .iter()
        .position(|m| *m != other && !trail.is_false(*m))
}

// Returns the place of a literal that is not false, or the last one where there is none.
pub(crate) fn unfalse(literals: &[u16], trail: &Trail) -> usize
    requires { 0 < length literals.now }
    ensures { result < length literals.now }
{
    literals
        .iter()
        .position(|m| !trail.is_false(*m))
        .unwrap_or(literals.len() - 1)
}

// Visits the clause `c`, of which the literals watched are `other` and one that is false. Puts `other` on the trail where the
// other literals are false. The search for another literal begins at the place `from`, where the last one ended.
pub(crate) fn visit_clause(search: &mut Search, c: u32, other: u16, from: u16) -> Visit
    ensures { Visited search.old search.new result }
{
    let facts = &search.facts;
    let trail = &search.trail;
    let Some(clause) = facts.pool.clause(c) else {
        return Visit::Stays;
    };
    let from = (from as usize).min(clause.len());
    let (front, back) = clause.split_at(from);
    if let Some(i) = scan(back, trail, other) {
        return Visit::Moves {
            literal: back[i],
            from: (from + i) as u16,
        };
    }
    if let Some(i) = scan(front, trail, other) {
        return Visit::Moves {
            literal: front[i],
            from: i as u16,
        };
    }
    if trail.is_false(other) {
        return Visit::Clashes;
    }
    let _ = search.push(other, Reason::Clause(c));
    Visit::Stays
}
