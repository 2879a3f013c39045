// What a search decides next: the assumptions first, so that what is learned under them follows from the clauses alone, then
// other variables.
#![tactic(auto)]

ghost use Rattle.std.specs.Prelude.{◌≡◌, ℕ, ◌<◌, ◌≤◌, true, length, slice_index, MatchOption};
ghost use Rattle.rows.specs.declared.store.TheConstants.{MOST_LITERALS};
ghost use Rattle.trail.specs.Values.{Free};
ghost use Rattle.activity.specs.Cuts.{Kept};
ghost use Rattle.outcome.specs.Outcome.{Question};
ghost use Rattle.decisions.specs.Plans.{Forced, Planned, Assumed, Chosen};

use activity::{Order, unwind};
use implied::Facts;
use outcome::{Next, conclude};
use rows::{MOST_LITERALS, turned};
use trail::{Reason, Search, Trail, Value};

mod plan;

pub use plan::Plan;

// Puts the literals that are known true on an empty trail.
pub fn begin(search: &mut Search)
    ensures facts { search.new.facts ≡ search.old.facts }
    ensures forced { Forced search.new.trail.steps.items }
{
    search.clear();
    // Kept as it is: literals are numbers, and whether one is off is asked by its number.
    for l in 0..MOST_LITERALS as u16 {
        put_known(search, l);
    }
}

// Puts the literal on the trail, which has no decision, if its opposite is off.
fn put_known(search: &mut Search, l: u16)
    requires { Forced search.old.trail.steps.items }
    ensures facts { search.new.facts ≡ search.old.facts }
    ensures forced { Forced search.new.trail.steps.items }
{
    if search.facts.is_off(turned(l)) {
        search.push(l, Reason::Known);
    }
}

// Marks the literals behind the first `fixed` of the trail known that follow by clauses, as far as these show them.
fn fix_steps(facts: &mut Facts, trail: &Trail, fixed: usize)
    ensures store { facts.new.store ≡ facts.old.store }
    ensures pool { facts.new.pool ≡ facts.old.pool }
{
    let first = fixed.min(trail.steps.len());
    for step in &trail.steps[first..] {
        if let Reason::Clause(c) = step.reason {
            facts.fix(c, step.literal);
        }
    }
}

// Marks the literals of the trail behind the plan's `fixed` known, while nothing is decided.
pub fn settle(search: &mut Search, plan: &mut Plan)
    ensures store { search.new.facts.store ≡ search.old.facts.store }
    ensures pool { search.new.facts.pool ≡ search.old.facts.pool }
    ensures trail { search.new.trail ≡ search.old.trail }
    ensures next { plan.new.next ≡ plan.old.next }
    ensures firm { plan.new.firm ≡ plan.old.firm }
{
    if search.trail.levels() > 0 {
        return;
    }
    fix_steps(&mut search.facts, &search.trail, plan.fixed);
    plan.fixed = search.trail.steps.len();
}

// Goes over the assumptions: the first one that is not true is to be decided, and where it is false no way is left.
fn assume(search: &Search, given: &[u16], plan: &mut Plan) -> Option<Next>
    requires small { (i : ℕ) → i < length given.now → slice_index given.now i < MOST_LITERALS }
    requires planned { Planned given.now search.now.trail.steps.items plan.old }
    ensures planned { Planned given.now search.now.trail.steps.items plan.new }
    ensures assumed { MatchOption result (plan.new.next ≡ length given.now) (Assumed search.now given.now) }
{
    for g in &given[plan.next..] {
        match search.trail.value(*g) {
            Some(Value::True) => {
                plan.next += 1;
                plan.firm = search.trail.steps.len();
            }
            Some(Value::False) => return Some(Next::No),
            _ => return Some(Next::Decide(*g)),
        }
    }
    None
}

// Chooses what to decide; where nothing is left to decide, holds the values against the clauses.
// Kept as it is: `given` and `out` beside each other, as in `conclude`, which says why.
pub fn choose(
    search: &Search,
    given: &[u16],
    order: &mut Order,
    plan: &mut Plan,
    out: &mut [u8],
) -> Next
    requires asks { Question search.now.facts.store.row.items given.now (length out.old) }
    requires planned { Planned given.now search.now.trail.steps.items plan.old }
    ensures planned { Planned given.now search.now.trail.steps.items plan.new }
    ensures chosen { Chosen search.now given.now plan.new out.new result }
{
    if let Some(next) = assume(search, given, plan) {
        return next;
    }
    if let Some(l) = order.pick(&search.trail) {
        return Next::Decide(l);
    }
    conclude(search, given, out)
}

// Cuts the trail at the place `k`.
// Kept as it is: the search and the order, which the solver has. A method of the solver would have to promise of what else it has
// that it stays.
pub fn cut_back(search: &mut Search, given: &[u16], order: &mut Order, plan: &mut Plan, k: usize)
    requires planned { Planned given.now search.old.trail.steps.items plan.old }
    requires within { k ≤ length search.old.trail.steps.items }
    ensures planned { Planned given.now search.new.trail.steps.items plan.new }
    ensures kept { Kept search.old search.new k }
{
    unwind(search, order, k);
    plan.queue = k;
    if k < plan.firm {
        plan.next = 0;
        plan.firm = 0;
    }
}
