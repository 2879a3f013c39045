ghost use Rattle.std.specs.Prelude.{◌≡◌, ℕ, ◌≤◌, true, List, length, IfOk};
ghost use Rattle.trail.specs.Trails.{Grew};
ghost use Rattle.outcome.specs.Outcome.{Question};
ghost use Rattle.decisions.specs.Plans.{Planned, Chosen};

use activity::Order;
use analyze::Analyzer;
use decisions::{Plan, begin, choose, cut_back, settle};
use forget::forget;
use implied::{Facts, Pool, Room};
use outcome::Next;
use propagate::Watches;
use rows::{ClauseStore, MOST_ENTRIES};
use std::alloc::{AllocError, Global};
use trail::{Search, Trail};

// Room for learned clauses: numbers, and clauses.
const LEARNED: usize = 262144;

const CLAUSES: usize = 16384;

// What is kept of the clauses and of the clashes so far.
#[derive(Clone, Copy, Drop)]
pub(crate) struct Tally {
    // How many clauses of the pool are learned; once these are `limit`, some are forgotten.
    pub learned: usize,
    pub limit: usize,
    // How many numbers of the pool what is learned leaves to clauses that are added.
    pub reserved: usize,
    pub clashes: u32,
}

// A search that keeps what it learns, and all that it works with. Its memory is reserved once, when it is made.
#[derive(Drop)]
pub struct Solver {
    pub search: Search,
    // Room to sort the pool's clauses out.
    spare: Pool,
    pub(crate) watches: Watches,
    pub(crate) analyzer: Analyzer,
    pub(crate) order: Order,
    pub(crate) tally: Tally,
}

impl Solver {
    // Makes a solver for the clauses that the store will have.
    pub fn new(heap: Global, store: ClauseStore) -> Result<Solver, AllocError>
        ensures { IfOk result (λ s. s.search.facts.store ≡ store) }
    {
        let entries = store.entries_left().min(MOST_ENTRIES);
        let room = Room {
            numbers: entries + LEARNED,
            clauses: entries / 3 + CLAUSES,
        };
        let facts = Facts::new(heap, store, room)?;
        Ok(Solver {
            search: Search::new(heap, facts)?,
            spare: Pool::new(heap, room)?,
            watches: Watches::new(heap, room.clauses)?,
            analyzer: Analyzer::new(heap)?,
            order: Order::new(heap)?,
            tally: Tally {
                learned: 0,
                limit: 500,
                reserved: entries,
                clashes: 0,
            },
        })
    }

    // Begins a search over the first `n` variables: what is known true stands on the trail.
    pub fn begin(&mut self, n: usize) -> Plan
        ensures facts { self.new.search.facts ≡ self.old.search.facts }
        ensures planned { (given : List ℕ) → Planned given self.new.search.trail.steps.items result }
    {
        self.order.refill(&self.search.trail, n);
        begin(&mut self.search);
        Plan {
            next: 0,
            firm: 0,
            queue: 0,
            fixed: self.search.trail.steps.len(),
        }
    }

    // Propagates, and chooses what comes next.
    // Kept as it is: `given` and `out` beside each other, as in `conclude` of outcome, which says why.
    pub fn advance(&mut self, given: &[u16], plan: &mut Plan, out: &mut [u8]) -> Next
        requires planned { Planned given.now self.old.search.trail.steps.items plan.old }
        requires asks { Question self.old.search.facts.store.row.items given.now (length out.old) }
        ensures store { self.new.search.facts.store ≡ self.old.search.facts.store }
        ensures pool { self.new.search.facts.pool ≡ self.old.search.facts.pool }
        ensures planned { Planned given.now self.new.search.trail.steps.items plan.new }
        ensures grew { Grew self.old.search.trail.steps.items self.new.search.trail.steps.items }
        ensures chosen { Chosen self.new.search given.now plan.new out.new result }
    {
        let clash = self.watches.propagate(&mut self.search, plan.queue);
        plan.queue = self.search.trail.steps.len();
        settle(&mut self.search, plan);
        if clash.is_some() {
            return Next::Clash(clash);
        }
        choose(&self.search, given, &mut self.order, plan, out)
    }

    // Begins anew behind the assumptions; once enough was learned, at the start, and forgets what is not worth keeping.
    pub fn restart(&mut self, given: &[u16], plan: &mut Plan)
        requires { Planned given.now self.old.search.trail.steps.items plan.old }
        ensures store { self.new.search.facts.store ≡ self.old.search.facts.store }
        ensures off { self.new.search.facts.off ≡ self.old.search.facts.off }
        ensures planned { Planned given.now self.new.search.trail.steps.items plan.new }
    {
        let first = first_decision(&self.search.trail);
        if self.tally.learned < self.tally.limit {
            let k = first.max(plan.firm);
            cut_back(&mut self.search, given, &mut self.order, plan, k);
            return;
        }
        cut_back(&mut self.search, given, &mut self.order, plan, first);
        let now = self.tally.clashes;
        let window = 400 + now / 12;
        let learned = forget(
            &mut self.search,
            &mut self.spare,
            &mut self.watches,
            now,
            window,
        );
        self.tally.learned = learned;
        self.tally.limit = learned.saturating_add(300);
        self.watches.watch_all(&self.search);
        plan.queue = 0;
    }
}

// Returns the place of the first decision, or the trail's length where there is none.
fn first_decision(trail: &Trail) -> usize
    ensures { result ≤ length trail.now.steps.items }
{
    let len = trail.steps.len();
    match trail.decisions.first() {
        Some(place) => (*place as usize).min(len),
        None => len,
    }
}
