// Forgetting learned clauses: those that are worth it are put into a spare pool, which then takes the pool's place.
#![tactic(auto)]

ghost use Rattle.std.specs.Prelude.{◌≡◌, []};
ghost use Rattle.implied.specs.Implied.{allowed, Met};

use implied::{Facts, Pool, Room};
use propagate::Watches;
use trail::Search;

// Puts the clauses that are worth keeping into the spare pool, which is empty. Returns how many of them are learned ones.
fn sift(facts: &Facts, spare: &mut Pool, watches: &mut Watches, now: u32, window: u32) -> usize
    requires { spare.old ≡ [] }
    ensures { Met (allowed facts.now.store.row.items) spare.new }
{
    let mut learned: usize = 0;
    // Kept as it is: clauses are asked for by number. For an iterator over a pool, as rows has it, the pool would have to say as well
    // that its run of numbers is the row of its clauses.
    for c in 0..u32::MAX {
        let Some(clause) = facts.pool.clause(c) else {
            break;
        };
        if watches.is_worth(c, now, window) {
            if let Some(to) = spare.push(clause, Room::NONE) {
                if watches.renumber(c, to) {
                    learned = learned.saturating_add(1);
                }
            }
        }
    }
    learned
}

// Forgets the learned clauses that are not worth keeping; the others get new numbers. Returns how many learned ones are left.
pub fn forget(
    search: &mut Search,
    spare: &mut Pool,
    watches: &mut Watches,
    now: u32,
    window: u32,
) -> usize
    ensures store { search.new.facts.store ≡ search.old.facts.store }
    ensures off { search.new.facts.off ≡ search.old.facts.off }
    ensures trail { search.new.trail ≡ search.old.trail }
{
    spare.clear();
    let learned = sift(&search.facts, spare, watches, now, window);
    search.facts.exchange(spare);
    learned
}
