// Which variable to decide next: the open one that took part in the most clashes lately, at the value that it last had. Of
// the order nothing is claimed, but that what it picks is open.
#![tactic(auto)]

ghost use Rattle.std.specs.Prelude.{◌≤◌, length};
ghost use Rattle.activity.specs.Cuts.{Kept};

use trail::Search;

mod order;

pub use order::Order;

// Takes the literals of the trail from the place `k` on back, keeps their values, and puts their variables into the heap.
pub fn unwind(search: &mut Search, order: &mut Order, k: usize)
    requires { k ≤ length search.old.trail.steps.items }
    ensures { Kept search.old search.new k }
{
    while search.trail.steps.len() > k {
        order.release(search.pop());
    }
}
