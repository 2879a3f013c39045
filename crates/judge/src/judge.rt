// The judge.

use problem::problem::Problem;

// What is judged by: a problem, and what decides its unknowns.
// Kept as it is: `because` goes beside it, since an explanation is now the caller's and now one of its own; and `left` does, since
// behind a `&mut self` each of the nine contracts would also have to say that problem and decider stay.
#[derive(Drop)]
pub struct Judge<'a, D> {
    pub problem: &'a Problem,
    pub decider: &'a D,
}
