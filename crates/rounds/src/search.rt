// A search: what is asked for, and what it works with.

use held::places::Place;
use problem::problem::Problem;

// What a search may spend.
#[derive(Clone, Copy)]
pub struct Limits {
    // No value deeper than this is looked for.
    pub depth: usize,
    pub rounds: usize,
    // The steps of each judging.
    pub steps: usize,
}

// The problem, which of its goals are in force, and the limits.
#[derive(Drop)]
pub struct Search<'a> {
    pub problem: &'a Problem,
    pub force: &'a [bool; 32],
    pub limits: Limits,
}

// Memory that is lent beside the way: places for the judge, and a literal for each variable of the chooser.
// Kept as it is: the way goes beside it, since it is written while the literals are read, and the check covers no two fields of a
// struct that are lent at once.
#[derive(Drop)]
pub struct Lent<'a> {
    pub places: &'a mut [Place],
    pub literals: &'a mut [u16],
}
