// A session, as it lies in memory that its caller lends.
ghost use Rattle.std.specs.Prelude.{◌≤◌};

use unknowns::table::{Case, MOST, Table};

// The most goals of a problem.
pub(crate) const MOST_GOALS: usize = 32;

// A session that has begun.
#[derive(Drop)]
pub(crate) struct Begun {
    // How many goals the problem has, and which of them are in force.
    pub(crate) goals: usize,
    pub(crate) force: [bool; MOST_GOALS],
    pub(crate) table: Table,
    // The chooser's count of variables and its entries left, as last seen.
    pub(crate) count: u16,
    pub(crate) left: usize,
    // The cases of the last way, and whether they are a model at hand.
    // Kept as it is: a flag beside the cases and no Option of them, since a search writes them where they lie.
    pub(crate) cases: [Option<Case>; MOST],
    pub(crate) model: bool,
    ghost few: { goals ≤ 32 },
}

// Its calls change it where it lies; nothing is allocated.
#[derive(Drop)]
pub struct Session {
    pub(crate) begun: Option<Begun>,
}

impl Session {
    ghost use Rattle.histories.specs.States.{not_begun};
    ghost use Rattle.sessions.specs.Shown.{Shows};

    // A session that has not begun.
    pub fn new() -> Session
        ensures { Shows result not_begun }
    {
        Session { begun: None }
    }
}
