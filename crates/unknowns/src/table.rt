// The table of unknowns. The problem's own stand first; an opening appends children.
ghost use Rattle.std.specs.Prelude.{◌≤◌};

use problem::problem::Problem;

// The most unknowns that a table holds.
pub const MOST: usize = 512;

// The level of the problem's own unknowns.
const FIRST_LEVEL: u16 = 1;

// An unknown: its type and its level; once it is opened, its first variable and the place of its first child.
// Kept as it is: a place of children beside the Option, since the relation of crates/places gives every unknown one.
#[derive(Clone, Copy)]
pub struct Unknown {
    pub ty: u8,
    pub level: u16,
    pub first: Option<u16>,
    pub kids: u16,
}

// Kept as it is: an array with a length beside it, since a session lies in memory that its caller lends.
#[derive(Clone, Copy)]
pub struct Table {
    pub len: usize,
    pub rows: [Unknown; 512],
    ghost few: { len ≤ 512 },
}

// The case that a way gives an opened unknown: its constructor, and where its children stand, of which there are at most six.
#[derive(Clone, Copy)]
pub struct Case {
    pub constructor: u8,
    pub count: u8,
    pub kids: u16,
    ghost few: { count ≤ 6 },
}

impl Unknown {
    // What fills the rows that are not in use.
    const BLANK: Unknown = Unknown {
        ty: 0,
        level: 0,
        first: None,
        kids: 0,
    };
}

impl Table {
    ghost use Rattle.std.specs.Prelude.{◌≡◌, ◌+◌, ◌++◌, length, map};
    ghost use Rattle.problem.specs.Meant.{meant};
    ghost use Rattle.finder.specs.Tables.{first_table};
    ghost use Rattle.unknowns.specs.Listing.{Stands};
    ghost use Rattle.unknowns.specs.Opening.{rows_of, unopened};

    // The table of the problem's own unknowns, of which none is opened.
    pub fn new(problem: &Problem) -> Table
        ensures { Stands (meant problem.now) result (first_table (meant problem.now)) (length (meant problem.now).goals) }
    {
        let mut table = Table {
            len: 0,
            rows: [Unknown::BLANK; MOST],
        };
        table.append(problem.unknowns(), FIRST_LEVEL);
        table
    }

    // Appends an unknown of each of these types, not opened, all at one level.
    pub(crate) fn append(&mut self, types: &[u8], level: u16)
        requires { self.old.len + length types.now ≤ 512 }
        ensures len { self.new.len ≡ self.old.len + length types.now }
        ensures rows { rows_of self.new ≡ rows_of self.old ++ map (unopened level) types.now }
    {
        for ty in types {
            self.rows[self.len] = Unknown {
                ty: *ty,
                level,
                ..Unknown::BLANK
            };
            self.len += 1;
        }
    }
}
