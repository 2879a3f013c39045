// The clauses of a row, in their order.
ghost use Rattle.std.specs.Prelude.{◌≡◌};

#[derive(Clone, Copy, Drop)]
pub struct ClauseIter<'a> {
    rest: &'a [u16],
}

impl<'a> ClauseIter<'a> {
    ghost use Rattle.rows.specs.Clauses.{clauses_left};
    ghost use Rattle.rows.specs.Rows.{clauses_of};

    pub fn new(row: &'a [u16]) -> ClauseIter<'a>
        ensures { clauses_left result ≡ clauses_of row.now }
    {
        ClauseIter { rest: row }
    }
}

impl<'a> Iterator for ClauseIter<'a> {
    ghost use Rattle.std.specs.Iterator.{YieldsFirstRef, item_count};
    ghost use Rattle.rows.specs.Clauses.{clauses_left};

    type Item = &'a [u16];

    ghost next_gives = { YieldsFirstRef clauses_left };

    ghost remaining = { item_count clauses_left };

    fn next(&mut self) -> Option<&'a [u16]> {
        let (length, behind) = self.rest.split_first()?;
        // A row that ends within its last clause has that clause as far as it goes.
        let (clause, rest) = behind.split_at(behind.len().min(*length as usize));
        self.rest = rest;
        Some(clause)
    }
}
