// Unknowns that cases decide.
ghost use Rattle.std.specs.Prelude.{◌≡◌};
ghost use Rattle.cases.specs.Cases.{children_of, by_cases};

use arrayvec::ArrayVec;
use judge::decides::{Children, Choice, Decides};
use unknowns::table::Case;

// Decides each unknown that has a case, by its place in the table.
#[derive(Drop)]
pub struct Cases<'a> {
    pub cases: &'a [Option<Case>],
}

// The places of a case's children, as far as 16 bits go: no table is longer.
fn children(case: &Case) -> ArrayVec<u16, 6>
    ensures { result.items ≡ children_of case.now }
{
    let mut children = ArrayVec::new();
    for child in case.kids..case.kids.saturating_add(u16::from(case.count)) {
        children.push(child);
    }
    children
}

impl Decides for Cases<'_> {
    ghost unknowns = { λ s. by_cases s.cases.now };

    fn root(&self, unknown: u8) -> u16 {
        u16::from(unknown)
    }

    fn choice(&self, unknown: u16) -> Option<Choice> {
        let case = (*self.cases.get(usize::from(unknown))?)?;
        Some(Choice {
            constructor: case.constructor,
            children: Children::new(children(&case).as_slice()),
        })
    }
}
