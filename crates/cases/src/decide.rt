// Reads off a way which case each opened unknown has.
ghost use Rattle.std.specs.Prelude.{◌≡◌, ◌≤◌, length};
ghost use Rattle.problem.specs.Meant.{meant};
ghost use Rattle.syntax.specs.Problems.{sig_of};
ghost use Rattle.syntax.specs.Typing.{cases_of};
ghost use Rattle.chooser.specs.Ways.{written};
ghost use Rattle.places.specs.Places.{offset};
ghost use Rattle.cases.specs.Decided.{OnlyCase, CaseWith, RowDecided, RowsDecided, DecidedBy};

use problem::problem::Problem;
use unknowns::table::{Case, Table, Unknown};

// An opened unknown has no case in the way, or more than one.
#[derive(Clone, Copy)]
pub struct NotOneCase;

// Whether the variable is 1 in the way, which has none past its end.
fn is_one(way: &[u8], variable: usize) -> bool
    ensures { result ≡ written way.now variable }
{
    way.get(variable).is_some_and(|byte| *byte == 1)
}

// The only case whose variable is 1, of `count` whose variables stand one after another from `first` on. None if there is no
// such case, or more than one.
fn only_case(way: &[u8], first: u16, count: u8) -> Option<u8>
    ensures { OnlyCase (written way.now) first count result }
{
    let mut only = None;
    for case in 0..count {
        if is_one(way, usize::from(first) + usize::from(case)) {
            if only.is_some() {
                return None;
            }
            only = Some(case);
        }
    }
    only
}

// How many children stand before those of a constructor.
fn children_before(problem: &Problem, ty: u8, constructor: u8) -> u16
    ensures { result ≡ offset (cases_of (sig_of (meant problem.now)) ty) constructor }
{
    let mut before = 0;
    for earlier in 0..constructor {
        before += problem.arguments(ty, earlier).len() as u16;
    }
    before
}

// The case that a constructor gives an unknown of a type, whose children stand from `kids` on.
// Where a place passes 16 bits, no table has so many unknowns.
fn case_with(problem: &Problem, ty: u8, kids: u16, constructor: u8) -> Case
    ensures { CaseWith (cases_of (sig_of (meant problem.now)) ty) kids constructor result }
{
    let arguments = problem.arguments(ty, constructor);
    let before = children_before(problem, ty, constructor);
    Case {
        constructor,
        count: arguments.len() as u8,
        kids: kids.saturating_add(before),
    }
}

// The case of an unknown, which only an opened one has.
fn case_of(problem: &Problem, unknown: &Unknown, way: &[u8]) -> Result<Option<Case>, NotOneCase>
    ensures { RowDecided (cases_of (sig_of (meant problem.now)) unknown.now.ty) (written way.now) unknown.now result }
{
    let Some(first) = unknown.first else {
        return Ok(None);
    };
    let count = problem.constructors(unknown.ty);
    let constructor = only_case(way, first, count).ok_or(NotOneCase)?;
    Ok(Some(case_with(problem, unknown.ty, unknown.kids, constructor)))
}

// Puts down the case of each row.
fn decide_rows(
    problem: &Problem,
    rows: &[Unknown],
    way: &[u8],
    cases: &mut [Option<Case>; 512],
) -> Result<(), NotOneCase>
    requires { length rows.now ≤ 512 }
    ensures { RowsDecided (meant problem.now) rows.now (written way.now) cases.new result }
{
    for (place, unknown) in rows.iter().enumerate() {
        cases[place] = case_of(problem, unknown, way)?;
    }
    Ok(())
}

// Puts down the case of each unknown of the table, and answers whether each opened one has exactly one.
pub fn decide(problem: &Problem, table: &Table, way: &[u8], cases: &mut [Option<Case>; 512]) -> bool
    ensures { DecidedBy (meant problem.now) table.now way.now cases.new result }
{
    decide_rows(problem, &table.rows[..table.len], way, cases).is_ok()
}
