// Writes the model that the cases of a way make.
ghost use Rattle.std.specs.Prelude.{◌≡◌, OnErr};
ghost use Rattle.problem.specs.Meant.{meant};
ghost use Rattle.models.specs.Walks.{CaseAt, ValueWritten, ModelWritten};
ghost use Rattle.models.specs.Models.{WritesModel};

use arrayvec::{ArrayVec, CapacityError};
use problem::problem::Problem;
use unknowns::table::{Case, MOST, Table};

// The most bytes that a model has: three for each of a problem's 16 unknowns, and at most three for each of a table's.
pub const MOST_BYTES: usize = 3 * (16 + MOST);

// The bytes of a model, as far as they are written.
type Bytes = ArrayVec<u8, MOST_BYTES>;

// What stands before the type and the constructor of a value.
const BUILT: u8 = 2;

// What stands for an open part.
const OPEN: u8 = 8;

// The output has too few bytes.
#[derive(Clone, Copy)]
pub struct Short;

// A table of unknowns, with the cases of those that are decided.
#[derive(Drop)]
struct Decided<'a> {
    table: &'a Table,
    cases: &'a [Option<Case>],
}

impl Decided<'_> {
    // The type and the case of a decided unknown. Its children stand after it, so a walk from parent to child ends.
    fn case(&self, place: usize) -> Option<(u8, Case)>
        ensures { CaseAt self.now.table.now self.now.cases.now place result }
    {
        let unknown = self.table.rows.get(place)?;
        let case = (*self.cases.get(place)?)?;
        (place < usize::from(case.kids)).then_some((unknown.ty, case))
    }

    // Appends the value of an unknown. It ends whatever the table and the cases are, soon: each value takes room.
    fn write_value(&self, place: usize, bytes: &mut Bytes) -> Result<(), CapacityError>
        ensures { ValueWritten self.now.table.now self.now.cases.now place bytes.old.items bytes.new.items result }
    {
        let Some((ty, case)) = self.case(place) else {
            return bytes.try_extend_from_slice(&[OPEN]);
        };
        bytes.try_extend_from_slice(&[BUILT, ty, case.constructor])?;
        let kids = usize::from(case.kids);
        for child in kids..kids + usize::from(case.count) {
            self.write_value(child, bytes)?;
        }
        Ok(())
    }
}

// The bytes of the model: for each unknown of the problem a mark, its number and its value.
fn model_bytes(
    problem: &Problem,
    table: &Table,
    cases: &[Option<Case>],
) -> Result<Bytes, CapacityError>
    ensures { ModelWritten (meant problem.now) table.now cases.now result }
{
    let decided = Decided { table, cases };
    let mut bytes = ArrayVec::new();
    for unknown in 0..problem.unknowns().len() {
        bytes.try_extend_from_slice(&[b'M', b'D', unknown as u8])?;
        decided.write_value(unknown, &mut bytes)?;
    }
    Ok(bytes)
}

// Writes the model, and answers how many bytes it has. A refusal leaves the output as it was.
pub fn write_model(
    problem: &Problem,
    table: &Table,
    cases: &[Option<Case>],
    output: &mut [u8],
) -> Result<usize, Short>
    ensures writes { WritesModel (meant problem.now) table.now cases.now output.old output.new result }
    ensures refused { OnErr result (output.new ≡ output.old) }
{
    let Ok(bytes) = model_bytes(problem, table, cases) else {
        return Err(Short);
    };
    let bytes = bytes.as_slice();
    if output.len() < bytes.len() {
        return Err(Short);
    }
    output[..bytes.len()].copy_from_slice(bytes);
    Ok(bytes.len())
}
