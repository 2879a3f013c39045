// What a round's question assumes: the switches of the goals in force, and the denials to a depth.
#![tactic(auto)]

ghost use Rattle.std.specs.Prelude.{◌≡◌, ◌≤◌, length};
ghost use Rattle.problem.specs.Meant.{meant};
ghost use Rattle.assuming.specs.Assumes.{Assumes};

mod denials;
mod switches;
mod writer;

use crate::writer::LiteralWriter;
use problem::problem::Problem;
use unknowns::table::Table;

// How many literals were written: those of switches, which stand first, and all.
#[derive(Clone, Copy)]
pub struct Assumed {
    pub switches: usize,
    pub all: usize,
}

// Writes what is assumed of a way that goes by the goals in force and no deeper than the depth: the switches of these goals, in
// order, and then, in the order of the table, the denials of the cases that reach beyond the depth.
// There are no more literals than variables, so memory for a literal each is enough; what has no room is left out.
pub fn assume(
    problem: &Problem,
    table: &Table,
    force: &[bool; 32],
    depth: usize,
    literals: &mut [u16],
) -> Assumed
    ensures fits { (result.switches ≤ result.all) × ((result.all ≤ length literals.new) × (length literals.new ≡ length literals.old)) }
    ensures says { Assumes (meant problem.now) table.now force.now depth literals.old literals.new result }
{
    let mut writer = LiteralWriter::new(literals);
    writer.push_switches(problem, force);
    let switches = writer.len();
    writer.push_denials(problem, &table.rows[..table.len], depth);
    Assumed {
        switches,
        all: writer.len(),
    }
}
