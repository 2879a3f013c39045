// The unknowns that model bytes decide.
ghost use Rattle.std.specs.Prelude.{◌≡◌, ◌≤◌, length};
ghost use Rattle.syntax.specs.Problems.{sig_of};
ghost use Rattle.model.specs.Reading.{places_from};
ghost use Rattle.model.specs.Places.{starts_from, decided_by};
ghost use Rattle.model.specs.Models.{Placed, Read};

use crate::declares::Declares;
use crate::model::Model;
use crate::value_reading::{CONSTRUCTOR, ValueReader};
use arrayvec::ArrayVec;
use judge::decides::{Children, Choice, Decides};
use syntax::faults::{Fault, Reason};
use syntax::limits::{MOST_ARGUMENTS, MOST_BYTES, MOST_UNKNOWNS};

// Reads model bytes: a value for each unknown of the problem in order, and nothing after.
pub fn read_model<'a, P: Declares>(problem: &'a P, bytes: &'a [u8]) -> Result<Model<'a, P>, Fault>
    ensures { Read (P.declares problem.now) problem.now bytes.now result }
{
    if bytes.len() > MOST_BYTES {
        return Err(Reason::TooLong.at(MOST_BYTES));
    }
    let roots = read_roots(problem, bytes)?;
    Ok(Model {
        problem,
        bytes,
        roots,
    })
}

// The places of the values.
fn read_roots<P: Declares>(problem: &P, bytes: &[u8]) -> Result<ArrayVec<u16, MOST_UNKNOWNS>, Fault>
    requires { length bytes.now ≤ 16384 }
    ensures { Placed (places_from (sig_of (P.declares problem.now)) bytes.now 0 (P.declares problem.now).unknowns 0) result }
{
    let mut roots = ArrayVec::new();
    let mut mark = 0;
    let types = problem.unknown_types();
    for (number, ty) in types.iter().enumerate() {
        let reader = ValueReader {
            problem,
            bytes,
            mark,
        };
        let value = reader.start(number)?;
        roots.push(value as u16);
        mark = reader.value_end(*ty, value)?;
    }
    if mark < bytes.len() {
        return Err(Reason::BytesAfter.at(mark));
    }
    Ok(roots)
}

impl<P: Declares> Model<'_, P> {
    // Where the values start, of these types, that stand one after another from a place on. In a model that was read, they
    // do not fail.
    fn starts(&self, types: &[u8], place: usize) -> ArrayVec<u16, MOST_ARGUMENTS>
        requires few { length types.now ≤ 6 }
        requires low { place ≤ length self.now.bytes.now }
        ensures { result.items ≡ starts_from (sig_of (P.declares self.now.problem.now)) self.now.bytes.now types.now place }
    {
        let reader = ValueReader {
            problem: self.problem,
            bytes: self.bytes,
            mark: 0,
        };
        let mut starts = ArrayVec::new();
        let mut next = place;
        for ty in types {
            starts.push(next as u16);
            next = reader.value_end(*ty, next).unwrap_or(next);
        }
        starts
    }
}

impl<P: Declares> Decides for Model<'_, P> {
    ghost unknowns = { λ s. decided_by (P.Declares.declares s.problem.now) s.bytes.now s.roots.items };

    // Kept as it is: 0 for what is no unknown, as the trait's meaning answers every number.
    fn root(&self, unknown: u8) -> u16 {
        let root = self.roots.as_slice().get(usize::from(unknown));
        root.copied().unwrap_or(0)
    }

    fn choice(&self, unknown: u16) -> Option<Choice> {
        let place = usize::from(unknown);
        let Some([CONSTRUCTOR, ty, constructor, ..]) = self.bytes.get(place..) else {
            return None;
        };
        let types = self.problem.argument_types(*ty, *constructor);
        let starts = self.starts(types, place + 3);
        Some(Choice {
            constructor: *constructor,
            children: Children::new(starts.as_slice()),
        })
    }
}
