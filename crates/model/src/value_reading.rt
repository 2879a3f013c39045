// Reads the values in model bytes.
ghost use Rattle.std.specs.Prelude.{◌≡◌, ℕ, ◌+◌, ◌<◌, ◌≤◌, length, Ok, slice_index};
ghost use Rattle.syntax.specs.Problems.{sig_of};
ghost use Rattle.model.specs.Reading.{there, top_of, value_end, start_of};
ghost use Rattle.model.specs.Within.{Within, Topped};

use crate::declares::Declares;
use syntax::faults::{Fault, Reason};

// The bytes that open a part of a value, and that write a constructor.
// Kept as it is: two bytes and no Tag, since the tags of terms have none for the first.
const OPEN: u8 = 8;

pub(crate) const CONSTRUCTOR: u8 = 2;

// Reads a value of a problem's types in the record that starts at `mark`.
#[derive(Drop)]
pub struct ValueReader<'a, P> {
    pub problem: &'a P,
    pub bytes: &'a [u8],
    pub mark: usize,
    ghost short: { length bytes.now ≤ 16384 },
}

impl<P: Declares> ValueReader<'_, P> {
    // The byte at a place; a record that lacks it goes past the end, at its mark.
    // Kept as it is: `byte` of crates/records moves its reader on, and this one looks at any place, as the definition of model bytes
    // does; what the two could share is the one look-up and its fault.
    fn byte(&self, place: usize) -> Result<u8, Fault>
        ensures { result ≡ there self.now.bytes.now self.now.mark place (Ok (slice_index self.now.bytes.now place)) }
    {
        let byte = self.bytes.get(place).copied();
        byte.ok_or(Reason::PastEnd.at(self.mark))
    }

    // The place of the record's value, if the record is that of the unknown with this number.
    pub fn start(&self, number: usize) -> Result<usize, Fault>
        requires { self.now.mark ≤ 16384 }
        ensures exact { result ≡ start_of self.now.bytes.now number self.now.mark }
        ensures within { Within self.now.mark (length self.now.bytes.now) result }
    {
        let place = self.mark;
        let rest = self.bytes.get(place..).unwrap_or(&[]);
        if !rest.starts_with(b"MD") {
            return Err(Reason::NoMark.at(place));
        }
        let k = self.byte(place + 2)?;
        if k as usize != number {
            return Err(Reason::BadTerm.at(place + 2));
        }
        Ok(place + 3)
    }

    // The constructor of the value of the type `ty` that stands at a place; none if it is open.
    fn top(&self, ty: u8, place: usize) -> Result<Option<u8>, Fault>
        requires { place ≤ 16384 }
        ensures exact { result ≡ top_of (sig_of (P.declares self.now.problem.now)) self.now.bytes.now self.now.mark ty place }
        ensures within { Topped place (length self.now.bytes.now) result }
    {
        let tag = self.byte(place)?;
        if tag == OPEN {
            return Ok(None);
        }
        if tag != CONSTRUCTOR {
            return Err(Reason::BadTerm.at(place));
        }
        if self.byte(place + 1)? != ty {
            return Err(Reason::BadTerm.at(place + 1));
        }
        let constructor = self.byte(place + 2)?;
        if constructor >= self.problem.constructor_count(ty) {
            return Err(Reason::BadTerm.at(place + 2));
        }
        Ok(Some(constructor))
    }

    // Where the value of the type `ty` ends that stands at a place.
    pub fn value_end(&self, ty: u8, place: usize) -> Result<usize, Fault>
        requires { place ≤ length self.now.bytes.now }
        ensures within { Within place (length self.now.bytes.now) result }
        ensures exact { (n : ℕ) → length self.now.bytes.now ≤ place + n → result ≡ value_end n (sig_of (P.declares self.now.problem.now)) self.now.bytes.now self.now.mark ty place }
    {
        match self.top(ty, place)? {
            None => Ok(place + 1),
            Some(constructor) => {
                let mut end = place + 3;
                for argument in self.problem.argument_types(ty, constructor) {
                    end = self.value_end(*argument, end)?;
                }
                Ok(end)
            }
        }
    }
}
