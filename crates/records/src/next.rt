// The next record of a kind. A refusal leaves the reader as it was.
ghost use Rattle.std.specs.Prelude.{◌≡◌, ℕ, ◌+◌, List, ◌∷◌, ◌++◌, Result, IfOk};
ghost use Rattle.syntax.specs.declared.faults.Fault.{Fault};
ghost use Rattle.records.specs.Reading.{Read, end_of};
ghost use Rattle.records.specs.Next.{next};
ghost use Rattle.records.specs.Readers.{ahead_of, Takes, Hands, Enters};

use crate::reader::Reader;
use syntax::faults::{Fault, Reason};

// The two bytes with which a record begins.
#[derive(Clone, Copy)]
pub struct Mark {
    pub high: u8,
    pub low: u8,
}

const END: Mark = Mark {
    high: b'E',
    low: b'N',
};

// A kind of record: its mark, and what stands behind it.
pub trait Record<'a>: Sized {
    ghost high: { ℕ };

    ghost low: { ℕ };

    // What a record says, how it is read from behind its mark, and how it is written, mark and all.
    ghost Meaning: { Type 0 };

    ghost meaning: { Self → Meaning };

    ghost reading: { ℕ → List ℕ → ℕ → Result (Read Meaning) Fault };

    ghost writing: { Meaning → List ℕ };

    // Holds of a place and each record whose mark stands there.
    ghost IsAt: { ℕ → Self → Type 0 };

    fn mark() -> Mark
        ensures high { result.high ≡ high }
        ensures low { result.low ≡ low };

    // Reads what stands behind the mark at this place.
    fn read(reader: &mut Reader<'a>, mark: usize) -> Result<Self, Fault>
        requires { reader.old.at ≡ mark + 2 }
        ensures takes { Takes (reading mark (ahead_of reader.old) reader.old.at) meaning reader.old reader.new result }
        ensures written { IfOk result (λ x. high ∷ (low ∷ ahead_of reader.old) ≡ writing (meaning x) ++ ahead_of reader.new) }
        ensures is_at { IfOk result (IsAt mark) };
}

impl<'a> Reader<'a> {
    // Passes the mark, if it stands here. With room for no more records, it is one too many.
    fn enter(&mut self, mark: Mark, room: usize) -> Result<bool, Fault>
        ensures { Enters self.old mark.high mark.low room self.new result }
    {
        if !self.starts(mark) {
            return Ok(false);
        }
        if room == 0 {
            return Err(Reason::BadCount.at(self.at));
        }
        self.at += 2;
        Ok(true)
    }

    // The next record of a kind, if its mark stands here; `room` is how many more there may be.
    pub fn next<R: Record<'a>>(&mut self, room: usize) -> Result<Option<R>, Fault>
        ensures { Hands (next R.reading R.high R.low room (ahead_of self.old) self.old.at) R.meaning R.writing (R.IsAt self.old.at) self.old self.new result }
    {
        let mark = self.at;
        let mut inside = *self;
        if !inside.enter(R::mark(), room)? {
            return Ok(None);
        }
        let record = R::read(&mut inside, mark)?;
        *self = inside;
        Ok(Some(record))
    }

    // The end record, and nothing after it.
    pub fn end(&self) -> Result<(), Fault>
        ensures { result ≡ end_of tt (ahead_of self.now) self.now.at }
    {
        if !self.starts(END) {
            return Err(Reason::NoMark.at(self.at));
        }
        if self.bytes.len() - self.at > 2 {
            return Err(Reason::BytesAfter.at(self.at + 2));
        }
        Ok(())
    }
}
