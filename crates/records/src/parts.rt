// The parts of which records are made. Each call takes the place of the record's mark, where a record that goes past the end is refused.
ghost use Rattle.std.specs.Prelude.{◌≡◌, ◌++◌, IfOk};
ghost use Rattle.syntax.specs.Problems.{encode_part};
ghost use Rattle.records.specs.Reading.{byte_of, bytes_of, list_of, lists_of, part_of, starts as starts_with};
ghost use Rattle.records.specs.Next.{count_of, lists_in, Lists};
ghost use Rattle.records.specs.Readers.{ahead_of, Takes};

use crate::next::Mark;
use crate::reader::Reader;
use syntax::faults::{Fault, Reason};
use syntax::limits::MOST_ARGUMENTS;

// Kept as it is: the mark goes with each call, since a reader lasts for many records and a part stands in one. (A reader of a
// model's bytes has one mark for all that it reads, and holds it.)
// Kept as it is: a call of several parts works on a copy and commits once, here and in `read`, since each promises that a refusal
// leaves the reader as it was.

impl<'a> Reader<'a> {
    // Are the next two bytes this mark?
    pub(crate) fn starts(&self, mark: Mark) -> bool
        ensures { result ≡ starts_with mark.high mark.low (ahead_of self.now) }
    {
        self.bytes[self.at..].starts_with(&[mark.high, mark.low])
    }

    pub(crate) fn byte(&mut self, mark: usize) -> Result<u8, Fault>
        ensures { Takes (byte_of mark (ahead_of self.old) self.old.at) (λ b. b) self.old self.new result }
    {
        let Some(byte) = self.bytes.get(self.at) else {
            return Err(Reason::PastEnd.at(mark));
        };
        self.at += 1;
        Ok(*byte)
    }

    // The next n bytes.
    pub(crate) fn take(&mut self, mark: usize, n: usize) -> Result<&'a [u8], Fault>
        ensures { Takes (bytes_of mark n (ahead_of self.old) self.old.at) (λ p. p.now) self.old self.new result }
    {
        let Some(part) = self.bytes[self.at..].get(..n) else {
            return Err(Reason::PastEnd.at(mark));
        };
        self.at += n;
        Ok(part)
    }

    // A length of two bytes, the high one first, and that many bytes.
    pub(crate) fn part(&mut self, mark: usize) -> Result<&'a [u8], Fault>
        ensures takes { Takes (part_of mark (ahead_of self.old) self.old.at) (λ p. p.now) self.old self.new result }
        ensures written { IfOk result (λ p. ahead_of self.old ≡ encode_part p.now ++ ahead_of self.new) }
    {
        let mut ahead = *self;
        let high = ahead.byte(mark)?;
        let low = ahead.byte(mark)?;
        let part = ahead.take(mark, usize::from(u16::from_be_bytes([high, low])))?;
        *self = ahead;
        Ok(part)
    }

    // A count within these limits.
    pub(crate) fn count(&mut self, mark: usize, least: u8, most: u8) -> Result<u8, Fault>
        ensures { Takes (count_of least most mark (ahead_of self.old) self.old.at) (λ n. n) self.old self.new result }
    {
        let mut ahead = *self;
        let count = ahead.byte(mark)?;
        if count < least || count > most {
            return Err(Reason::BadCount.at(self.at));
        }
        *self = ahead;
        Ok(count)
    }

    // A count of at most six, and that many types.
    pub(crate) fn list(&mut self, mark: usize) -> Result<&'a [u8], Fault>
        ensures { Takes (list_of mark (ahead_of self.old) self.old.at) (λ p. p.now) self.old self.new result }
    {
        let mut ahead = *self;
        let count = ahead.count(mark, 0, MOST_ARGUMENTS as u8)?;
        let types = ahead.take(mark, usize::from(count))?;
        *self = ahead;
        Ok(types)
    }

    // So many lists one after another, as the part of the bytes that they are.
    pub(crate) fn lists(&mut self, mark: usize, count: u8) -> Result<&'a [u8], Fault>
        ensures takes { Takes (lists_of mark count (ahead_of self.old) self.old.at) (λ p. lists_in count p.now) self.old self.new result }
        ensures written { IfOk result (λ p. (ahead_of self.old ≡ p.now ++ ahead_of self.new) × Lists count p.now) }
    {
        let mut ahead = *self;
        for _ in 0..count {
            ahead.list(mark)?;
        }
        let part = &self.bytes[self.at..ahead.at];
        *self = ahead;
        Ok(part)
    }
}
