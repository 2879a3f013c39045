// Why and where bytes are refused.
ghost use Rattle.std.specs.Prelude.{◌≡◌, Some};
ghost use Rattle.syntax.specs.Faults.{number_of, layer_of, fault, layer_text, fault_text};

use std::error::Error;
use std::fmt;

// The reasons, each with the number by which it is reported.
#[derive(Clone, Copy, PartialEq, Eq, Debug)]
pub enum Reason {
    TooLong = 1, // more than 16,384 bytes
    NoMark = 2, // a wrong or a missing mark
    PastEnd = 3, // a record that goes past the end of the bytes
    BadCount = 4, // a count outside its limit, or a record too many
    Undeclared = 5, // a type number that names no type
    BadTerm = 6, // a byte that no term of the wanted type has there
    NoValue = 7, // a type without a value no deeper than 8
    BytesAfter = 8, // bytes after the end record
}

// What was being looked at when a fault was found.
#[derive(Clone, Copy, PartialEq, Eq, Debug)]
pub enum Layer {
    Records,
    Types,
    Terms,
}

#[derive(Clone, Copy, PartialEq, Eq, Debug)]
pub struct Fault {
    pub reason: Reason,
    pub place: usize,
    pub layer: Layer,
}

impl Reason {
    // The number by which the reason is reported.
    pub fn number(self) -> u8
        ensures { result ≡ number_of self }
    {
        self as u8
    }

    // The layer in which the reason is found.
    pub fn layer(self) -> Layer
        ensures { result ≡ layer_of self }
    {
        match self {
            Reason::Undeclared | Reason::NoValue => Layer::Types,
            Reason::BadTerm => Layer::Terms,
            _ => Layer::Records,
        }
    }

    // The fault of this reason at a place.
    pub fn at(self, place: usize) -> Fault
        ensures { result ≡ fault self place }
    {
        Fault {
            reason: self,
            place,
            layer: self.layer(),
        }
    }
}

impl fmt::Display for Layer {
    ghost output = { λ l. Some (layer_text l) };

    fn fmt<W: fmt::Write>(&self, f: &mut fmt::Formatter<W>) -> fmt::Result {
        f.write_str(match self {
            Layer::Records => "records",
            Layer::Types => "types",
            Layer::Terms => "terms",
        })
    }
}

// The reason's number and the place.
impl fmt::Display for Fault {
    ghost output = { λ f. Some (fault_text f) };

    fn fmt<W: fmt::Write>(&self, f: &mut fmt::Formatter<W>) -> fmt::Result {
        write!(f, "{} at {}", self.reason.number(), self.place)
    }
}

impl Error for Fault {}
