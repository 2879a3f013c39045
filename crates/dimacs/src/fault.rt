ghost use Rattle.std.specs.Prelude.{◌≡◌, Some};
ghost use Rattle.dimacs.specs.Shown.{kind_text, fault_text, error_text};
ghost use Rattle.dimacs.specs.declared.fault.ReadError.TheVariants.{NoMemory};

use std::alloc::AllocError;
use std::error::Error;
use std::fmt;

// What is wrong with a text.
#[derive(Clone, Copy, PartialEq, Eq, Debug)]
pub enum Kind {
    NoHeader,
    BadHeader,
    // The literals of so many variables do not fit in 16 bits.
    TooManyVariables,
    // A byte that belongs to no number.
    Garbage,
    // A literal of a variable past those of the header.
    OutOfRange,
    TooManyClauses,
    TooFewClauses,
    // The last clause is not ended by 0.
    MissingZero,
    // The row of clauses has more than 65,535 numbers.
    TooManyEntries,
}

// What is wrong, and in which line, counted from 1.
#[derive(Clone, Copy, PartialEq, Eq, Debug)]
pub struct Fault {
    pub kind: Kind,
    pub line: usize,
}

#[derive(Clone, Copy, PartialEq, Eq, Debug)]
pub enum ReadError {
    NoMemory,
    Bad(Fault),
}

impl fmt::Display for Kind {
    ghost output = { λ k. Some (kind_text k) };

    fn fmt<W: fmt::Write>(&self, f: &mut fmt::Formatter<W>) -> fmt::Result {
        f.write_str(match self {
            Kind::NoHeader => "a header `p cnf VARIABLES CLAUSES` is missing",
            Kind::BadHeader => "the header is not `p cnf VARIABLES CLAUSES`",
            Kind::TooManyVariables => "more than 32768 variables",
            Kind::Garbage => "neither a number nor a comment",
            Kind::OutOfRange => "a literal of a variable that the header does not have",
            Kind::TooManyClauses => "more clauses than the header says",
            Kind::TooFewClauses => "fewer clauses than the header says",
            Kind::MissingZero => "the last clause is not ended by 0",
            Kind::TooManyEntries => "the clauses have more than 65535 literals and ends",
        })
    }
}

impl fmt::Display for Fault {
    ghost output = { λ f. Some (fault_text f) };

    fn fmt<W: fmt::Write>(&self, f: &mut fmt::Formatter<W>) -> fmt::Result {
        write!(f, "line {}: {}", self.line, self.kind)
    }
}

impl fmt::Display for ReadError {
    ghost output = { λ e. Some (error_text e) };

    fn fmt<W: fmt::Write>(&self, f: &mut fmt::Formatter<W>) -> fmt::Result {
        match self {
            ReadError::NoMemory => f.write_str("no memory"),
            ReadError::Bad(fault) => write!(f, "{fault}"),
        }
    }
}

impl Error for ReadError {}

impl From<AllocError> for ReadError {
    ghost from_gives = { λ _ e. e ≡ NoMemory };

    fn from(_error: AllocError) -> ReadError {
        ReadError::NoMemory
    }
}
