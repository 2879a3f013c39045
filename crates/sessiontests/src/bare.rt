// A chooser without variables and entries.
ghost use Rattle.sessiontests.specs.Means.{bare_means, bare_laws};

use chooser::{Answer, Chooser, Fault};

// It allows the one way that it has.
#[derive(Drop)]
pub struct Bare;

impl Chooser for Bare {
    const MAX_VARIABLES: u16 = 0;

    ghost MAX_VARIABLES = { 0 };

    ghost meaning = { bare_means };

    ghost laws = { bare_laws };

    fn variables_left(&self) -> u16 {
        0
    }

    fn entries_left(&self) -> usize {
        0
    }

    fn new_variable(&mut self) -> Result<u16, Fault> {
        Err(Fault::NoVariable)
    }

    fn add(&mut self, clause: &[u16]) -> Result<(), Fault> {
        if clause.is_empty() {
            Err(Fault::NoEntries)
        } else {
            Err(Fault::Unallotted)
        }
    }

    fn ask(&mut self, assumptions: &[u16], answer: &mut [u8]) -> Result<Answer, Fault> {
        if !assumptions.is_empty() {
            return Err(Fault::Unallotted);
        }
        if !answer.is_empty() {
            return Err(Fault::WrongLength);
        }
        Ok(Answer::Yes)
    }
}
