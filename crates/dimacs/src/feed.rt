// The reader takes one byte after another.
ghost use Rattle.std.specs.Prelude.{◌≡◌, IfOk};
ghost use Rattle.dimacs.specs.Feed.{begin};
ghost use Rattle.dimacs.specs.Read.{reading, Put, Fed, Finished};

use crate::fault::Kind;
use crate::formula::Formula;
use crate::reader::Reader;
use crate::step::{Event, MOST_VARIABLES, Mode, Stage, State, advance};
use rows::{MOST_ENTRIES, push_clause};
use std::alloc::{AllocError, Global};

impl Reader {
    pub(crate) fn new(heap: Global) -> Result<Reader, AllocError>
        ensures { IfOk result (λ r. reading r ≡ begin) }
    {
        Ok(Reader {
            state: State {
                mode: Mode::Start,
                stage: Stage::Before,
            },
            clause: Vec::with_capacity(heap, MOST_ENTRIES)?,
            row: Vec::with_capacity(heap, MOST_ENTRIES)?,
        })
    }

    // A literal or a clause is at its end.
    fn put(&mut self, event: Event) -> Result<(), Kind>
        ensures { Put (reading self.old) event (reading self.new) result }
    {
        match event {
            Event::Literal(l) => {
                if self.clause.len() >= MOST_ENTRIES {
                    return Err(Kind::TooManyEntries);
                }
                self.clause.push_reserved(l);
            }
            Event::Clause => {
                if self.row.len() + self.clause.len() >= MOST_ENTRIES {
                    return Err(Kind::TooManyEntries);
                }
                push_clause(&mut self.row, self.clause.as_slice());
                self.clause.clear();
            }
        }
        Ok(())
    }

    pub(crate) fn feed(&mut self, b: u8) -> Result<(), Kind>
        ensures { Fed (reading self.old) b (reading self.new) result }
    {
        let step = advance(self.state, b)?;
        if let Some(event) = step.event {
            self.put(event)?;
        }
        self.state = step.state;
        Ok(())
    }

    // The text is at its end.
    pub(crate) fn finish(self) -> Result<Formula, Kind>
        ensures { Finished (reading self) result }
    {
        let Stage::Body { header, read } = self.state.stage else {
            return Err(Kind::NoHeader);
        };
        if !self.clause.is_empty() {
            return Err(Kind::MissingZero);
        }
        if read != header.clauses {
            return Err(Kind::TooFewClauses);
        }
        Ok(Formula {
            variables: header.variables.min(MOST_VARIABLES) as u16,
            row: self.row,
        })
    }
}
