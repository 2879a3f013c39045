// What the records of an accepted problem declare, each table as long as what it holds.
ghost use Rattle.std.specs.Prelude.{◌≡◌, IfOk};
ghost use Rattle.kept.specs.Filled.{Counted, Fronts};

use std::alloc::{AllocError, Global};
use syntax::tables::{Callable, Datatype, Signature, Span};
use tables::filling::Counts;
use verdict::workspace::Workspace;

// Kept as it is: least depths stand beside the types, which a `Signature` lends as a slice of their own.
#[derive(Drop)]
pub struct Tables {
    pub types: Vec<Datatype>,
    pub functions: Vec<Callable>,
    pub unknowns: Vec<u8>,
    pub goals: Vec<Span>,
    pub least: Vec<u8>,
}

impl Tables {
    // Copies of the fronts of an examination's tables.
    // Kept as it is: the fronts are cut here and in `examine`, a range each; the contract of a method that cuts them would be longer.
    pub fn copied(heap: Global, work: &Workspace, counts: Counts) -> Result<Tables, AllocError>
        requires { Counted counts }
        ensures { IfOk result (λ t. Fronts work.now counts t) }
    {
        Ok(Tables {
            types: Vec::from_slice(heap, &work.tables.types[..counts.types])?,
            functions: Vec::from_slice(heap, &work.tables.functions[..counts.functions])?,
            unknowns: Vec::from_slice(heap, &work.tables.unknowns[..counts.unknowns])?,
            goals: Vec::from_slice(heap, &work.tables.goals[..counts.goals])?,
            least: Vec::from_slice(heap, &work.least[..counts.types])?,
        })
    }

    // The tables as declarations.
    pub fn signature(&self) -> Signature<'_>
        ensures types { result.types.now ≡ self.now.types.items }
        ensures functions { result.functions.now ≡ self.now.functions.items }
        ensures unknowns { result.unknowns.now ≡ self.now.unknowns.items }
    {
        Signature {
            types: self.types.as_slice(),
            functions: self.functions.as_slice(),
            unknowns: self.unknowns.as_slice(),
        }
    }
}
