// What a byte of a term means: the declarations that it may name, and the variables in scope.
ghost use Rattle.std.specs.Prelude.{◌≡◌, ◌+◌, ◌<◌, ◌≤◌, length, take, MatchResult, nat_lt, slice_index, Some};
ghost use Rattle.std.specs.Bool.{then_some};
ghost use Rattle.syntax.specs.Typing.{cases_of, arguments, params_of, stands};
ghost use Rattle.syntax.specs.Tables.{declared_in};
ghost use Rattle.reading.specs.declared.parts.Part.TheVariants.{WhichConstructor, WhichFunction};
ghost use Rattle.reading.specs.Reading.{item};
ghost use Rattle.terms.specs.Tasks.{cut_of, item_of, whole, Left, Binds, Opens, Crowded, Steps};

use crate::tasks::{NoTerm, Opened, Task, Wanted};
use reading::parts::{Part, Tag};
use syntax::limits::MOST_VARIABLES;
use syntax::tables::Signature;

// The declarations, and the types of the variables.
// Kept as it is: that `cut` is at most 64 stands in the contracts of these methods. A struct for one number with a ghost field
// would be taken apart and made anew in each case of a task.
// Kept as it is: one array of which each scope is a front, as long as its task says, since a check of bytes allocates nothing.
#[derive(Drop)]
pub struct Context<'a> {
    pub sig: Signature<'a>,
    pub scope: [u8; MOST_VARIABLES],
}

// The first of a list's terms from `next` on, and the rest of them where there are more.
fn open_listed(types: &[u8], next: u8, cut: u8, rest: Task) -> Opened
    requires { next < length types.now }
    ensures { result ≡ record { first = whole (slice_index types.now next) cut; rest = then_some (nat_lt (next + 1) (length types.now)) rest } }
{
    let more = usize::from(next) + 1 < types.len();
    Opened {
        first: Wanted::whole(types[usize::from(next)], cut),
        rest: more.then_some(rest),
    }
}

impl<'a> Context<'a> {
    // The types of the variables, in front of the others.
    pub fn lay(&mut self, variables: &[u8])
        requires { length variables.now ≤ 64 }
        ensures sig { self.new.sig ≡ self.old.sig }
        ensures is { take (length variables.now) self.new.scope ≡ variables.now }
    {
        self.scope[..variables.len()].copy_from_slice(variables);
    }

    // A branch begins: its constructor's arguments are the next variables. The number of variables, if at most 64.
    fn bind(&mut self, cut: u8, types: &[u8]) -> Result<u8, NoTerm>
        requires { cut ≤ 64 }
        ensures sig { self.new.sig ≡ self.old.sig }
        ensures is { MatchResult result (λ k. Binds self.old.scope self.new.scope cut types.now k) (λ _. 64 < cut + length types.now) }
    {
        let start = usize::from(cut);
        if types.len() > MOST_VARIABLES - start {
            return Err(NoTerm);
        }
        let end = start + types.len();
        self.scope[start..end].copy_from_slice(types);
        Ok(end as u8)
    }

    // The first term of each kind of task, and the rest of the task.
    // Kept as it is: arguments and parameters differ in the table that is asked, and share the rest in `open_listed`.
    fn open_arguments(&self, of: u8, con: u8, next: u8, cut: u8) -> Opened
        requires left { next < length (arguments (declared_in self.now.sig) of con) }
        requires few { cut ≤ 64 }
        ensures { Opens (declared_in self.now.sig) self.now.scope self.now.scope (Task.Arguments of con next cut) result }
    {
        let types = self.sig.arguments(of, con);
        let rest = Task::Arguments {
            of,
            con,
            next: next + 1,
            cut,
        };
        open_listed(types, next, cut, rest)
    }

    fn open_parameters(&self, of: u8, next: u8, cut: u8) -> Opened
        requires left { next < length (params_of (declared_in self.now.sig) of) }
        requires few { cut ≤ 64 }
        ensures { Opens (declared_in self.now.sig) self.now.scope self.now.scope (Task.Parameters of next cut) result }
    {
        let types = self.sig.params(of);
        let rest = Task::Parameters {
            of,
            next: next + 1,
            cut,
        };
        open_listed(types, next, cut, rest)
    }

    fn open_case(&self, of: u8, ty: u8, cut: u8) -> Opened
        requires { cut ≤ 64 }
        ensures { Opens (declared_in self.now.sig) self.now.scope self.now.scope (Task.Case of ty cut) result }
    {
        let any = self.sig.case_count(of) > 0;
        let branches = Task::Branches {
            of,
            next: 0,
            ty,
            cut,
        };
        Opened {
            first: Wanted::whole(of, cut),
            rest: any.then_some(branches),
        }
    }

    // No term if the branch would see over 64 variables.
    fn open_branch(&mut self, of: u8, next: u8, ty: u8, cut: u8) -> Result<Opened, NoTerm>
        requires left { next < length (cases_of (declared_in self.old.sig) of) }
        requires few { cut ≤ 64 }
        ensures sig { self.new.sig ≡ self.old.sig }
        ensures is { MatchResult result (λ o. Opens (declared_in self.old.sig) self.old.scope self.new.scope (Task.Branches of next ty cut) o) (λ _. Crowded (declared_in self.old.sig) self.old.scope (Task.Branches of next ty cut)) }
    {
        let count = self.sig.case_count(of);
        let inner = self.bind(cut, self.sig.arguments(of, next))?;
        let rest = Task::Branches {
            of,
            next: next + 1,
            ty,
            cut,
        };
        Ok(Opened {
            first: Wanted::whole(ty, inner),
            rest: (next + 1 < count).then_some(rest),
        })
    }

    // The first term of a task, and the rest of the task; no term if it is a branch that would see over 64 variables.
    #[inline(always)]
    pub fn open(&mut self, task: Task) -> Result<Opened, NoTerm>
        requires left { Left (declared_in self.old.sig) task }
        requires few { cut_of task ≤ 64 }
        ensures sig { self.new.sig ≡ self.old.sig }
        ensures is { MatchResult result (λ o. Opens (declared_in self.old.sig) self.old.scope self.new.scope task o) (λ _. Crowded (declared_in self.old.sig) self.old.scope task) }
    {
        match task {
            Task::One(first) => Ok(Opened { first, rest: None }),
            Task::Two { ty, cut } => {
                let first = Wanted::whole(ty, cut);
                Ok(Opened {
                    first,
                    rest: Some(Task::One(first)),
                })
            }
            Task::Arguments { of, con, next, cut } => {
                Ok(self.open_arguments(of, con, next, cut))
            }
            Task::Parameters { of, next, cut } => Ok(self.open_parameters(of, next, cut)),
            Task::Case { of, ty, cut } => Ok(self.open_case(of, ty, cut)),
            Task::Branches { of, next, ty, cut } => self.open_branch(of, next, ty, cut),
        }
    }

    // Is the variable v in scope, of the type ty?
    fn in_scope(&self, cut: u8, v: u8, ty: u8) -> bool
        requires { cut ≤ 64 }
        ensures { result ≡ stands (take cut self.now.scope) v ty }
    {
        v < cut && self.scope[usize::from(v)] == ty
    }

    // The number of a constructor of the type ty.
    fn read_constructor(&self, ty: u8, cut: u8, c: u8) -> Result<Option<Task>, NoTerm>
        ensures { Steps (declared_in self.now.sig) self.now.scope (item WhichConstructor (take cut self.now.scope) ty) cut c result }
    {
        if c >= self.sig.case_count(ty) {
            Err(NoTerm)
        } else if self.sig.arguments(ty, c).is_empty() {
            Ok(None)
        } else {
            Ok(Some(Task::Arguments {
                of: ty,
                con: c,
                next: 0,
                cut,
            }))
        }
    }

    // The number of a function whose result has the type ty.
    fn read_function(&self, ty: u8, cut: u8, f: u8) -> Result<Option<Task>, NoTerm>
        ensures { Steps (declared_in self.now.sig) self.now.scope (item WhichFunction (take cut self.now.scope) ty) cut f result }
    {
        if !self.sig.gives(f, ty) {
            Err(NoTerm)
        } else if self.sig.params(f).is_empty() {
            Ok(None)
        } else {
            Ok(Some(Task::Parameters {
                of: f,
                next: 0,
                cut,
            }))
        }
    }

    // The first byte of a term.
    fn begin(&self, wanted: Wanted, b: u8) -> Result<Option<Task>, NoTerm>
        requires { wanted.cut ≤ 64 }
        ensures { Steps (declared_in self.now.sig) self.now.scope (item Part.Start (take wanted.cut self.now.scope) wanted.ty) wanted.cut b result }
    {
        let Wanted { ty, cut, .. } = wanted;
        match Tag::from(b) {
            Tag::Variable => Ok(wanted.then(Part::WhichVariable)),
            Tag::Unknown => Ok(wanted.then(Part::WhichUnknown)),
            Tag::Constructor => Ok(wanted.then(Part::OwnType)),
            Tag::Call => Ok(wanted.then(Part::WhichFunction)),
            Tag::Case => Ok(wanted.then(Part::SubjectType)),
            Tag::And if ty == 0 => Ok(Some(Task::Two { ty, cut })),
            Tag::Not if ty == 0 => Ok(wanted.then(Part::Start)),
            Tag::Equal if ty == 0 => Ok(wanted.then(Part::SidesType)),
            _ => Err(NoTerm),
        }
    }

    // A byte where a term is wanted: what has to come after it, if anything.
    #[inline(always)]
    pub fn read(&self, wanted: Wanted, b: u8) -> Result<Option<Task>, NoTerm>
        requires { wanted.cut ≤ 64 }
        ensures { Steps (declared_in self.now.sig) self.now.scope (item_of self.now.scope wanted) wanted.cut b result }
    {
        let Wanted { part, ty, cut } = wanted;
        // Kept as it is: which part is read is data on the stack of tasks, where no closure can lie without a heap.
        match part {
            Part::Start => self.begin(wanted, b),
            Part::WhichVariable if self.in_scope(cut, b, ty) => Ok(None),
            Part::WhichUnknown if self.sig.has_unknown(b, ty) => Ok(None),
            Part::OwnType if b == ty => Ok(wanted.then(Part::WhichConstructor)),
            Part::WhichConstructor => self.read_constructor(ty, cut, b),
            Part::WhichFunction => self.read_function(ty, cut, b),
            Part::SubjectType if self.sig.declares(b) => Ok(Some(Task::Case { of: b, ty, cut })),
            Part::SidesType if self.sig.declares(b) => Ok(Some(Task::Two { ty: b, cut })),
            _ => Err(NoTerm),
        }
    }
}
