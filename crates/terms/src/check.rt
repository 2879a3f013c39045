// The check of a term, a byte at a time.
ghost use Rattle.std.specs.Prelude.{◌≡◌, ◌+◌, ◌^◌, ◌∷◌, ◌<◌, ◌≤◌, length, MatchResult};
ghost use Rattle.syntax.specs.Tables.{declared_in};
ghost use Rattle.reading.specs.Reading.{reading, verdict};
ghost use Rattle.reading.specs.Verdicts.{Says};
ghost use Rattle.terms.specs.Tasks.{put, stack_of, Piled, NoneLeft, Stops, Advances};
ghost use Rattle.terms.specs.Stacks.{on, room};

use crate::context::Context;
use crate::lent_stack::LentStack;
use crate::tasks::{NoTerm, Opened, Task, Wanted};
use std::marker::Model;
use syntax::faults::{Fault, Reason};
use syntax::limits::MOST_VARIABLES;
use syntax::tables::Signature;

// Checks terms of a problem, one after another.
#[derive(Drop)]
pub struct Checker<'a> {
    context: Context<'a>,
}

// Clauses see what is declared.
impl<'a> Model for Checker<'a> {
    ghost use Rattle.syntax.specs.Typing.{Sig};
    ghost use Rattle.syntax.specs.Tables.{declared_in};

    ghost Value = { Sig };

    ghost view = { λ c. declared_in c.context.sig };
}

// A byte comes where a task is next and others are left: the task that is next then, if any.
fn advance(
    context: &mut Context,
    stack: &mut LentStack,
    task: Task,
    b: u8,
) -> Result<Option<Task>, NoTerm>
    requires room { length (on stack.old) < room stack.old }
    requires piled { Piled (declared_in context.old.sig) (task ∷ on stack.old) 64 }
    ensures sig { context.new.sig ≡ context.old.sig }
    ensures room { room stack.new ≡ room stack.old }
    ensures is { MatchResult result (λ next. Advances (declared_in context.old.sig) context.old.scope context.new.scope (task ∷ on stack.old) (put next (on stack.new)) b × NoneLeft next (on stack.new)) (λ _. Stops (declared_in context.old.sig) (stack_of (declared_in context.old.sig) context.old.scope (task ∷ on stack.old)) b) }
{
    let Opened { first, rest } = context.open(task)?;
    let then = context.read(first, b)?;
    stack.put(rest);
    // Kept as it is: tried as `then.or_else(|| stack.pop())`, whose closure holds the stack: what is left of it was not found.
    match then {
        Some(task) => Ok(Some(task)),
        None => Ok(stack.pop()),
    }
}

impl<'a> Checker<'a> {
    pub fn new(sig: Signature<'a>) -> Self
        ensures { result ≡ declared_in sig.entry }
    {
        Checker {
            context: Context {
                sig,
                scope: [0; MOST_VARIABLES],
            },
        }
    }

    // The check, byte by byte.
    // Kept as it is: apart from `check_term`, since what that says besides follows from `exact` alone, whichever way the loop ends.
    fn run(
        &mut self,
        tasks: &mut [Task],
        bytes: &[u8],
        base: usize,
        variables: &[u8],
        wanted: u8,
    ) -> Result<(), Fault>
        requires few { length variables.now ≤ 64 }
        requires room { length bytes.now + 1 ≤ length tasks.old }
        requires within { base + length bytes.now < 2 ^ 64 }
        ensures same { self.new ≡ self.old }
        ensures exact { result ≡ verdict (reading self.old variables.now wanted base bytes.now) }
    {
        let context = &mut self.context;
        context.lay(variables);
        let mut stack = LentStack::new(tasks);
        stack.restart(Task::One(Wanted::whole(wanted, variables.len() as u8)));
        let mut next = stack.pop();
        for (at, b) in bytes.iter().enumerate() {
            let refused = Reason::BadTerm.at(base + at);
            let task = next.ok_or(refused)?;
            next = advance(context, &mut stack, task, *b).or(Err(refused))?;
        }
        match next {
            None => Ok(()),
            Some(_) => Err(Reason::BadTerm.at(base + bytes.len())),
        }
    }

    // Are the bytes, of which the first stands at the place `base`, one term of the type `wanted`, with variables of these types?
    // If not, the fault names the place of the first byte that fails or lacks. `tasks` is working memory.
    pub fn check_term(
        &mut self,
        tasks: &mut [Task],
        bytes: &[u8],
        base: usize,
        variables: &[u8],
        wanted: u8,
    ) -> Result<(), Fault>
        requires few { length variables.now ≤ 64 }
        requires room { length bytes.now + 1 ≤ length tasks.old }
        requires within { base + length bytes.now < 2 ^ 64 }
        ensures same { self.new ≡ self.old }
        ensures exact { result ≡ verdict (reading self.old variables.now wanted base bytes.now) }
        ensures says { Says self.old variables.now wanted base bytes.now result }
    {
        self.run(tasks, bytes, base, variables, wanted)
    }
}
