// What is still to be read of a term.
ghost use Rattle.std.specs.Prelude.{◌≡◌, ◌<◌, [], ◌∷◌, length, Some};
ghost use Rattle.terms.specs.Tasks.{whole, put, NoneLeft};

use reading::parts::Part;
use std::marker::Model;

// A term that is wanted, from this part of it on; `cut` of the variables are in scope.
#[derive(Clone, Copy)]
pub struct Wanted {
    pub part: Part,
    pub ty: u8,
    pub cut: u8,
}

// Terms that are still to be read, one or more; `cut` of the variables are in scope. A task stands for all the parts that are
// left of one term, so that a byte adds at most one task.
#[derive(Clone, Copy)]
pub enum Task {
    One(Wanted),
    Two { ty: u8, cut: u8 }, // two terms of one type
    Arguments { of: u8, con: u8, next: u8, cut: u8 }, // those of a constructor, from `next` on
    Parameters { of: u8, next: u8, cut: u8 }, // the arguments of a call, from `next` on
    Case { of: u8, ty: u8, cut: u8 }, // a subject of the type `of`, and all branches
    Branches { of: u8, next: u8, ty: u8, cut: u8 }, // the branches of a case, from `next` on
}

impl Task {
    // What stands in a slice of tasks before they are put there.
    pub const BLANK: Task = Task::Two { ty: 0, cut: 0 };
}

// The first term of a task, and the rest of the task.
#[derive(Clone, Copy)]
pub struct Opened {
    pub first: Wanted,
    pub rest: Option<Task>,
}

// The bytes are no term of the type that is wanted.
#[derive(Clone, Copy, Debug, PartialEq, Eq)]
pub struct NoTerm;

impl Wanted {
    // A whole term.
    pub fn whole(ty: u8, cut: u8) -> Wanted
        ensures { result ≡ whole ty cut }
    {
        Wanted {
            part: Part::Start,
            ty,
            cut,
        }
    }

    // What comes after a byte of this term: the term from this part of it on.
    pub fn then(self, part: Part) -> Option<Task>
        ensures { result ≡ Some (Task.One (record { part = part; ty = self.ty; cut = self.cut })) }
    {
        Some(Task::One(Wanted { part, ..self }))
    }
}

// A stack of at most N tasks, whose places are its own; the check has one in memory that its caller lends (`LentStack`).
// Kept as it is: an array with a length beside it: the library's vector of fixed room (`arrayvec`) writes a blank over each task that
// is taken. Nor does it lend its array to a `LentStack` and call that one: whose contract does not say that it keeps the reference,
// so that nothing is known of the array afterwards.
#[derive(Drop)]
pub struct Stack<const N: usize> {
    tasks: [Task; N],
    len: usize,
}

// Clauses see the tasks, the topmost first.
impl<const N: usize> Model for Stack<N> {
    ghost use Rattle.std.specs.Prelude.{List, reverse, take, ◌≤◌};
    ghost use Rattle.terms.specs.declared.tasks.Task.{Task};

    ghost Value = { List Task };

    ghost view = { λ s. reverse (take s.len s.tasks) };

    ghost invariant = { λ s. s.len ≤ N };
}

impl<const N: usize> Stack<N> {
    pub fn new() -> Self
        ensures { result ≡ [] }
    {
        Stack {
            tasks: [Task::BLANK; N],
            len: 0,
        }
    }

    // Takes all tasks away, and puts this one.
    pub fn restart(&mut self, task: Task)
        requires { 0 < N }
        ensures { self.new ≡ task ∷ [] }
    {
        self.len = 0;
        self.push(task);
    }

    pub fn push(&mut self, task: Task)
        requires { length self.old < N }
        ensures { self.new ≡ task ∷ self.old }
    {
        self.tasks[self.len] = task;
        self.len += 1;
    }

    // Puts a task on top, if there is one.
    pub fn put(&mut self, task: Option<Task>)
        requires { length self.old < N }
        ensures { self.new ≡ put task self.old }
    {
        if let Some(task) = task {
            self.push(task);
        }
    }

    // Takes the topmost task; none if there is none.
    pub fn pop(&mut self) -> Option<Task>
        ensures taken { self.old ≡ put result self.new }
        ensures last { NoneLeft result self.new }
    {
        if self.len == 0 {
            return None;
        }
        self.len -= 1;
        Some(self.tasks[self.len])
    }
}

#[cfg(test)]
mod tests {
    use super::*;
    use std::test::Fail;

    const BOOLS: Task = Task::Two { ty: 0, cut: 3 };

    const CASE: Task = Task::Case {
        of: 1,
        ty: 0,
        cut: 2,
    };

    #[test]
    fn last_put_is_taken_first(rt: HostRuntime) -> Result<(), Fail> {
        let mut stack: Stack<2> = Stack::new();
        assert!(rt; matches!(stack.pop(), None));
        stack.push(BOOLS);
        stack.put(None);
        stack.put(Some(CASE));
        assert!(rt;
            matches!(
                stack.pop(),
                Some(Task::Case {
                    of: 1,
                    ty: 0,
                    cut: 2
                })
            )
        );
        assert!(rt; matches!(stack.pop(), Some(Task::Two { ty: 0, cut: 3 })));
        assert!(rt; matches!(stack.pop(), None));
        Ok(())
    }

    #[test]
    fn one_task_after_a_restart(rt: HostRuntime) -> Result<(), Fail> {
        let mut stack: Stack<2> = Stack::new();
        stack.push(CASE);
        stack.push(CASE);
        stack.restart(BOOLS);
        assert!(rt; matches!(stack.pop(), Some(Task::Two { ty: 0, cut: 3 })));
        assert!(rt; matches!(stack.pop(), None));
        Ok(())
    }
}
