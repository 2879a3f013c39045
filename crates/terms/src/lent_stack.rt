// A stack of tasks in memory that is lent.
ghost use Rattle.std.specs.Prelude.{◌≡◌, ◌<◌, ◌≤◌, [], ◌∷◌, length};
ghost use Rattle.terms.specs.Tasks.{put, NoneLeft};

use crate::tasks::Task;

// A stack of tasks in a slice that is lent, with room for as many as the slice has places.
// Kept as it is: a slice with a length beside it. The library's vector of fixed room (`arrayvec`) has its room in its type, where
// each caller lends as much as its bytes ask for; and it writes a blank over each task that is taken, and a check takes one for most
// bytes of a term. How much slower that is was not measured.
#[derive(Drop)]
pub struct LentStack<'a> {
    tasks: &'a mut [Task],
    len: usize,
    // The tasks on it are within the slice.
    ghost within: { len ≤ length tasks.now },
}

impl<'a> LentStack<'a> {
    ghost use Rattle.terms.specs.Stacks.{on, room};

    pub fn new(tasks: &'a mut [Task]) -> LentStack<'a>
        ensures empty { on result ≡ [] }
        ensures room { room result ≡ length tasks.old }
    {
        LentStack { tasks, len: 0 }
    }

    // Takes all tasks away, and puts this one.
    pub fn restart(&mut self, task: Task)
        requires { 0 < room self.old }
        ensures is { on self.new ≡ task ∷ [] }
        ensures room { room self.new ≡ room self.old }
    {
        self.len = 0;
        self.push(task);
    }

    pub fn push(&mut self, task: Task)
        requires { length (on self.old) < room self.old }
        ensures is { on self.new ≡ task ∷ on self.old }
        ensures room { room self.new ≡ room self.old }
    {
        self.tasks[self.len] = task;
        self.len += 1;
    }

    // Puts a task on top, if there is one.
    pub fn put(&mut self, task: Option<Task>)
        requires { length (on self.old) < room self.old }
        ensures is { on self.new ≡ put task (on self.old) }
        ensures room { room self.new ≡ room self.old }
    {
        if let Some(task) = task {
            self.push(task);
        }
    }

    // Takes the topmost task; none if there is none.
    pub fn pop(&mut self) -> Option<Task>
        ensures taken { on self.old ≡ put result (on self.new) }
        ensures last { NoneLeft result (on self.new) }
        ensures room { room self.new ≡ room self.old }
    {
        if self.len == 0 {
            return None;
        }
        self.len -= 1;
        Some(self.tasks[self.len])
    }
}
