// Text that is written into lent memory.
ghost use Rattle.std.specs.Prelude.{◌≡◌, ◌+◌, ◌^◌, ◌<◌, ◌≤◌, [], length, decimal};
ghost use Rattle.telling.specs.Lines.{labelled};
ghost use Rattle.telling.specs.Pages.{Holds, Adds};

use itoa::Buffer;

// Memory that is written from its start. A text with no room is only counted, so that it can be measured on a page without
// memory before it is written.
#[derive(Drop)]
pub struct Page<'a> {
    pub output: &'a mut [u8],
    pub length: usize,
}

impl<'a> Page<'a> {
    pub fn new(output: &'a mut [u8]) -> Page<'a>
        ensures same { result.output.ghost_name ≡ output.entry.ghost_name }
        ensures empty { result.length ≡ 0 }
        ensures holds { Holds output.old [] result }
    {
        Page { output, length: 0 }
    }

    pub fn text(&mut self, text: &str)
        requires room { self.old.length + length text.now < 2 ^ 63 }
        ensures same { self.new.output.ghost_name ≡ self.old.output.ghost_name }
        ensures count { self.new.length ≡ self.old.length + length text.now }
        ensures adds { Adds self.old text.now self.new }
    {
        let end = self.length + text.len();
        if end <= self.output.len() {
            self.output[self.length..end].copy_from_slice(text.as_bytes());
        }
        self.length = end;
    }

    pub fn number(&mut self, n: usize)
        requires room { self.old.length + 20 < 2 ^ 63 }
        ensures same { self.new.output.ghost_name ≡ self.old.output.ghost_name }
        ensures count { self.new.length ≤ self.old.length + 20 }
        ensures adds { Adds self.old (decimal n) self.new }
    {
        let mut digits = Buffer::new();
        self.text(digits.format(n));
    }

    // A label, and the number behind it.
    pub fn labelled(&mut self, label: &str, n: usize)
        requires room { self.old.length + length label.now + 20 < 2 ^ 63 }
        ensures same { self.new.output.ghost_name ≡ self.old.output.ghost_name }
        ensures count { self.new.length ≤ self.old.length + length label.now + 20 }
        ensures adds { Adds self.old (labelled label.now n) self.new }
    {
        self.text(label);
        self.number(n);
    }
}
