// Writing literals into memory that the caller lends.
ghost use Rattle.std.specs.Prelude.{◌≡◌, ◌∷◌, []};
ghost use Rattle.assuming.specs.Written.{Pushed};

// Writes literals one behind another. What the memory has no room for is dropped.
#[derive(Drop)]
pub(crate) struct LiteralWriter<'a> {
    literals: &'a mut [u16],
    len: usize,
}

impl<'a> LiteralWriter<'a> {
    // A writer that has written none.
    pub(crate) fn new(literals: &'a mut [u16]) -> LiteralWriter<'a>
        ensures same_reference { result.literals.ghost_name ≡ literals.entry.ghost_name }
        ensures literals { result.literals.now ≡ literals.old }
        ensures len { result.len ≡ 0 }
    {
        LiteralWriter { literals, len: 0 }
    }

    // How many are written.
    pub(crate) fn len(&self) -> usize
        ensures { result ≡ self.now.len }
    {
        self.len
    }

    // Writes a literal behind the others, if there is room.
    pub(crate) fn push(&mut self, literal: u16)
        ensures same_reference { self.new.literals.ghost_name ≡ self.old.literals.ghost_name }
        ensures pushed { Pushed self.old self.new (literal ∷ []) }
    {
        if self.len < self.literals.len() {
            self.literals[self.len] = literal;
            self.len += 1;
        }
    }
}
