// A reader of records over lent bytes.
ghost use Rattle.std.specs.Prelude.{◌≡◌, ◌≤◌, length};

#[derive(Clone, Copy)]
pub struct Reader<'a> {
    pub(crate) bytes: &'a [u8],
    pub(crate) at: usize,
    // The place of the next byte is within the bytes, or their end.
    ghost within: { at ≤ length bytes.now },
}

impl<'a> Reader<'a> {
    // A reader that stands at the start of the bytes.
    pub fn new(bytes: &'a [u8]) -> Reader<'a>
        ensures whole { result.bytes.now ≡ bytes.now }
        ensures start { result.at ≡ 0 }
    {
        Reader { bytes, at: 0 }
    }

    // The place of the next byte.
    pub fn place(&self) -> usize
        ensures { result ≡ self.now.at }
    {
        self.at
    }
}
