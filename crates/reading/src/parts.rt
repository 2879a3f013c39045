// The parts that the bytes of a term are.
ghost use Rattle.std.specs.Prelude.{◌≡◌};
ghost use Rattle.reading.specs.Reading.{tag_of};

// What the first byte of a term says.
#[derive(Clone, Copy)]
pub enum Tag {
    Variable,
    Unknown,
    Constructor,
    Call,
    Case,
    And,
    Not,
    Equal,
    // Kept as it is: a case and no Option of a tag, since a byte that is no tag still heads one byte without parts.
    Other,
}

// What the next byte of a term is: its first, or a number after its tag.
#[derive(Clone, Copy)]
pub enum Part {
    Start,
    WhichVariable,
    WhichUnknown,
    OwnType,
    WhichConstructor,
    WhichFunction,
    SubjectType,
    SidesType,
}

impl From<u8> for Tag {
    ghost from_gives = { λ b tag. tag ≡ tag_of b };

    // What a first byte says.
    fn from(b: u8) -> Tag {
        match b {
            0 => Tag::Variable,
            1 => Tag::Unknown,
            2 => Tag::Constructor,
            3 => Tag::Call,
            4 => Tag::Case,
            5 => Tag::And,
            6 => Tag::Not,
            7 => Tag::Equal,
            _ => Tag::Other,
        }
    }
}
