// What holds of the reading.
ghost use Rattle.reading.specs.Verdicts.{ReadingIsExact};

// What is read is a term of the wanted type with these bytes, and each such term is read.
pub fn reading_is_exact() -> u8
    ensures { ReadingIsExact }
{
    0
}
