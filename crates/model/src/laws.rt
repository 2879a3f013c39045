// What holds of model bytes.
ghost use Rattle.model.specs.Exact.{ReadingIsExact};

// Bytes are accepted exactly if they write a model.
pub fn reading_is_exact() -> u8
    ensures { ReadingIsExact }
{
    0
}
