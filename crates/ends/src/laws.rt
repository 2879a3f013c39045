// What holds of typed terms and their bytes.
ghost use Rattle.ends.specs.Ends.{EndsGiveParts};
ghost use Rattle.ends.specs.Laws.{PrefixFree, ValuesAreTerms};

// Of two terms of one type, neither begins with the bytes of the other.
pub fn prefix_free() -> u8
    ensures { PrefixFree }
{
    0
}

// With the table of ends, each part of a term is found from the term's place.
pub fn ends_give_parts() -> u8
    ensures { EndsGiveParts }
{
    0
}

// The values of a type are its terms of constructors alone.
pub fn values_are_terms() -> u8
    ensures { ValuesAreTerms }
{
    0
}
