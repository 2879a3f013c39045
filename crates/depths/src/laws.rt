// What holds of all declarations of types.
ghost use Rattle.std.specs.Prelude.{ℕ};
ghost use Rattle.syntax.specs.Typing.{Sig};
ghost use Rattle.syntax.specs.Least.{LeastIsLeast};
ghost use Rattle.depths.specs.Laws.{Inhabited, DepthsStand, LawfulTypes};

// The computed least depth of a type is the least depth of its values.
pub fn least_stands() -> u8
    ensures { (sig : Sig) (t : ℕ) → LeastIsLeast sig t }
{
    0
}

// Where every type has a value no deeper than 8, as in a lawful problem, the computed least depths and needs
// obey the laws of depth.
pub fn depths_stand() -> u8
    ensures laws { (sig : Sig) → Inhabited sig → DepthsStand sig }
    ensures lawful { LawfulTypes }
{
    0
}
