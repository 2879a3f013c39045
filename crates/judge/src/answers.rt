// What the judge answers.
ghost use Rattle.std.specs.Prelude.{◌≡◌, ℕ, List, Some, true, false, ◌≢◌};
ghost use Rattle.std.proofs.Math.Option.{Option as Maybe};
ghost use Rattle.judging.specs.Judging.{Head as HeadOf};
ghost use Rattle.held.specs.Reading.{Text};
ghost use Rattle.judge.specs.declared.left.Budget.{Budget};
ghost use Rattle.judge.specs.declared.verdicts.Judgement.TheVariants.{False};
ghost use Rattle.judge.specs.Means.{Agrees};
ghost use Rattle.judge.specs.Outcomes.{outcome};

// The head of a held term: the unknown that it waits on; or a constructor, whose arguments stand in the places from
// `start` on. The judge answers none for want of steps.
// Kept as it is: an enum of its own and no Result whose error is the unknown, since an `and` and a comparing go on past a
// side that waits, where `?` would return.
// Kept as it is: a row of arguments is named by its first place and its length, since the places are lent and grow meanwhile.
// That it has at most six stands in contracts (`Few`): the check covers no ghost field in an enum's case; a struct of the row,
// which may have one, would be taken apart again where two rows are compared, which go on with one count.
#[derive(Clone, Copy)]
pub enum Head {
    Waits(u16),
    Is {
        start: usize,
        constructor: u8,
        count: u8,
    },
}

// The two values of Bool, which have no arguments.
impl Head {
    pub const FALSE: Head = Head::Is {
        start: 0,
        constructor: 0,
        count: 0,
    };

    pub const TRUE: Head = Head::Is {
        start: 0,
        constructor: 1,
        count: 0,
    };

    // Whether it is false: constructor 0 of Bool is, and any other counts as true.
    pub fn is_false(self) -> bool
        ensures yes { result ≡ true → (x : Text) (l : Budget) (e f : List ℕ) (o : Maybe (HeadOf ℕ × ℕ)) → Agrees x l e f (Some self) o → outcome o ≡ False }
        ensures no { result ≡ false → (x : Text) (l : Budget) (e f : List ℕ) (o : Maybe (HeadOf ℕ × ℕ)) → Agrees x l e f (Some self) o → outcome o ≢ False }
    {
        matches!(self, Head::Is { constructor: 0, .. })
    }
}

// What comparing two held terms comes to; likewise none for want of steps.
#[derive(Clone, Copy)]
pub enum Verdict {
    Wait(u16),
    Same,
    Differ,
}
