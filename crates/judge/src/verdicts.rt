// What a goal is judged to be.
ghost use Rattle.std.specs.Prelude.{Some};
ghost use Rattle.judge.specs.Outcomes.{word};

use std::fmt;

#[derive(Clone, Copy)]
pub enum Judgement {
    False,
    True,
    Out, // the steps did not suffice
    Waiting(u16), // on an unknown
}

impl fmt::Display for Judgement {
    ghost output = { λ j. Some (word j) };

    fn fmt<W: fmt::Write>(&self, f: &mut fmt::Formatter<W>) -> fmt::Result {
        f.write_str(match self {
            Judgement::False => "false",
            Judgement::True => "true",
            Judgement::Out => "out",
            Judgement::Waiting(_) => "waiting",
        })
    }
}
