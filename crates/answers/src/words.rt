// The words for outcomes.
ghost use Rattle.std.specs.Prelude.{◌≡◌, Some};
ghost use Rattle.answers.specs.Words.{word};

use crate::answer::Outcome;
use std::fmt;

impl Outcome {
    // The word by which the outcome is printed.
    pub fn word(self) -> &'static str
        ensures { result.now ≡ word self }
    {
        match self {
            Outcome::Model => "MODEL",
            Outcome::None => "NONE",
            Outcome::Never => "NEVER",
            Outcome::Foreign => "FOREIGN",
            Outcome::SpentRounds => "SPENT ROUNDS",
            Outcome::SpentSteps(_) => "SPENT STEPS",
            Outcome::SpentUnknowns => "SPENT UNKNOWNS",
            Outcome::SpentChooser => "SPENT CHOOSER",
        }
    }
}

impl fmt::Display for Outcome {
    ghost output = { λ o. Some (word o) };

    fn fmt<W: fmt::Write>(&self, f: &mut fmt::Formatter<W>) -> fmt::Result {
        f.write_str(self.word())
    }
}
