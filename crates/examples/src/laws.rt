// Worked examples of the rules: the contract says what the check reads, what judging spends, and what every chooser's searches answer.
ghost use Rattle.examples.specs.Worked.{WorkedExamples};

pub fn worked_examples_stand() -> u8
    ensures { WorkedExamples }
{
    0
}
