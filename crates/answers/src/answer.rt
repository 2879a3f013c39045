// The answer of a search.

// How a search ends. `Model`, `None` and `Never` finish; the others stop it.
#[derive(Clone, Copy, PartialEq, Eq, Debug)]
pub enum Outcome {
    // Every goal in force is true under what the last way decides.
    Model,
    // No assignment no deeper than the search makes every goal in force come to true.
    None,
    // No assignment at all does.
    Never,
    // The chooser's way gives some opened unknown not exactly one case: it is not the session's own.
    Foreign,
    SpentRounds,
    // The steps do not suffice for this goal.
    SpentSteps(u8),
    // The next opening would pass the most unknowns of a table.
    SpentUnknowns,
    // The chooser has too few variables or entries left.
    SpentChooser,
}

// The outcome, and how many rounds were made, unknowns opened and conflicts recorded.
#[derive(Clone, Copy, PartialEq, Eq, Debug)]
pub struct Answer {
    pub outcome: Outcome,
    pub rounds: usize,
    pub opened: usize,
    pub recorded: usize,
}
