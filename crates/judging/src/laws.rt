// The theory of judging: each function's contract is a theorem, and its proof is what the function is for.
// Theorems for any type of unknowns are stated at paths and at numbers.
ghost use Rattle.std.specs.Prelude.{ℕ};
ghost use Rattle.judging.specs.Paths.{Path};
ghost use Rattle.judging.specs.Explained.{HeadExplained, SameExplained, DifferExplained};
ghost use Rattle.judging.specs.Determined.{OneHead, NotBoth, MoreDecided};
ghost use Rattle.judging.specs.Stays.{FalseStays, AnswerStays};
ghost use Rattle.judging.specs.Waiting.{WaitsHonest, WaitHonest};
ghost use Rattle.judging.specs.Steady.{JudgingTakes, ComparingTakes, MoreSteps, JudgeUnfolds, CompareUnfolds};
ghost use Rattle.judging.specs.Scope.{LawfulScoped};
ghost use Rattle.judging.specs.Asked.{ExplainedDecided, SameDecided, DifferDecided, GoalAsked, GoalAwaits, OnlyAsked};
ghost use Rattle.judging.specs.Names.{ByNames};
ghost use Rattle.judging.specs.Reached.{AskedPaths, StaysReached, WaitsOnReached, OnlyReached, OnlyReachedCompare, Restricted, GoalReached};
ghost use Rattle.judging.specs.Closed.{Closed, ClosedCompare, GoalClosed};
ghost use Rattle.judging.specs.Truth.{FalseForbids, TrueAllows, TrueMeans, ChoicesReached};
ghost use Rattle.judging.specs.Goals.{GoalExplains, GoalWaits, JudgedByNames, AwaitsByNames};
ghost use Rattle.judging.specs.Examples.{Examples};

// A judged head is what the term yields under every decision that agrees on its explanation.
pub fn head_explained_stands() -> u8
    ensures { HeadExplained Path × HeadExplained ℕ }
{
    0
}

// Two terms judged the same are the same under every decision that agrees on the explanation.
pub fn same_explained_stands() -> u8
    ensures { SameExplained Path × SameExplained ℕ }
{
    0
}

// Two terms judged different differ under every decision that agrees on the explanation.
pub fn differ_explained_stands() -> u8
    ensures { DifferExplained Path × DifferExplained ℕ }
{
    0
}

// A held term yields at most one constructor, with one list of arguments.
pub fn one_head_stands() -> u8
    ensures { OneHead Path × OneHead ℕ }
{
    0
}

// No two held terms are both the same and different.
pub fn not_both_stands() -> u8
    ensures { NotBoth Path × NotBoth ℕ }
{
    0
}

// To decide more takes no meaning back.
pub fn more_decided_stands() -> u8
    ensures { MoreDecided Path × MoreDecided ℕ }
{
    0
}

// What is judged false is judged true under no decision that agrees on the explanation, with any number of steps.
pub fn false_stays_stands() -> u8
    ensures { FalseStays Path × FalseStays ℕ }
{
    0
}

// Under such a decision any judging that is not OUT gives the same head.
pub fn answer_stays_stands() -> u8
    ensures { AnswerStays Path × AnswerStays ℕ }
{
    0
}

// A judging that waits names an undecided unknown, and the term yields nothing yet.
pub fn waits_honest_stands() -> u8
    ensures { WaitsHonest Path × WaitsHonest ℕ }
{
    0
}

// A comparing that waits names an undecided unknown, and the two are neither the same nor different yet.
pub fn wait_honest_stands() -> u8
    ensures { WaitHonest Path × WaitHonest ℕ }
{
    0
}

// Each head takes a number of steps of its own: OUT below it, and the rest left from it on.
pub fn judging_takes_stands() -> u8
    ensures { JudgingTakes Path × JudgingTakes ℕ }
{
    0
}

// Each comparing takes a number of steps of its own, likewise.
pub fn comparing_takes_stands() -> u8
    ensures { ComparingTakes Path × ComparingTakes ℕ }
{
    0
}

// More steps change no answer, and are left.
pub fn more_steps_stands() -> u8
    ensures { MoreSteps Path × MoreSteps ℕ }
{
    0
}

// Judging is one step, and then its rule over the judgings that it asks for.
pub fn judge_unfolds_stands() -> u8
    ensures { JudgeUnfolds Path × JudgeUnfolds ℕ }
{
    0
}

// So is comparing.
pub fn compare_unfolds_stands() -> u8
    ensures { CompareUnfolds Path × CompareUnfolds ℕ }
{
    0
}

// Bodies and goals of a lawful problem name only unknowns that it declares.
pub fn lawful_scoped_stands() -> u8
    ensures { LawfulScoped }
{
    0
}

// Every unknown in the explanation of a head is decided.
pub fn explained_decided_stands() -> u8
    ensures { ExplainedDecided Path × ExplainedDecided ℕ }
{
    0
}

// So is every unknown that explains a sameness.
pub fn same_decided_stands() -> u8
    ensures { SameDecided Path × SameDecided ℕ }
{
    0
}

// So is every unknown that explains a difference.
pub fn differ_decided_stands() -> u8
    ensures { DifferDecided Path × DifferDecided ℕ }
{
    0
}

// What explains a goal is asked for and decided.
pub fn goal_asked_stands() -> u8
    ensures { GoalAsked Path × GoalAsked ℕ }
{
    0
}

// What a goal waits on is asked for and undecided.
pub fn goal_awaits_stands() -> u8
    ensures { GoalAwaits Path × GoalAwaits ℕ }
{
    0
}

// Judging a goal depends on its unknowns only in what is asked for.
pub fn only_asked_stands() -> u8
    ensures { OnlyAsked Path × OnlyAsked ℕ }
{
    0
}

// Judging a goal by numbers is judging it by the paths that they name, step for step.
pub fn by_names_stands() -> u8
    ensures { ByNames }
{
    0
}

// By paths, what is asked for is what is reached and exists.
pub fn asked_paths_stands() -> u8
    ensures { AskedPaths }
{
    0
}

// From what is reached, explanations and arguments are reached.
pub fn stays_reached_stands() -> u8
    ensures { StaysReached }
{
    0
}

// From what is reached, what is waited on is reached.
pub fn waits_on_reached_stands() -> u8
    ensures { WaitsOnReached }
{
    0
}

// Judging is the same under every decision that agrees on what is reached.
pub fn only_reached_stands() -> u8
    ensures { OnlyReached }
{
    0
}

// So is comparing.
pub fn only_reached_compare_stands() -> u8
    ensures { OnlyReachedCompare }
{
    0
}

// Judging is the same with what is not reached left undecided.
pub fn restricted_stands() -> u8
    ensures { Restricted }
{
    0
}

// A goal starts from what is reached.
pub fn goal_reached_stands() -> u8
    ensures { GoalReached }
{
    0
}

// The explanation of a head is closed under parents, but for those of the term's own unknowns.
pub fn closed_stands() -> u8
    ensures { Closed }
{
    0
}

// So is the explanation of a verdict.
pub fn closed_compare_stands() -> u8
    ensures { ClosedCompare }
{
    0
}

// The explanation of a goal is closed under parents.
pub fn goal_closed_stands() -> u8
    ensures { GoalClosed }
{
    0
}

// A goal judged false does not come to true under an assignment that has the choices of the explanation.
pub fn false_forbids_stands() -> u8
    ensures { FalseForbids }
{
    0
}

// A goal judged true comes to true under every assignment that has the choices reached.
pub fn true_allows_stands() -> u8
    ensures { TrueAllows }
{
    0
}

// A goal that comes to true under an assignment means true under its choices.
pub fn true_means_stands() -> u8
    ensures { TrueMeans }
{
    0
}

// The choices of an assignment are reached by its choices.
pub fn choices_reached_stands() -> u8
    ensures { ChoicesReached }
{
    0
}

// What explains a goal is decided, reached, there, and closed under parents.
pub fn goal_explains_stands() -> u8
    ensures { GoalExplains }
{
    0
}

// What a goal waits on is undecided, reached, and there.
pub fn goal_waits_stands() -> u8
    ensures { GoalWaits }
{
    0
}

// A goal judged by numbers is judged by the paths that they name.
pub fn judged_by_names_stands() -> u8
    ensures { JudgedByNames }
{
    0
}

// A goal that waits by numbers waits on the path that the number names.
pub fn awaits_by_names_stands() -> u8
    ensures { AwaitsByNames }
{
    0
}

// Judging run by its definition: how steps are counted, what loops for ever, and how `and` explains its false.
pub fn examples_stand() -> u8
    ensures { Examples }
{
    0
}
