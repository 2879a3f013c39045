// What holds after any list of calls on a session: each function's contract is a theorem, and its proof is what the function is for.
ghost use Rattle.histories.specs.Histories.{CallsSay};
ghost use Rattle.histories.specs.Theorem.{NothingOverlooked, ModelAtHand};

// After any calls, a search that no count stops finishes, answers MODEL exactly when some assignment no deeper than its depth
// makes every goal in force come to true, records only conflicts that forbid what they may and are new, and counts its rounds.
pub fn nothing_overlooked_stands() -> u8
    ensures { NothingOverlooked }
{
    0
}

// A model at hand is right, and a replay of it makes each goal in force true.
pub fn model_at_hand_stands() -> u8
    ensures { ModelAtHand }
{
    0
}

// The calls made say what the session's problem is, which goals are in force, and whether a model is at hand.
pub fn calls_say_stands() -> u8
    ensures { CallsSay }
{
    0
}
