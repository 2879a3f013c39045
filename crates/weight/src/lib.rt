// Why a search over a trail of literals ends: the trail's weight rises at each step and is bounded.
#![tactic(auto)]

ghost use Rattle.weight.specs.Weight.{Pushes, Jumps, Bounded};

// Shows that deciding, propagating and jumping back each raise the weight, and that it is bounded.
// It is a function so that src/ states the claim, in a contract; it does nothing.
pub fn weight_rises()
    ensures pushes { Pushes }
    ensures jumps { Jumps }
    ensures bounded { Bounded }
{}
