// The judgement of a goal.
ghost use Rattle.std.specs.Prelude.{◌≡◌, ℕ, ◌*◌, ◌<◌, ◌≤◌, length};
ghost use Rattle.judging.specs.Held.{goal as goal_of};
ghost use Rattle.std.proofs.Math.Option.{some};
ghost use Rattle.judging.specs.Judging.{Head as HeadOf, judge};
ghost use Rattle.judge.specs.Texts.{text_of};
ghost use Rattle.judge.specs.Means.{Kept, HasRoom};
ghost use Rattle.judge.specs.Outcomes.{outcome, byte_of, Explained};

use crate::answers::Head;
use crate::decides::Decides;
use crate::judge::Judge;
use crate::left::Budget;
use crate::verdicts::Judgement;
use held::explanation::Explanation;
use held::links::Link;
use held::memory::Memory;
use held::places::{Held, Place};

impl Judgement {
    // The byte that stands for a judgement in an answer.
    // Kept as it is: a case carries an unknown, and an enum with such a case has no numbers for `as`.
    pub fn byte(self) -> u8
        ensures { result ≡ byte_of self }
    {
        match self {
            Judgement::False => 0,
            Judgement::True => 1,
            Judgement::Out => 2,
            Judgement::Waiting(_) => 3,
        }
    }
}

impl<D: Decides> Judge<'_, D> {
    // Judges a goal with the steps and the memory that are left. The explanation of a true or a false one is put into `because`.
    pub fn judge_within(
        &self,
        left: &mut Budget,
        because: &mut Explanation,
        goal: usize,
    ) -> Judgement
        requires room { HasRoom 0 left.old }
        requires known { goal < length (text_of self.now.problem.now).problem.goals }
        ensures kept { Kept 0 left.old left.new }
        ensures judged { result ≡ outcome (judge (text_of self.now.problem.now).problem (D.unknowns self.now.decider.now) (goal_of (text_of self.now.problem.now).problem goal) left.old.steps) }
        ensures explained { Explained because.old.words because.new.words (judge (text_of self.now.problem.now).problem (D.unknowns self.now.decider.now) (goal_of (text_of self.now.problem.now).problem goal) left.old.steps) }
        ensures steps { (r : HeadOf ℕ × ℕ) → judge (text_of self.now.problem.now).problem (D.unknowns self.now.decider.now) (goal_of (text_of self.now.problem.now).problem goal) left.old.steps ≡ some r → left.new.steps ≡ r.1 }
    {
        let place = self.problem.goal(goal);
        let env = Link::NONE;
        match self.head(left, because, Held::Term { place, env }) {
            Some(Head::Waits(unknown)) => Judgement::Waiting(unknown),
            Some(head) => {
                if head.is_false() {
                    Judgement::False
                } else {
                    Judgement::True
                }
            }
            None => Judgement::Out,
        }
    }

    // Judges a goal with so many steps. The explanation of a true or a false one is put into `because`.
    pub fn judge_goal(
        &self,
        places: &mut [Place],
        because: &mut Explanation,
        steps: usize,
        goal: usize,
    ) -> Judgement
        requires room { 6 * steps ≤ length places.old }
        requires known { goal < length (text_of self.now.problem.now).problem.goals }
        ensures judged { result ≡ outcome (judge (text_of self.now.problem.now).problem (D.unknowns self.now.decider.now) (goal_of (text_of self.now.problem.now).problem goal) steps) }
        ensures explained { Explained because.old.words because.new.words (judge (text_of self.now.problem.now).problem (D.unknowns self.now.decider.now) (goal_of (text_of self.now.problem.now).problem goal) steps) }
    {
        let mut left = Budget::new(Memory::new(places), steps);
        self.judge_within(&mut left, because, goal)
    }
}
