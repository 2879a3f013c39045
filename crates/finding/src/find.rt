// Judges the goals in force by the cases of a way.
ghost use Rattle.std.specs.Prelude.{◌≡◌, ◌*◌, ◌≤◌, length};
ghost use Rattle.problem.specs.Meant.{meant};
ghost use Rattle.unknowns.specs.Force.{forced};
ghost use Rattle.finding.specs.Findings.{FindsBy, FoundAs};

use cases::cases::Cases;
use held::explanation::Explanation;
use held::places::Place;
use judge::decides::Decides;
use judge::judge::Judge;
use judge::verdicts::Judgement;
use problem::problem::Problem;
use unknowns::table::Case;

// A goal with its number, or the place of an unknown.
#[derive(Clone, Copy)]
pub enum Finding {
    Out(u8), // this goal's steps did not suffice
    False(u8), // this goal is false
    Waiting(u16), // a goal waits on this unknown, and none is out of steps or false
    True, // every goal in force is true
}

// Judges the goals in force in ascending number, each with all the steps, up to the first that is out of steps or false.
// `because` then has the explanation of a false goal.
fn judge_goals<D: Decides>(
    judge: &Judge<'_, D>,
    force: &[bool; 32],
    memory: &mut [Place],
    because: &mut Explanation,
    steps: usize,
) -> Finding
    requires { 6 * steps ≤ length memory.old }
    ensures { FindsBy (meant judge.now.problem.now) (D.unknowns judge.now.decider.now) (forced force.now) steps because.new.words result }
{
    let mut waiting = None;
    let goals = &force[..judge.problem.goals()];
    for (goal, in_force) in goals.iter().enumerate() {
        if !*in_force {
            continue;
        }
        // A goal that was true before has left its explanation.
        *because = Explanation::nothing();
        match judge.judge_goal(memory, because, steps, goal) {
            Judgement::Out => return Finding::Out(goal as u8),
            Judgement::False => return Finding::False(goal as u8),
            Judgement::Waiting(unknown) => waiting = waiting.or(Some(unknown)),
            Judgement::True => {}
        }
    }
    match waiting {
        Some(unknown) => Finding::Waiting(unknown),
        None => Finding::True,
    }
}

// What a round finds under the cases of a way.
pub fn find(
    problem: &Problem,
    cases: &[Option<Case>],
    force: &[bool; 32],
    memory: &mut [Place],
    because: &mut Explanation,
    steps: usize,
) -> Finding
    requires { 6 * steps ≤ length memory.old }
    ensures found_as { FoundAs (meant problem.now) cases.now force.now steps because.new.words result }
    ensures long { length memory.new ≡ length memory.old }
{
    let decider = Cases { cases };
    let judge = Judge {
        problem,
        decider: &decider,
    };
    judge_goals(&judge, force, memory, because, steps)
}
