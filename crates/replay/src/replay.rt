// Replays a model.
ghost use Rattle.std.specs.Prelude.{◌≡◌, ℕ, ◌*◌, ◌<◌, ◌≤◌, length, slice_index};
ghost use Rattle.problem.specs.Meant.{meant};
ghost use Rattle.replay.specs.Replays.{answer_of, Replayed};

use crate::faults::ReplayFault;
use held::explanation::Explanation;
use held::places::Place;
use judge::decides::Decides;
use judge::judge::Judge;
use judge::left::STEP_PLACES;
use model::deciding::read_model;
use problem::problem::Problem;

// The most steps that a goal may have.
pub const MOST_STEPS: usize = 4096;

// Judges every goal, each with all the steps, into one byte of the answer.
fn judge_all<D: Decides>(
    judge: &Judge<'_, D>,
    steps: usize,
    places: &mut [Place],
    answer: &mut [u8],
)
    requires room { 6 * steps ≤ length places.old }
    requires long { length answer.old ≡ length (meant judge.now.problem.now).goals }
    ensures { (g : ℕ) → g < length answer.new → slice_index answer.new g ≡ answer_of (meant judge.now.problem.now) (D.unknowns judge.now.decider.now) steps g }
{
    for (goal, byte) in answer.iter_mut().enumerate() {
        let mut because = Explanation::nothing();
        *byte = judge.judge_goal(places, &mut because, steps, goal).byte();
    }
}

// Decides the unknowns by model bytes and judges every goal, with so many steps each: the byte is 0 for false, 1 for true,
// 2 where the steps do not suffice and 3 for waiting. A refusal leaves the answer as it was.
pub fn replay<'a>(
    problem: &'a Problem,
    bytes: &'a [u8],
    steps: usize,
    memory: &mut [Place],
    answer: &mut [u8],
) -> Result<(), ReplayFault>
    ensures { Replayed (meant problem.now) bytes.now steps (length memory.old) answer.old answer.new result }
{
    if steps < 1 || steps > MOST_STEPS {
        return Err(ReplayFault::Steps);
    }
    if memory.len() < STEP_PLACES * steps {
        return Err(ReplayFault::Places);
    }
    if answer.len() != problem.goals() {
        return Err(ReplayFault::AnswerLength);
    }
    let model = read_model(problem, bytes)?;
    let judge = Judge {
        problem,
        decider: &model,
    };
    judge_all(&judge, steps, memory, answer);
    Ok(())
}
