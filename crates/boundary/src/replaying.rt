// Replaying a written model.
ghost use Rattle.std.specs.Prelude.{◌≡◌, OnErr};
ghost use Rattle.boundary.specs.Replaying.{Judged};

use crate::faults::LoadFault;
use crate::loading::load;
use held::places::Place;
use judge::left::STEP_PLACES;
use replay::replay::{MOST_STEPS, replay};
use std::alloc::Global;

// Judges each goal of the problem under the model, with so many steps each, into a byte of the answer: 0 for false, 1 for true, 2
// where the steps do not suffice and 3 for waiting. Answers how many goals there are. The answer may be longer than that.
pub fn replay_model(
    heap: Global,
    bytes: &[u8],
    model: &[u8],
    steps: usize,
    answer: &mut [u8],
) -> Result<usize, LoadFault>
    ensures judged { Judged bytes.now model.now steps answer.old answer.new result }
    ensures refused { OnErr result (answer.new ≡ answer.old) }
{
    let problem = load(heap, bytes)?;
    let mut places = vec![in heap; Place::BLANK; STEP_PLACES * steps.min(MOST_STEPS)]?;
    let goals = problem.goals();
    let judged = goals.min(answer.len());
    replay(&problem, model, steps, &mut places, &mut answer[..judged])?;
    Ok(goals)
}
