// Answers and models as text.
ghost use Rattle.boundary.specs.Texts.{Lined, Showed};

use crate::answering::DepthAnswer;
use crate::faults::LoadFault;
use crate::loading::load;
use std::alloc::Global;
use telling::{line, show};

// Writes the line of an answer, and answers how many bytes it has.
pub fn line_of(depth: usize, answer: &DepthAnswer, output: &mut [u8]) -> Result<usize, LoadFault>
    ensures { Lined depth answer.now output.old output.new result }
{
    let answer = answer.read()?;
    Ok(line::line(depth, &answer, output)?)
}

// Writes a line for each unknown of the problem, with its value by the model, and answers how many bytes they have.
pub fn show_model(
    heap: Global,
    bytes: &[u8],
    model: &[u8],
    output: &mut [u8],
) -> Result<usize, LoadFault>
    ensures { Showed bytes.now model.now output.old output.new result }
{
    let problem = load(heap, bytes)?;
    Ok(show::show(&problem, model, output)?)
}
