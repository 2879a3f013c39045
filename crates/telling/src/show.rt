// The text of a model.
ghost use Rattle.std.specs.Prelude.{◌≡◌, ◌+◌, ◌*◌, ◌≤◌, length};
ghost use Rattle.syntax.specs.Problems.{sig_of};
ghost use Rattle.problem.specs.Meant.{meant};
ghost use Rattle.model.specs.Partial.{Partials, Writes};
ghost use Rattle.model.specs.Exact.{ModelIn};
ghost use Rattle.telling.specs.Pages.{Adds};
ghost use Rattle.telling.specs.Shown.{opening, closing, model_text, Shown};
ghost use Rattle.telling.specs.Standing.{Tells};

use crate::faults::TellFault;
use crate::page::Page;
use model::deciding::read_model;
use model::declares::Declares;
use model::model::Model;
use problem::problem::Problem;

// The tag of a constructor.
const CONSTRUCTOR: u8 = 2;

// The bytes before a constructor's arguments: the tag, and the numbers of type and constructor.
const HEAD: usize = 3;

// The bytes before an unknown's value: the mark of its record, and its number.
const MARK: usize = 3;

// What stands before the argument with this number.
fn open(argument: usize) -> &'static str
    ensures exact { result.now ≡ opening argument }
    ensures short { length result.now ≤ 1 }
{
    if argument == 0 { "(" } else { "," }
}

// What stands behind so many arguments.
fn close(count: usize) -> &'static str
    ensures exact { result.now ≡ closing count }
    ensures short { length result.now ≤ 1 }
{
    if count == 0 { "" } else { ")" }
}

impl Page<'_> {
    // The value that stands at a place of model bytes; answers the place after it. Each byte gives at most 32 bytes of text.
    fn value(&mut self, model: &Model<'_, Problem>, place: usize) -> usize
        requires low { place ≤ length model.now.bytes.now }
        requires room { self.old.length ≤ 32 * place }
        ensures same { self.new.output.ghost_name ≡ self.old.output.ghost_name }
        ensures within { (place ≤ result) × (result ≤ length model.now.bytes.now) }
        ensures short { self.new.length + 32 * place ≤ self.old.length + 32 * result }
        ensures tells { Tells (sig_of (meant model.now.problem.now)) model.now.bytes.now place result self.old self.new }
    {
        let bytes = model.bytes;
        if place >= bytes.len() {
            return place;
        }
        if bytes[place] != CONSTRUCTOR || place + 2 >= bytes.len() {
            self.text("?");
            return place + 1;
        }
        let constructor = bytes[place + 2];
        self.number(usize::from(constructor));
        let types = model.problem.argument_types(bytes[place + 1], constructor);
        let mut end = place + HEAD;
        for argument in 0..types.len() {
            self.text(open(argument));
            end = self.value(model, end);
        }
        self.text(close(types.len()));
        end
    }

    // A line for each unknown.
    fn model(&mut self, model: &Model<'_, Problem>)
        requires empty { self.old.length ≡ 0 }
        requires read { ModelIn (meant model.now.problem.now) model.now.bytes.now }
        ensures same { self.new.output.ghost_name ≡ self.old.output.ghost_name }
        ensures tells { (ps : Partials) → Writes (meant model.now.problem.now) model.now.bytes.now ps → Adds self.old (model_text ps) self.new }
    {
        let mut place = 0;
        for unknown in 0..model.problem.unknown_types().len() {
            self.labelled("unknown ", unknown);
            self.text(" = ");
            place = self.value(model, place + MARK);
            self.text("\n");
        }
    }
}

// Writes a line for each unknown of the problem, in order, as `unknown 0 = 1(1(0))`, with `?` for an open part; answers how many
// bytes it wrote. First bytes are refused that are no model, then an output that is too short; it then stays as it was.
pub fn show(problem: &Problem, model: &[u8], output: &mut [u8]) -> Result<usize, TellFault>
    ensures { Shown (meant problem.now) model.now output.old output.new result }
{
    let model = read_model(problem, model)?;
    let mut measured = Page::new(&mut []);
    measured.model(&model);
    if measured.length > output.len() {
        return Err(TellFault::SmallOutput);
    }
    let mut page = Page::new(output);
    page.model(&model);
    Ok(page.length)
}
