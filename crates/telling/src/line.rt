// The line that tells of an answer.
ghost use Rattle.std.specs.Prelude.{◌≡◌, ◌+◌, ◌≤◌};
ghost use Rattle.telling.specs.Lines.{line_text};
ghost use Rattle.telling.specs.Pages.{Adds};
ghost use Rattle.telling.specs.Told.{Told};

use crate::faults::TellFault;
use crate::page::Page;
use answers::answer::Answer;

impl Page<'_> {
    fn line(&mut self, depth: usize, answer: &Answer)
        requires empty { self.old.length ≡ 0 }
        ensures same { self.new.output.ghost_name ≡ self.old.output.ghost_name }
        ensures adds { Adds self.old (line_text depth answer.now) self.new }
    {
        self.labelled("depth ", depth);
        self.text(" ");
        self.text(answer.outcome.word());
        self.labelled(" rounds ", answer.rounds);
        self.labelled(" opened ", answer.opened);
        self.labelled(" recorded ", answer.recorded);
        self.text("\n");
    }
}

// Writes `depth 3 MODEL rounds 2 opened 1 recorded 0`, say, and a newline; answers how many bytes it wrote. Refused where the
// output is too short, which then stays as it was.
pub fn line(depth: usize, answer: &Answer, output: &mut [u8]) -> Result<usize, TellFault>
    ensures { Told (line_text depth answer.now) output.old output.new result }
{
    let mut measured = Page::new(&mut []);
    measured.line(depth, answer);
    if measured.length > output.len() {
        return Err(TellFault::SmallOutput);
    }
    let mut page = Page::new(output);
    page.line(depth, answer);
    Ok(page.length)
}
