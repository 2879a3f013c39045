// What a problem says, each question answered from the tables for every number that can be asked.
ghost use Rattle.std.specs.Prelude.{◌≡◌, ◌+◌, ◌<◌, ◌≤◌, length, slice_index, slice_index_or};
ghost use Rattle.syntax.specs.Typing.{constructors as constructors_of, arguments as arguments_of, params_of, result_of};
ghost use Rattle.syntax.specs.Tables.{declared_in};
ghost use Rattle.syntax.specs.Least.{least_of, need_of};
ghost use Rattle.ends.specs.Ends.{hop, hops};
ghost use Rattle.verdict.specs.Exact.{Encodes};
ghost use Rattle.kept.specs.Layout.{body_places, goal_places};
ghost use Rattle.problem.specs.Meant.{held, meant, sig, ends, BodyStands, GoalStands, ComesAfter};
ghost use Rattle.problem.specs.Views.{view_by, view_at, AlwaysShows, FewParts};

use crate::problem::Problem;
use crate::view::View;
use ends::ends::past;
use reading::parts::Tag;
use syntax::limits::NO_VALUE;
use syntax::tables::Signature;

// Kept as it is: where a number names nothing, the answer is a number or a place too (9, 1, 0, the end of the bytes, the place that
// was asked about): the abstract problem answers every number so, and the judge goes on from these answers without a test.

impl Problem {
    // The tables as declarations.
    fn declared(&self) -> Signature<'_>
        ensures { declared_in result ≡ sig self.now }
    {
        self.tables.signature()
    }

    // The bytes of the problem: the encoding of what it means, which is lawful.
    pub fn bytes(&self) -> &[u8]
        ensures is { result.now ≡ held self.now }
        ensures encodes { Encodes (meant self.now) result.now }
    {
        self.bytes.as_slice()
    }

    // How many types there are, Bool included.
    pub fn types(&self) -> usize
        ensures { result ≡ length (sig self.now).types }
    {
        self.tables.types.len()
    }

    // How many constructors a type has.
    pub fn constructors(&self, t: u8) -> u8
        ensures { result ≡ constructors_of (sig self.now) t }
    {
        self.declared().case_count(t)
    }

    // The types of a constructor's arguments.
    pub fn arguments(&self, t: u8, c: u8) -> &[u8]
        ensures is { result.now ≡ arguments_of (sig self.now) t c }
        ensures few { length result.now ≤ 6 }
    {
        self.declared().arguments(t, c)
    }

    // The least depth of a type's values, 9 where there is no such type.
    pub fn least(&self, t: u8) -> u8
        ensures { result ≡ least_of (sig self.now) t }
    {
        let least = self.tables.least.get(usize::from(t));
        least.map_or(NO_VALUE, |depth| *depth)
    }

    // What a constructor needs, and for no such constructor what a constant needs.
    pub fn need(&self, t: u8, c: u8) -> u8
        ensures { result ≡ need_of (sig self.now) t c }
    {
        // Kept as it is: tried by two calls of `get`, as the queries beside it go; the proof was not found.
        if c >= self.constructors(t) {
            return 1;
        }
        let row = self.needs[usize::from(t)];
        row[usize::from(c)]
    }

    // How many functions there are.
    pub fn functions(&self) -> usize
        ensures { result ≡ length (meant self.now).functions }
    {
        self.tables.functions.len()
    }

    // The types of a function's parameters.
    pub fn params(&self, f: u8) -> &[u8]
        ensures is { result.now ≡ params_of (sig self.now) f }
        ensures few { length result.now ≤ 6 }
    {
        self.declared().params(f)
    }

    // The type of a function's result, Bool where there is no such function.
    pub fn result(&self, f: u8) -> u8
        ensures { result ≡ result_of (sig self.now) f }
    {
        let function = self.tables.functions.get(usize::from(f));
        function.map_or(0, |function| function.result)
    }

    // The place of a function's body, the end of the bytes where there is no such function.
    pub fn body(&self, f: u8) -> usize
        ensures is { result ≡ slice_index_or (body_places (meant self.now)) f (length (held self.now)) }
        ensures stands { BodyStands self.now f result }
    {
        let function = self.tables.functions.get(usize::from(f));
        function.map_or(self.bytes.len(), |function| function.body.start)
    }

    // The types of the unknowns.
    pub fn unknowns(&self) -> &[u8]
        ensures is { result.now ≡ (meant self.now).unknowns }
        ensures few { length result.now ≤ 16 }
    {
        self.tables.unknowns.as_slice()
    }

    // How many goals there are.
    pub fn goals(&self) -> usize
        ensures { result ≡ length (meant self.now).goals }
    {
        self.tables.goals.len()
    }

    // The place of a goal's term, the end of the bytes where there is no such goal.
    pub fn goal(&self, g: usize) -> usize
        ensures is { result ≡ slice_index_or (goal_places (meant self.now)) g (length (held self.now)) }
        ensures stands { GoalStands self.now g result }
    {
        let goal = self.tables.goals.get(g);
        goal.map_or(self.bytes.len(), |goal| goal.start)
    }

    // The place after the term that stands at a place.
    pub fn after(&self, place: usize) -> usize
        ensures is { result ≡ hop (ends self.now) place }
        ensures after { ComesAfter self.now place result }
    {
        let next = self.next.get(place);
        next.map_or(place, |next| usize::from(*next))
    }

    // The place after so many terms that stand one after another, the first of them at a place.
    pub fn past(&self, place: usize, count: usize) -> usize
        ensures { result ≡ hops (ends self.now) count place }
    {
        past(self.next.as_slice(), place, count)
    }

    // The byte at a place, 0 past the end.
    // Kept as it is: one call of the library's, as `at` in crates/ends, which has bytes and no problem; `after` is such a call too.
    fn byte(&self, place: usize) -> u8
        ensures { result ≡ slice_index (held self.now) place }
    {
        self.bytes.get(place).map_or(0, |byte| *byte)
    }

    // The head of a term at a place, by its tag.
    fn view_by(&self, place: usize, tag: Tag) -> View
        requires { place < length (held self.now) }
        ensures is { result ≡ view_by (sig self.now) (ends self.now) place tag (slice_index (held self.now) (place + 1)) (slice_index (held self.now) (place + 2)) }
        ensures few { FewParts result }
    {
        let a = self.byte(place + 1);
        match tag {
            Tag::Variable => View::Variable(a),
            Tag::Unknown => View::Unknown(a),
            Tag::Constructor => {
                let constructor = self.byte(place + 2);
                View::Constructor {
                    ty: a,
                    constructor,
                    arity: self.declared().arguments(a, constructor).len() as u8,
                    arguments: place + 3,
                }
            }
            Tag::Call => View::Call {
                function: a,
                arity: self.declared().params(a).len() as u8,
                arguments: place + 2,
            },
            Tag::Case => View::Case {
                ty: a,
                subject: place + 2,
            },
            Tag::And => View::And {
                left: place + 1,
                right: self.after(place + 1),
            },
            Tag::Not => View::Not(place + 1),
            Tag::Equal => View::Equal {
                left: place + 2,
                right: self.after(place + 2),
            },
            Tag::Other => View::Nothing,
        }
    }

    // The head of the term that stands at a place, and where its parts stand.
    pub fn view(&self, place: usize) -> View
        ensures is { result ≡ view_at (sig self.now) (held self.now) (ends self.now) place }
        ensures shows { AlwaysShows (sig self.now) (held self.now) (ends self.now) place result }
        ensures few { FewParts result }
    {
        match self.bytes.get(place) {
            Some(tag) => self.view_by(place, Tag::from(*tag)),
            None => View::Nothing,
        }
    }
}
