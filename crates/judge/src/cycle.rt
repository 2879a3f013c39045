// Heads, comparings and lists of arguments, which call one another while steps are left.
ghost use Rattle.judge.specs.Texts.{text_of};
ghost use Rattle.judge.specs.Means.{Heads, TermsHeads, CasesHeads, AndsHeads, Compares, Compared, Pairs, Few, Kept, HasRoom};

use crate::answers::{Head, Verdict};
use crate::decides::Decides;
use crate::held_terms::{decided, hold_branch, hold_terms};
use crate::judge::Judge;
use crate::left::Budget;
use crate::outcomes::{and_true, and_waits, negate, past_same, past_wait, truth};
use held::explanation::Explanation;
use held::links::Link;
use held::places::Held;
use problem::view::View;

impl<D: Decides> Judge<'_, D> {
    // The head of a held term, for one step.
    #[cycle(judging)]
    pub fn head(&self, left: &mut Budget, because: &mut Explanation, at: Held) -> Option<Head>
        requires { HasRoom 0 left.old }
        ensures kept { Kept 0 left.old left.new }
        ensures few { Few result }
        ensures heads { Heads (text_of self.now.problem.now) (D.unknowns self.now.decider.now) left.old because.old.words left.new because.new.words at result }
    {
        // Kept as it is: `checked_sub(1)?` was tried and takes 15.5 % more instructions on chain-1000.
        if left.steps == 0 {
            return None; // no step for a head
        }
        left.steps -= 1;
        match at {
            Held::Missing => Some(Head::FALSE),
            Held::Unknown(unknown) => Some(decided(self.decider, left, because, unknown)),
            Held::Term { place, env } => self.head_of_term(left, because, place, env),
        }
    }

    // The head of a term in an environment, once its step is taken.
    #[cycle(judging)]
    fn head_of_term(
        &self,
        left: &mut Budget,
        because: &mut Explanation,
        place: usize,
        env: Link,
    ) -> Option<Head>
        requires { HasRoom 6 left.old }
        ensures kept { Kept 6 left.old left.new }
        ensures few { Few result }
        ensures heads { TermsHeads (text_of self.now.problem.now) (D.unknowns self.now.decider.now) left.old because.old.words left.new because.new.words place env result }
    {
        match self.problem.view(place) {
            View::Variable(variable) => {
                let held = left.memory.lookup(env, variable);
                self.head(left, because, held)
            }
            View::Unknown(number) => {
                let unknown = self.decider.root(number);
                Some(decided(self.decider, left, because, unknown))
            }
            View::Constructor {
                constructor,
                arity,
                arguments,
                ..
            } => Some(self.constructed(left, constructor, arity, arguments, env)),
            View::Call {
                function,
                arity,
                arguments,
            } => {
                let count = arity.min(6);
                let env = hold_terms(
                    self.problem,
                    &mut left.memory,
                    arguments,
                    count,
                    env,
                    Link::NONE,
                );
                let place = self.problem.body(function);
                let body = Held::Term { place, env };
                self.head(left, because, body)
            }
            View::Case { ty, subject } => self.head_of_case(left, because, ty, subject, env),
            View::And { left: a, right: b } => self.head_of_and(left, because, a, b, env),
            View::Not(place) => {
                let inner = Held::Term { place, env };
                let a = self.head(left, because, inner)?;
                Some(negate(a))
            }
            View::Equal { left: a, right: b } => {
                let a = Held::Term { place: a, env };
                let b = Held::Term { place: b, env };
                let v = self.compared(left, because, a, b)?;
                Some(truth(v))
            }
            // No term stands there.
            View::Nothing => None,
        }
    }

    // A case: the head of its subject, and then of that branch.
    #[cycle(judging)]
    fn head_of_case(
        &self,
        left: &mut Budget,
        because: &mut Explanation,
        ty: u8,
        subject: usize,
        env: Link,
    ) -> Option<Head>
        requires { HasRoom 6 left.old }
        ensures kept { Kept 6 left.old left.new }
        ensures few { Few result }
        ensures heads { CasesHeads (text_of self.now.problem.now) (D.unknowns self.now.decider.now) left.old because.old.words left.new because.new.words ty subject env result }
    {
        let asked = Held::Term {
            place: subject,
            env,
        };
        match self.head(left, because, asked)? {
            Head::Is {
                start,
                constructor,
                count,
            } => {
                let env = left.memory.bind(start, count, env);
                let branch = hold_branch(self.problem, ty, subject, constructor, env);
                self.head(left, because, branch)
            }
            Head::Waits(unknown) => Some(Head::Waits(unknown)),
        }
    }

    // An `and`: its left side, which may decide it, and then its right side.
    #[cycle(judging)]
    fn head_of_and(
        &self,
        left: &mut Budget,
        because: &mut Explanation,
        a: usize,
        b: usize,
        env: Link,
    ) -> Option<Head>
        requires { HasRoom 0 left.old }
        ensures kept { Kept 0 left.old left.new }
        ensures few { Few result }
        ensures heads { AndsHeads (text_of self.now.problem.now) (D.unknowns self.now.decider.now) left.old because.old.words left.new because.new.words a b env result }
    {
        let mut own = Explanation::nothing();
        let a = Held::Term { place: a, env };
        let b = Held::Term { place: b, env };
        let first = self.head(left, &mut own, a)?;
        if first.is_false() {
            because.join(&own);
            return Some(Head::FALSE);
        }
        let right = self.head(left, because, b)?;
        match first {
            Head::Is { .. } => Some(and_true(right, &own, because)),
            Head::Waits(unknown) => Some(and_waits(unknown, right)),
        }
    }

    // Whether two held terms are the same, for one step.
    #[cycle(judging)]
    pub fn compare(
        &self,
        left: &mut Budget,
        because: &mut Explanation,
        a: Held,
        b: Held,
    ) -> Option<Verdict>
        requires { HasRoom 0 left.old }
        ensures kept { Kept 0 left.old left.new }
        ensures compares { Compares (text_of self.now.problem.now) (D.unknowns self.now.decider.now) left.old because.old.words left.new because.new.words a b result }
    {
        // Kept as it is: with the test in `head`, `checked_sub(1)?` here takes as many instructions, and is no plainer beside it.
        if left.steps == 0 {
            return None; // no step for a comparing
        }
        left.steps -= 1;
        self.compared(left, because, a, b)
    }

    // The heads of both, and then their arguments, once the step is taken.
    #[cycle(judging)]
    fn compared(
        &self,
        left: &mut Budget,
        because: &mut Explanation,
        a: Held,
        b: Held,
    ) -> Option<Verdict>
        requires { HasRoom 0 left.old }
        ensures kept { Kept 0 left.old left.new }
        ensures compared { Compared (text_of self.now.problem.now) (D.unknowns self.now.decider.now) left.old because.old.words left.new because.new.words a b result }
    {
        let first = self.head(left, because, a)?;
        let second = self.head(left, because, b)?;
        match (first, second) {
            (
                Head::Is {
                    start: xs,
                    constructor: c,
                    count: n,
                },
                Head::Is {
                    start: ys,
                    constructor: d,
                    count: k,
                },
            ) => {
                if c == d {
                    self.arguments(left, because, xs, ys, n.min(k))
                } else {
                    Some(Verdict::Differ)
                }
            }
            (Head::Is { .. }, Head::Waits(unknown)) => Some(Verdict::Wait(unknown)),
            (Head::Waits(unknown), _) => Some(Verdict::Wait(unknown)),
        }
    }

    // Two rows of arguments in order, past pairs that wait, up to the first that differ.
    // Kept as it is: a verdict is made of that of the later arguments, as in the definition. A loop would carry the first
    // pair that waits and an explanation of its own beside, and is no plainer.
    #[cycle(judging)]
    fn arguments(
        &self,
        left: &mut Budget,
        because: &mut Explanation,
        xs: usize,
        ys: usize,
        count: u8,
    ) -> Option<Verdict>
        requires { HasRoom 0 left.old }
        ensures kept { Kept 0 left.old left.new }
        ensures pairs { Pairs (text_of self.now.problem.now) (D.unknowns self.now.decider.now) left.old because.old.words left.new because.new.words xs ys count result }
    {
        let places = left.memory.places.len();
        if count == 0 || xs >= places || ys >= places {
            return Some(Verdict::Same);
        }
        let x = left.memory.argument(xs);
        let y = left.memory.argument(ys);
        let xs = xs + 1;
        let ys = ys + 1;
        let mut own = Explanation::nothing();
        match self.compare(left, &mut own, x, y)? {
            Verdict::Same => {
                let rest = self.arguments(left, because, xs, ys, count - 1)?;
                Some(past_same(rest, &own, because))
            }
            Verdict::Differ => {
                because.join(&own);
                Some(Verdict::Differ)
            }
            Verdict::Wait(unknown) => {
                let rest = self.arguments(left, because, xs, ys, count - 1)?;
                Some(past_wait(unknown, rest))
            }
        }
    }
}
