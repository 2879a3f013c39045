// Terms of the problem, held in the memory.
ghost use Rattle.std.specs.Prelude.{◌≡◌, ℕ, ◌+◌, ◌≤◌, List, [], length, Some, None, Option};
ghost use Rattle.std.proofs.Math.Option.{some};
ghost use Rattle.syntax.specs.Terms.{Term, Terms, ◌t∷◌};
ghost use Rattle.syntax.specs.Typing.{constructors as count_of};
ghost use Rattle.syntax.specs.Problems.{sig_of};
ghost use Rattle.judging.specs.Held.{Helds, hold as held, branch, holds, ◌h++◌};
ghost use Rattle.judging.specs.Judging.{is, of_unknown};
ghost use Rattle.held.specs.declared.places.Place.{Place as Spot};
ghost use Rattle.held.specs.Reading.{Text, Reads};
ghost use Rattle.held.specs.Standing.{Stands, Env, Row};
ghost use Rattle.held.specs.Growing.{Grown};
ghost use Rattle.judge.specs.Texts.{text_of, ReadsAll, tlength};
ghost use Rattle.judge.specs.Means.{Agrees, Few, Kept, HasRoom};

use crate::answers::Head;
use crate::decides::Decides;
use crate::judge::Judge;
use crate::left::Budget;
use held::explanation::Explanation;
use held::links::Link;
use held::memory::Memory;
use held::places::Held;
use problem::problem::Problem;

// The branch for a constructor, of a case on the type `ty` whose subject is at a place.
pub fn hold_branch(problem: &Problem, ty: u8, subject: usize, constructor: u8, env: Link) -> Held
    ensures { (m : List Spot) (top : ℕ) (u : Term) (us : Terms) (ρ : Helds ℕ) → count_of (sig_of (text_of problem.now).problem) ty ≡ tlength us → ReadsAll (text_of problem.now) subject (u t∷ us) → Env (Reads (text_of problem.now)) m top env ρ → Stands (Reads (text_of problem.now)) m top result (held (branch us constructor) ρ) }
{
    if constructor < problem.constructors(ty) {
        let place = problem.past(subject, 1 + usize::from(constructor));
        Held::Term { place, env }
    } else {
        Held::Missing
    }
}

// Holds the terms from a place on, in an environment: as a row, and as the newest bindings of `onto`, whose link it gives.
pub fn hold_terms(
    problem: &Problem,
    memory: &mut Memory,
    place: usize,
    count: u8,
    env: Link,
    onto: Link,
) -> Link
    requires { memory.old.top + count ≤ length memory.old.places.now }
    ensures grown { Grown count memory.old memory.new }
    ensures row { (ts : Terms) (ρ : Helds ℕ) → count ≡ tlength ts → ReadsAll (text_of problem.now) place ts → Env (Reads (text_of problem.now)) memory.old.places.now memory.old.top env ρ → Row (Reads (text_of problem.now)) memory.new.places.now memory.new.top memory.old.top (holds ts ρ) }
    ensures bound { (ts : Terms) (ρ σ : Helds ℕ) → count ≡ tlength ts → ReadsAll (text_of problem.now) place ts → Env (Reads (text_of problem.now)) memory.old.places.now memory.old.top env ρ → Env (Reads (text_of problem.now)) memory.old.places.now memory.old.top onto σ → Env (Reads (text_of problem.now)) memory.new.places.now memory.new.top result (σ h++ holds ts ρ) }
{
    let mut place = place;
    let mut bound = onto;
    for _ in 0..count {
        bound = memory.push(Held::Term { place, env }, bound);
        place = problem.after(place);
    }
    bound
}

// The head of an unknown: what is chosen for it, which explains it, or it waits.
pub fn decided<D: Decides>(
    decider: &D,
    left: &mut Budget,
    because: &mut Explanation,
    unknown: u16,
) -> Head
    requires { HasRoom 6 left.old }
    ensures kept { Kept 6 left.old left.new }
    ensures few { Few (Some result) }
    ensures agrees { (x : Text) → Agrees x left.new because.old.words because.new.words (Some result) (some (of_unknown (D.unknowns decider.now) unknown ((D.unknowns decider.now).chosen unknown), left.old.steps)) }
{
    match decider.choice(unknown) {
        Some(choice) => {
            because.add(unknown);
            let start = left.memory.top;
            let children = choice.children.as_slice();
            left.memory.hold_unknowns(children);
            Head::Is {
                start,
                constructor: choice.constructor,
                count: children.len() as u8,
            }
        }
        None => Head::Waits(unknown),
    }
}

impl<D: Decides> Judge<'_, D> {
    // The head of a constructor's term: its arguments are held as a row.
    pub(crate) fn constructed(
        &self,
        left: &mut Budget,
        constructor: u8,
        arity: u8,
        arguments: usize,
        env: Link,
    ) -> Head
        requires { HasRoom 6 left.old }
        ensures kept { Kept 6 left.old left.new }
        ensures few { Few (Some result) }
        ensures agrees { (e : List ℕ) (ts : Terms) (ρ : Helds ℕ) → arity ≡ tlength ts → arity ≤ 6 → ReadsAll (text_of self.now.problem.now) arguments ts → Env (Reads (text_of self.now.problem.now)) left.old.memory.places.now left.old.memory.top env ρ → Agrees (text_of self.now.problem.now) left.new e e (Some result) (some (is constructor (holds ts ρ) [], left.old.steps)) }
    {
        let start = left.memory.top;
        let count = arity.min(6);
        hold_terms(
            self.problem,
            &mut left.memory,
            arguments,
            count,
            env,
            Link::NONE,
        );
        Head::Is {
            start,
            constructor,
            count,
        }
    }
}
