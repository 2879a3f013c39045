// What the rules make of heads and verdicts that are at hand.
ghost use Rattle.std.specs.Prelude.{ℕ, List, Some};
ghost use Rattle.std.proofs.Math.Option.{Option as Maybe};
ghost use Rattle.judging.specs.Judging.{Head as HeadOf, Verdict as VerdictOf, go_on, give, negation, and_true, and_waits, truth, after_same, after_wait};
ghost use Rattle.held.specs.Reading.{Text};
ghost use Rattle.judge.specs.declared.left.Budget.{Budget};
ghost use Rattle.judge.specs.Means.{Explains, Agrees, Concurs, Few};

use crate::answers::{Head, Verdict};
use held::explanation::Explanation;

// True for false, and false for true.
pub fn negate(a: Head) -> Head
    ensures few { Few (Some result) }
    ensures agrees { (x : Text) (l : Budget) (e f : List ℕ) (o : Maybe (HeadOf ℕ × ℕ)) → Agrees x l e f (Some a) o → Agrees x l e f (Some result) (go_on (λ h. give (negation h)) o) }
{
    match a {
        Head::Is { .. } => {
            if a.is_false() {
                Head::TRUE
            } else {
                Head::FALSE
            }
        }
        Head::Waits(u) => Head::Waits(u),
    }
}

// The right side of an `and` whose left side is true, with an explanation of its own.
pub fn and_true(a: Head, own: &Explanation, because: &mut Explanation) -> Head
    ensures few { Few (Some result) }
    ensures agrees { (x : Text) (l : Budget) (e E : List ℕ) (o : Maybe (HeadOf ℕ × ℕ)) → Explains own.now.words E → Agrees x l e because.old.words (Some a) o → Agrees x l e because.new.words (Some result) (go_on (λ h. give (and_true E h)) o) }
{
    match a {
        Head::Is { .. } => {
            if a.is_false() {
                return Head::FALSE;
            }
            because.join(own);
            Head::TRUE
        }
        Head::Waits(right) => Head::Waits(right),
    }
}

// The right side of an `and` whose left side waits.
// Kept as it is: a rule of its own beside the one before, which differs in each answer but one.
pub fn and_waits(unknown: u16, a: Head) -> Head
    ensures few { Few (Some result) }
    ensures agrees { (x : Text) (l : Budget) (e f : List ℕ) (o : Maybe (HeadOf ℕ × ℕ)) → Agrees x l e f (Some a) o → Agrees x l e f (Some result) (go_on (λ h. give (and_waits unknown h)) o) }
{
    match a {
        Head::Is { .. } => {
            if a.is_false() {
                return Head::FALSE;
            }
            Head::Waits(unknown)
        }
        Head::Waits(_) => Head::Waits(unknown),
    }
}

// A verdict as a head of type Bool.
pub fn truth(a: Verdict) -> Head
    ensures few { Few (Some result) }
    ensures agrees { (x : Text) (l : Budget) (e f : List ℕ) (o : Maybe (VerdictOf ℕ × ℕ)) → Concurs l e f (Some a) o → Agrees x l e f (Some result) (go_on (λ v. give (truth v)) o) }
{
    match a {
        Verdict::Same => Head::TRUE,
        Verdict::Differ => Head::FALSE,
        Verdict::Wait(u) => Head::Waits(u),
    }
}

// The verdict of the later arguments, after a pair that is the same with an explanation of its own.
pub fn past_same(rest: Verdict, own: &Explanation, because: &mut Explanation) -> Verdict
    ensures { (l : Budget) (e E : List ℕ) (o : Maybe (VerdictOf ℕ × ℕ)) → Explains own.now.words E → Concurs l e because.old.words (Some rest) o → Concurs l e because.new.words (Some result) (go_on (λ v. give (after_same E v)) o) }
{
    if let Verdict::Same = rest {
        because.join(own);
    }
    rest
}

// The verdict of the later arguments, after a pair that waits.
pub fn past_wait(unknown: u16, rest: Verdict) -> Verdict
    ensures { (l : Budget) (e f : List ℕ) (o : Maybe (VerdictOf ℕ × ℕ)) → Concurs l e f (Some rest) o → Concurs l e f (Some result) (go_on (λ v. give (after_wait unknown v)) o) }
{
    match rest {
        Verdict::Same => Verdict::Wait(unknown),
        Verdict::Wait(_) => Verdict::Wait(unknown),
        Verdict::Differ => Verdict::Differ,
    }
}
