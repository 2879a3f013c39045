use answers::answer::{Answer, Outcome};
use chooser::{Chooser, MakeFault};
use held::places::Place;
use learning::Learning;
use plain::Plain;
use problem::problem::Problem;
use problem::take::take;
use rounds::search::{Lent, Limits};
use sessions::faults::SessionFault;
use sessions::session::Session;
use sessions::slip::Slip;
use sessiontests::problems::TWO;
use std::process::Abort;
use std::test::Fail;

// The bytes of the model that gives unknown 0 the natural two.
const MODEL: [u8; 12] = [0x4D, 0x44, 0, 2, 1, 1, 2, 1, 1, 2, 1, 0];

fn put(rt: &impl Abort, session: &mut Session) -> Slip {
    match session.put(0) {
        Ok(slip) => slip,
        Err((fault, _blank)) => panic!(rt; "refused {fault}"),
    }
}

fn search<C: Chooser>(
    session: &mut Session,
    problem: &Problem,
    chooser: &mut C,
    depth: usize,
) -> Result<Answer, SessionFault> {
    let mut places = [Place::BLANK; 6 * 64];
    let mut literals = [0; 4096];
    let mut lent = Lent {
        places: &mut places,
        literals: &mut literals,
    };
    let limits = Limits {
        depth,
        rounds: 100,
        steps: 64,
    };
    session.search(problem, chooser, limits, &mut [0; 4096], &mut lent)
}

fn finds<C: Chooser>(
    rt: &impl Abort,
    session: &mut Session,
    problem: &Problem,
    chooser: &mut C,
    depth: usize,
    outcome: Outcome,
) {
    assert_eq!(rt;
        search(session, problem, chooser, depth).map(|answer| answer.outcome),
        Ok(outcome)
    );
}

// No model is at hand, also where there is no room for one.
fn has_none(rt: &impl Abort, session: &Session, problem: &Problem) {
    let mut output = [7; 64];
    assert_eq!(rt;
        session.model(problem, &mut output),
        Err(SessionFault::NoModel)
    );
    assert_eq!(rt; output, [7; 64]);
    assert_eq!(rt; session.model(problem, &mut []), Err(SessionFault::NoModel));
}

// The model has just room, or a byte too few.
fn has_model(rt: &impl Abort, session: &Session, problem: &Problem) {
    let mut output = [7; 12];
    assert_eq!(rt;
        session.model(problem, &mut output[..11]),
        Err(SessionFault::SmallOutput)
    );
    assert_eq!(rt; output, [7; 12]);
    assert_eq!(rt; session.model(problem, &mut output), Ok(12));
    assert_eq!(rt; output, MODEL);
}

// A model is at hand from the search that finds it up to the next put or search.
fn model<C: Chooser>(rt: &impl Abort, problem: &Problem, chooser: &mut C) {
    let mut session = Session::new();
    has_none(rt, &session, problem);
    assert_eq!(rt; session.begin(problem, chooser), Ok(()));
    has_none(rt, &session, problem);
    let slip = put(rt, &mut session);
    has_none(rt, &session, problem);
    finds(rt, &mut session, problem, chooser, 3, Outcome::Model);
    has_model(rt, &session, problem);
    keeps(rt, &mut session, problem, chooser);
    assert_eq!(rt; session.give_back(slip), Ok(()));
    has_none(rt, &session, problem);
}

// Refused calls leave the model at hand, and a search that answers NONE does not.
fn keeps<C: Chooser>(rt: &impl Abort, session: &mut Session, problem: &Problem, chooser: &mut C) {
    assert_eq!(rt;
        search(session, problem, chooser, 0),
        Err(SessionFault::BadDepth)
    );
    has_model(rt, session, problem);
    finds(rt, session, problem, chooser, 2, Outcome::None);
    has_none(rt, session, problem);
    finds(rt, session, problem, chooser, 3, Outcome::Model);
    has_model(rt, session, problem);
}

fn plain(rt: &HostRuntime) -> Result<Plain, MakeFault> {
    Plain::new(rt.alloc(), 256)
}

fn learning(rt: &HostRuntime) -> Result<Learning, MakeFault> {
    Learning::new(rt.alloc(), 256)
}

#[test]
fn a_model_is_at_hand(rt: HostRuntime) -> Result<(), Fail> {
    let problem = take(rt.alloc(), &TWO)?;
    model(&rt, &problem, &mut plain(&rt)?);
    model(&rt, &problem, &mut learning(&rt)?);
    Ok(())
}
