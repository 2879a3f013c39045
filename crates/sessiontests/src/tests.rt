use crate::bare::Bare;
use crate::problems::{EMPTY, TWO};
use chooser::{Chooser, Fault, MakeFault};
use learning::Learning;
use plain::Plain;
use problem::problem::Problem;
use problem::take::take;
use sessions::faults::SessionFault;
use sessions::session::Session;
use sessions::slip::Slip;
use std::process::Abort;
use std::test::Fail;

fn begin<C: Chooser>(rt: &impl Abort, problem: &Problem, chooser: &mut C) -> Session {
    let mut session = Session::new();
    assert_eq!(rt; session.begin(problem, chooser), Ok(()));
    session
}

fn put(rt: &impl Abort, session: &mut Session, goal: u8) -> Slip {
    match session.put(goal) {
        Ok(slip) => slip,
        Err((fault, _blank)) => panic!(rt; "refused {fault}"),
    }
}

// The slip of a refusal is blank, and to give it back is refused.
fn put_refused(rt: &impl Abort, session: &mut Session, goal: u8, fault: SessionFault) {
    match session.put(goal) {
        Ok(slip) => assert_eq!(rt; session.give_back(slip).err(), Some(fault)),
        Err((found, blank)) => {
            assert_eq!(rt; found, fault);
            assert_eq!(rt; session.give_back(blank), Err(SessionFault::NotInForce));
        }
    }
}

// A chooser that has a variable, and one that allows no way.
fn not_new<C: Chooser>(rt: &impl Abort, problem: &Problem, with_variable: &mut C, closed: &mut C) {
    let mut session = Session::new();
    assert_eq!(rt; with_variable.new_variable(), Ok(0));
    assert_eq!(rt;
        session.begin(problem, with_variable),
        Err(SessionFault::NotNew)
    );
    assert_eq!(rt; closed.add(&[]), Ok(()));
    assert_eq!(rt; session.begin(problem, closed), Err(SessionFault::NotNew));
    put_refused(rt, &mut session, 0, SessionFault::NoSuchGoal);
}

// One with no variable left is not new, before it has too few.
fn used_up<C: Chooser>(rt: &impl Abort, problem: &Problem, chooser: &mut C) {
    for variable in 0..4096 {
        assert_eq!(rt; chooser.new_variable(), Ok(variable));
    }
    let mut session = Session::new();
    assert_eq!(rt; session.begin(problem, chooser), Err(SessionFault::NotNew));
}

// A goal before begin, the first and the one past the last after it, and one that is in force.
fn puts<C: Chooser>(rt: &impl Abort, problem: &Problem, chooser: &mut C) {
    let mut session = Session::new();
    put_refused(rt, &mut session, 0, SessionFault::NoSuchGoal);
    assert_eq!(rt; session.begin(problem, chooser), Ok(()));
    put_refused(rt, &mut session, 1, SessionFault::NoSuchGoal);
    let slip = put(rt, &mut session, 0);
    put_refused(rt, &mut session, 0, SessionFault::InForce);
    assert_eq!(rt; session.give_back(slip), Ok(()));
    let slip = put(rt, &mut session, 0);
    assert_eq!(rt; session.give_back(slip), Ok(()));
}

// The slip of another session, before begin.
fn gives_back_before_begin<C: Chooser>(rt: &impl Abort, problem: &Problem, chooser: &mut C) {
    let mut elsewhere = begin(rt, problem, chooser);
    let slip = put(rt, &mut elsewhere, 0);
    let mut session = Session::new();
    assert_eq!(rt; session.give_back(slip), Err(SessionFault::NotInForce));
}

// The slip of a goal that was in force before another begin.
fn gives_back_late<C: Chooser>(rt: &impl Abort, problem: &Problem, one: &mut C, other: &mut C) {
    let mut session = begin(rt, problem, one);
    let slip = put(rt, &mut session, 0);
    assert_eq!(rt; session.begin(problem, other), Ok(()));
    assert_eq!(rt; session.give_back(slip), Err(SessionFault::NotInForce));
}

// It is taken where the goal is in force again, and what was put then is in force no longer.
fn gives_back_again<C: Chooser>(rt: &impl Abort, problem: &Problem, one: &mut C, other: &mut C) {
    let mut session = begin(rt, problem, one);
    let old = put(rt, &mut session, 0);
    assert_eq!(rt; session.begin(problem, other), Ok(()));
    let new = put(rt, &mut session, 0);
    assert_eq!(rt; session.give_back(old), Ok(()));
    assert_eq!(rt; session.give_back(new), Err(SessionFault::NotInForce));
}

fn plain(rt: &HostRuntime) -> Result<Plain, MakeFault> {
    Plain::new(rt.alloc(), 64)
}

fn learning(rt: &HostRuntime) -> Result<Learning, MakeFault> {
    Learning::new(rt.alloc(), 64)
}

#[test]
fn begin_refuses_a_chooser_that_is_not_new(rt: HostRuntime) -> Result<(), Fail> {
    let problem = take(rt.alloc(), &TWO)?;
    not_new(&rt, &problem, &mut plain(&rt)?, &mut plain(&rt)?);
    not_new(&rt, &problem, &mut learning(&rt)?, &mut learning(&rt)?);
    used_up(&rt, &problem, &mut plain(&rt)?);
    used_up(&rt, &problem, &mut learning(&rt)?);
    Ok(())
}

// The chooser's fault is inside. Without goals it has enough.
#[test]
fn begin_refuses_too_few_variables(rt: HostRuntime) -> Result<(), Fail> {
    let mut session = Session::new();
    let two = take(rt.alloc(), &TWO)?;
    let fault = SessionFault::TooFewVariables(Fault::NoVariable);
    assert_eq!(rt; session.begin(&two, &mut Bare), Err(fault));
    put_refused(&rt, &mut session, 0, SessionFault::NoSuchGoal);
    let empty = take(rt.alloc(), &EMPTY)?;
    assert_eq!(rt; session.begin(&empty, &mut Bare), Ok(()));
    Ok(())
}

#[test]
fn put_refuses_goals(rt: HostRuntime) -> Result<(), Fail> {
    let problem = take(rt.alloc(), &TWO)?;
    puts(&rt, &problem, &mut plain(&rt)?);
    puts(&rt, &problem, &mut learning(&rt)?);
    Ok(())
}

#[test]
fn give_back_refuses_slips(rt: HostRuntime) -> Result<(), Fail> {
    let problem = take(rt.alloc(), &TWO)?;
    gives_back_before_begin(&rt, &problem, &mut plain(&rt)?);
    gives_back_late(&rt, &problem, &mut plain(&rt)?, &mut plain(&rt)?);
    gives_back_late(&rt, &problem, &mut learning(&rt)?, &mut learning(&rt)?);
    gives_back_again(&rt, &problem, &mut plain(&rt)?, &mut plain(&rt)?);
    gives_back_again(&rt, &problem, &mut learning(&rt)?, &mut learning(&rt)?);
    Ok(())
}
