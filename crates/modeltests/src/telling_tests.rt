use answers::answer::{Answer, Outcome};
use problem::take::take;
use sessiontests::problems::TWO;
use std::test::Fail;
use syntax::faults::Reason;
use telling::faults::TellFault;
use telling::line::line;
use telling::show::show;

const ANSWER: Answer = Answer {
    outcome: Outcome::Model,
    rounds: 2,
    opened: 1,
    recorded: 0,
};

const LINE: &[u8; 43] = b"depth 3 MODEL rounds 2 opened 1 recorded 0\n";

#[test]
fn a_line_has_just_room(rt: HostRuntime) {
    let mut output = [7; 43];
    assert_eq!(rt;
        line(3, &ANSWER, &mut output[..42]),
        Err(TellFault::SmallOutput)
    );
    assert_eq!(rt; output, [7; 43]);
    assert_eq!(rt; line(3, &ANSWER, &mut output), Ok(43));
    assert_eq!(rt; output, *LINE);
}

// Bytes that end too early are no model, also where there is no room.
#[test]
fn a_model_has_just_room(rt: HostRuntime) -> Result<(), Fail> {
    let problem = take(rt.alloc(), &TWO)?;
    let model = [0x4D, 0x44, 0, 2, 1, 1, 2, 1, 1, 2, 1, 0];
    let cut_short = Err(TellFault::BadModel(Reason::PastEnd.at(0)));
    assert_eq!(rt; show(&problem, &model[..11], &mut []), cut_short);
    let mut output = [7; 20];
    assert_eq!(rt;
        show(&problem, &model, &mut output[..19]),
        Err(TellFault::SmallOutput)
    );
    assert_eq!(rt; output, [7; 20]);
    assert_eq!(rt; show(&problem, &model, &mut output), Ok(20));
    assert_eq!(rt; output, *b"unknown 0 = 1(1(0))\n");
    Ok(())
}
