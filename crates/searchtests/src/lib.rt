// What a session refuses at search, at the edge of each refusal and with the accepted call beside it, on either kind of chooser.
#![tactic(auto)]

#[cfg(test)]
mod tests {
    use chooser::{Chooser, MakeFault};
    use held::places::Place;
    use learning::Learning;
    use plain::Plain;
    use problem::problem::Problem;
    use problem::take::take;
    use rounds::search::{Lent, Limits};
    use sessions::faults::SessionFault;
    use sessions::session::Session;
    use sessiontests::bare::Bare;
    use sessiontests::problems::{EMPTY, TWO};
    use std::process::Abort;
    use std::test::Fail;

    // As many variables as each kind can have.
    const MOST: usize = 4096;

    // The least that is accepted.
    const LEAST: Limits = Limits {
        depth: 1,
        rounds: 1,
        steps: 1,
    };

    fn begin<C: Chooser>(rt: &impl Abort, problem: &Problem, chooser: &mut C) -> Session {
        let mut session = Session::new();
        assert_eq!(rt; session.begin(problem, chooser), Ok(()));
        session
    }

    // The refusal of a search with this memory.
    fn search_in<C: Chooser>(
        session: &mut Session,
        problem: &Problem,
        chooser: &mut C,
        limits: Limits,
        way: &mut [u8],
        places: &mut [Place],
        literals: &mut [u16],
    ) -> Option<SessionFault> {
        let mut lent = Lent { places, literals };
        session
            .search(problem, chooser, limits, way, &mut lent)
            .err()
    }

    // The refusal of a search with memory for all steps and variables.
    fn search<C: Chooser>(
        session: &mut Session,
        problem: &Problem,
        chooser: &mut C,
        limits: Limits,
    ) -> Option<SessionFault> {
        let mut places = [Place::BLANK; 6 * 4096];
        let way = &mut [0; MOST];
        search_in(
            session,
            problem,
            chooser,
            limits,
            way,
            &mut places,
            &mut [0; MOST],
        )
    }

    // Depths, rounds and steps at both ends of what is accepted.
    fn limits<C: Chooser>(rt: &impl Abort, problem: &Problem, chooser: &mut C) {
        let mut session = begin(rt, problem, chooser);
        let depth = Some(SessionFault::BadDepth);
        let others = Some(SessionFault::BadLimits);
        for (depth, rounds, steps, fault) in [
            (1, 1, 1, None),
            (0, 1, 1, depth),
            (64, 1, 1, None),
            (65, 1, 1, depth),
            (1, 0, 1, others),
            (1, 65_535, 1, None),
            (1, 65_536, 1, others),
            (1, 1, 0, others),
            (1, 1, 4096, None),
            (1, 1, 4097, others),
        ] {
            let limits = Limits {
                depth,
                rounds,
                steps,
            };
            assert_eq!(rt;
                search(&mut session, problem, chooser, limits),
                fault,
                "{depth} {rounds} {steps}"
            );
        }
    }

    // Memory for two steps, and one place, byte or literal fewer.
    fn memory<C: Chooser>(rt: &impl Abort, problem: &Problem, chooser: &mut C) {
        let session = &mut begin(rt, problem, chooser);
        let small = Some(SessionFault::SmallBuffers);
        let limits = Limits { steps: 2, ..LEAST };
        let way = &mut [0; MOST];
        let literals = &mut [0; MOST];
        let places = &mut [Place::BLANK; 12];
        assert_eq!(rt;
            search_in(session, problem, chooser, limits, way, places, literals),
            None
        );
        assert_eq!(rt;
            search_in(
                session,
                problem,
                chooser,
                limits,
                way,
                &mut [Place::BLANK; 11],
                literals
            ),
            small
        );
        assert_eq!(rt;
            search_in(
                session,
                problem,
                chooser,
                limits,
                &mut [0; MOST - 1],
                places,
                literals
            ),
            small
        );
        assert_eq!(rt;
            search_in(
                session,
                problem,
                chooser,
                limits,
                way,
                places,
                &mut [0; MOST - 1]
            ),
            small
        );
    }

    // A session that has not begun, and a chooser with a variable more and with an entry fewer than was last seen.
    fn unseen<C: Chooser>(rt: &impl Abort, problem: &Problem, chooser: &mut C, other: &mut C) {
        let unseen = Some(SessionFault::NotAsSeen);
        let mut session = Session::new();
        assert_eq!(rt; search(&mut session, problem, chooser, LEAST), unseen);
        let mut session = begin(rt, problem, chooser);
        assert_eq!(rt; search(&mut session, problem, chooser, LEAST), None);
        assert_eq!(rt; chooser.new_variable(), Ok(1));
        assert_eq!(rt; search(&mut session, problem, chooser, LEAST), unseen);
        let mut session = begin(rt, problem, other);
        assert_eq!(rt; other.add(&[0, 1]), Ok(()));
        assert_eq!(rt; search(&mut session, problem, other, LEAST), unseen);
    }

    // Where several refusals are met, the first of them comes.
    fn order<C: Chooser>(rt: &impl Abort, problem: &Problem, chooser: &mut C) {
        let session = &mut Session::new();
        let none = Limits {
            depth: 0,
            rounds: 0,
            steps: 1,
        };
        let no_rounds = Limits { depth: 1, ..none };
        assert_eq!(rt;
            search_in(session, problem, chooser, none, &mut [], &mut [], &mut []),
            Some(SessionFault::BadDepth)
        );
        assert_eq!(rt;
            search_in(
                session,
                problem,
                chooser,
                no_rounds,
                &mut [],
                &mut [],
                &mut []
            ),
            Some(SessionFault::BadLimits)
        );
        assert_eq!(rt;
            search_in(session, problem, chooser, LEAST, &mut [], &mut [], &mut []),
            Some(SessionFault::SmallBuffers)
        );
    }

    fn plain(rt: &HostRuntime) -> Result<Plain, MakeFault> {
        Plain::new(rt.alloc(), 64)
    }

    fn learning(rt: &HostRuntime) -> Result<Learning, MakeFault> {
        Learning::new(rt.alloc(), 64)
    }

    #[test]
    fn limits_have_ends(rt: HostRuntime) -> Result<(), Fail> {
        let problem = take(rt.alloc(), &TWO)?;
        limits(&rt, &problem, &mut plain(&rt)?);
        limits(&rt, &problem, &mut learning(&rt)?);
        Ok(())
    }

    // A chooser without variables needs no memory for any.
    #[test]
    fn memory_suffices(rt: HostRuntime) -> Result<(), Fail> {
        let two = take(rt.alloc(), &TWO)?;
        memory(&rt, &two, &mut plain(&rt)?);
        memory(&rt, &two, &mut learning(&rt)?);
        let empty = take(rt.alloc(), &EMPTY)?;
        let session = &mut begin(&rt, &empty, &mut Bare);
        let places = &mut [Place::BLANK; 6];
        assert_eq!(rt;
            search_in(session, &empty, &mut Bare, LEAST, &mut [], places, &mut []),
            None
        );
        Ok(())
    }

    #[test]
    fn the_chooser_is_as_last_seen(rt: HostRuntime) -> Result<(), Fail> {
        let problem = take(rt.alloc(), &TWO)?;
        unseen(&rt, &problem, &mut plain(&rt)?, &mut plain(&rt)?);
        unseen(&rt, &problem, &mut learning(&rt)?, &mut learning(&rt)?);
        Ok(())
    }

    #[test]
    fn refusals_have_an_order(rt: HostRuntime) -> Result<(), Fail> {
        let problem = take(rt.alloc(), &TWO)?;
        order(&rt, &problem, &mut plain(&rt)?);
        order(&rt, &problem, &mut learning(&rt)?);
        Ok(())
    }
}
