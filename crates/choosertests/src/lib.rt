// The refusals of a chooser at their edges, and its answers, on each kind of chooser: the plain one and then the learning one.
#![tactic(auto)]

#[cfg(test)]
mod tests {
    use chooser::{Answer, Chooser, Fault, MakeFault};
    use learning::Learning;
    use plain::Plain;
    use std::process::Abort;
    use std::test::Fail;

    fn allot<C: Chooser>(rt: &impl Abort, c: &mut C, n: u16) {
        for i in 0..n {
            assert_eq!(rt; c.new_variable(), Ok(i));
        }
    }

    // As many variables as there can be, and one more.
    fn all_variables<C: Chooser>(rt: &impl Abort, c: &mut C) {
        allot(rt, c, 4096);
        assert_eq!(rt; c.variables_left(), 0);
        assert_eq!(rt; c.new_variable(), Err(Fault::NoVariable));
        assert_eq!(rt; c.add(&[8191]), Ok(()));
        assert_eq!(rt; c.add(&[8192]), Err(Fault::Unallotted));
        let mut answer = [2u8; 4096];
        assert_eq!(rt; c.ask(&[8190], &mut answer), Ok(Answer::No));
        assert_eq!(rt; c.ask(&[], &mut answer), Ok(Answer::Yes));
        assert_eq!(rt; answer[4095], 0);
    }

    // A chooser of five entries.
    fn five_entries<C: Chooser>(rt: &impl Abort, c: &mut C) {
        assert_eq!(rt; c.entries_left(), 5);
        assert_eq!(rt; c.add(&[0]), Err(Fault::Unallotted));
        allot(rt, c, 3);
        assert_eq!(rt; c.add(&[0, 2, 4, 1, 3]), Err(Fault::NoEntries));
        assert_eq!(rt; c.add(&[6, 0, 0, 0, 0]), Err(Fault::Unallotted));
        assert_eq!(rt; c.entries_left(), 5);
        assert_eq!(rt; c.add(&[0, 2, 4, 1]), Ok(()));
        assert_eq!(rt; c.entries_left(), 0);
        assert_eq!(rt; c.add(&[]), Err(Fault::NoEntries));
    }

    // Answers one too short and one too long, which are left as they were.
    fn wrong_lengths<C: Chooser>(rt: &impl Abort, c: &mut C) {
        allot(rt, c, 2);
        let mut short = [7u8; 1];
        let mut long = [7u8; 3];
        assert_eq!(rt; c.ask(&[4], &mut short), Err(Fault::Unallotted));
        assert_eq!(rt; c.ask(&[3], &mut short), Err(Fault::WrongLength));
        assert_eq!(rt; c.ask(&[3], &mut long), Err(Fault::WrongLength));
        assert_eq!(rt; (short, long), ([7], [7, 7, 7]));
    }

    // One clause, two assumptions, and at last the empty clause.
    fn answers<C: Chooser>(rt: &impl Abort, c: &mut C) {
        assert_eq!(rt; c.ask(&[], &mut []), Ok(Answer::Yes));
        allot(rt, c, 2);
        assert_eq!(rt; c.add(&[0, 2]), Ok(()));
        let mut answer = [7u8; 2];
        assert_eq!(rt; c.ask(&[3], &mut answer), Ok(Answer::Yes));
        assert_eq!(rt; answer, [1, 0]);
        assert_eq!(rt; c.ask(&[3, 1], &mut answer), Ok(Answer::No));
        assert_eq!(rt; c.add(&[]), Ok(()));
        assert_eq!(rt; c.ask(&[], &mut answer), Ok(Answer::No));
    }

    #[test]
    fn each_allots_all_variables(rt: HostRuntime) -> Result<(), Fail> {
        all_variables(&rt, &mut Plain::new(rt.alloc(), 2)?);
        all_variables(&rt, &mut Learning::new(rt.alloc(), 2)?);
        Ok(())
    }

    #[test]
    fn each_spends_five_entries(rt: HostRuntime) -> Result<(), Fail> {
        five_entries(&rt, &mut Plain::new(rt.alloc(), 5)?);
        five_entries(&rt, &mut Learning::new(rt.alloc(), 5)?);
        Ok(())
    }

    #[test]
    fn each_refuses_wrong_lengths(rt: HostRuntime) -> Result<(), Fail> {
        wrong_lengths(&rt, &mut Plain::new(rt.alloc(), 0)?);
        wrong_lengths(&rt, &mut Learning::new(rt.alloc(), 0)?);
        Ok(())
    }

    #[test]
    fn each_answers(rt: HostRuntime) -> Result<(), Fail> {
        answers(&rt, &mut Plain::new(rt.alloc(), 65535)?);
        answers(&rt, &mut Learning::new(rt.alloc(), 65535)?);
        Ok(())
    }

    #[test]
    fn none_has_too_many_entries(rt: HostRuntime) {
        let fault = Some(MakeFault::TooManyEntries);
        assert_eq!(rt; Plain::new(rt.alloc(), 65536).err(), fault);
        assert_eq!(rt; Learning::new(rt.alloc(), 65536).err(), fault);
    }

    #[test]
    fn refusals_have_numbers(rt: HostRuntime) {
        assert_eq!(rt; Fault::NoVariable.number(), 61);
        assert_eq!(rt; Fault::Unallotted.number(), 62);
        assert_eq!(rt; Fault::NoEntries.number(), 63);
        assert_eq!(rt; Fault::WrongLength.number(), 64);
    }
}
