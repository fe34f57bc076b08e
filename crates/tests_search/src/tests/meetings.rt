use pair_classes::Meetings;
use std::alloc::Global;
use std::test::Fail;
use tests_stations::{R1, S_PATHS, Train, case_of, r2, s};

/// How many classes R1 and a second train have; `None` where they can't meet.
fn class_counts(alloc: Global, second: Train) -> Result<Option<(usize, usize)>, Fail> {
    let case = case_of(alloc, &s(alloc, S_PATHS, &[R1, second])?)?;
    let meetings = Meetings::new(alloc, &case)?;
    let Some(pair) = meetings.pairs().first() else {
        return Ok(None);
    };
    match &pair.classes {
        Some(classes) => Ok(Some((classes.first_count(), classes.second_count()))),
        None => Err(Fail::from("no classes")),
    }
}

// At 16 the platform isn't free again: a pattern on it and one on `D` have other prices beside the other train's. At 17 it is.
#[test]
fn lists_the_pairs_that_can_meet(rt: HostRuntime) -> Result<(), Fail> {
    let alloc = rt.alloc();
    assert!(rt; class_counts(alloc, r2(16, 21, 0))? == Some((2, 2)));
    assert!(rt; class_counts(alloc, r2(17, 22, 0))? == None);
    Ok(())
}
