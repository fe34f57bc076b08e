use branching::split_bound;
use std::test::Fail;
use tests_stations::{F, ON_THE_REGULAR_PLATFORM, case_of, plain_station, s};

// Three trains of two patterns each: 2 * 2 * 2 - 1. A train without a pattern leaves nothing to split.
#[test]
fn counts_the_splits_that_decide(rt: HostRuntime) -> Result<(), Fail> {
    let alloc = rt.alloc();
    assert_eq!(rt;
        split_bound(&case_of(alloc, &plain_station(alloc, &F)?)?),
        7
    );
    let none = s(alloc, "", &[ON_THE_REGULAR_PLATFORM])?;
    assert_eq!(rt; split_bound(&case_of(alloc, &none)?), 0);
    Ok(())
}
