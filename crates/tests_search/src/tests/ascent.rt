use dual_ascent::{Hints, climb, probe};
use pair_classes::Meetings;
use patterns::Allowed;
use std::test::Fail;
use tests_stations::{P, case_of, plain_station};

#[test]
fn bounds_a_conflict(rt: HostRuntime) -> Result<(), Fail> {
    let alloc = rt.alloc();
    let case = case_of(alloc, &plain_station(alloc, &P)?)?;
    let meetings = Meetings::new(alloc, &case)?;
    let allowed = Allowed::all(alloc, case.book())?;
    let hints = Hints {
        meetings: &meetings,
        known: Some(10),
        seed: None,
        iterations: 300,
    };
    let found = climb(alloc, &case, &allowed, &hints)?;
    assert!(rt; found.worth.bound == 10);
    assert!(rt; found.support.len() == 2);
    assert!(rt; probe(alloc, &case, &allowed, &hints)? == 10);
    Ok(())
}
