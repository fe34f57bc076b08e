use leaf_bounds::{LeafValue, leaf_check, plain_leaf};
use pair_prices::Case;
use patterns::Allowed;
use std::alloc::{AllocError, Global};
use std::test::Fail;
use tests_stations::{R1, S_PATHS, Train, case_of, s};

/// R1 under another name, on the dummy platform.
const ON_DUMMY: Train = Train {
    name: "R2",
    platforms: r#""D""#,
    ..R1
};

/// What a check says of the least prices of all patterns.
fn plain(alloc: Global, case: &Case) -> Result<Option<LeafValue>, AllocError> {
    let all = Allowed::all(alloc, case.book())?;
    let leaf = plain_leaf(alloc, case, &all)?;
    Ok(leaf_check(case, &all, &leaf).ok())
}

#[test]
fn takes_least_prices(rt: HostRuntime) -> Result<(), Fail> {
    let alloc = rt.alloc();
    let case = case_of(alloc, &s(alloc, S_PATHS, &[R1, ON_DUMMY])?)?;
    let want = LeafValue {
        value: 100,
        empty: false,
        bound: 100,
    };
    assert!(rt; plain(alloc, &case)? == Some(want));
    Ok(())
}
