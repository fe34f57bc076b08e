ghost use Rattle.std.specs.Prelude.{◌≡◌, pos};

use exact_lp::{Columns, Duals, Listed, Row};
use pattern_pricing::{Layout, PatternPricing};
use patterns::Allowed;
use ratio::Width;
use std::alloc::Global;
use std::test::Fail;
use tests_stations::{R1, S_PATHS, case_of, s};

/// Duals over no rows.
fn no_duals(alloc: Global) -> Duals
    ensures { result.scale ≡ pos 1 }
{
    let rows: Listed<Row> = Listed::new(Vec::new(alloc));
    let values: Listed<i128> = Listed::new(Vec::new(alloc));
    Duals {
        scale: 1,
        rows,
        values,
    }
}

/// Two patterns, the train left out, and two platforms.
#[test]
fn numbers_and_prices_the_columns(rt: HostRuntime) -> Result<(), Fail> {
    let alloc = rt.alloc();
    let case = case_of(alloc, &s(alloc, S_PATHS, &[R1])?)?;
    let allowed = Allowed::all(alloc, case.book())?;
    let layout = Layout::new(alloc, &case, &allowed)?;
    let pricing = PatternPricing::new(&case, &layout);
    let mut prices = Vec::new(alloc);
    for number in 0..layout.count() {
        let column = layout.column(number);
        assert_eq!(rt; layout.number(&column), number);
        prices.push(pricing.price(number))?;
    }
    assert_eq!(rt;
        prices.as_slice(),
        [0, 100, 101_101, 1_000, 100_000].as_slice()
    );
    let duals = no_duals(alloc);
    let mut width = Width::new();
    assert!(rt; matches!(pricing.improving(alloc, &duals, &mut width), Ok(None)));
    Ok(())
}
