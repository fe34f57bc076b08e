mod draft;
mod prices;
mod rows;

use draft::{Draft, Found};
use exact_lp::{Limits, WeakCause};
use ratio::{Ratio, Width};
use std::alloc::{AllocError, Global};
use std::test::Fail;

const WIDE: Limits = Limits {
    pivots: 100,
    rounds: 10,
    cells: 16_777_216,
};

/// Columns of prices 10 and 1 and further ones of price 1 in no row: `x0 + x1 = 1`, and `2*x0 - x1 >= 0`.
fn worked(alloc: Global, count: u64, limits: &Limits) -> Result<Option<Found>, AllocError> {
    let mut width = Width::new();
    let mut draft = Draft::new(alloc, &[10, 1], 1, count)?;
    draft.open(&[(0, 1), (1, 1)], 0)?;
    draft.stand(&[(0, 2), (1, -1)])?;
    draft.solve(limits, &mut width)
}

/// Columns of prices 3 and 1: `x0 + x1 = 1`, and `value*x0 + other*x1 >= 0`.
fn steep(
    alloc: Global,
    value: i128,
    other: i128,
    width: &mut Width,
) -> Result<Option<WeakCause>, AllocError> {
    let mut draft = Draft::new(alloc, &[3, 1], 1, 2)?;
    draft.open(&[(0, 1), (1, 1)], 0)?;
    draft.stand(&[(0, value), (1, other)])?;
    let found = draft.solve(&WIDE, width)?;
    Ok(found.and_then(|f| f.cause()))
}

#[test]
fn solves_the_worked_program(rt: HostRuntime) -> Result<(), Fail> {
    let found = worked(rt.alloc(), 2, &WIDE)?;
    let Some(found) = found else {
        assert!(rt; false);
        return Ok(());
    };
    assert!(rt; found.cost() == Some(Ratio::new(4, 1)));
    assert!(rt; found.weight(0) == Some(Ratio::new(1, 3)));
    assert!(rt; found.weight(1) == Some(Ratio::new(2, 3)));
    Ok(())
}

#[test]
fn lists_no_column_that_it_does_not_need(rt: HostRuntime) -> Result<(), Fail> {
    let found = worked(rt.alloc(), 1 << 40, &WIDE)?;
    assert!(rt; found.and_then(|f| f.cost()) == Some(Ratio::new(4, 1)));
    Ok(())
}

#[test]
fn names_the_limit_that_it_met(rt: HostRuntime) -> Result<(), Fail> {
    let limited = [
        (100, 1, 16_777_216, WeakCause::Rounds(1)),
        (0, 10, 16_777_216, WeakCause::Pivots(0)),
        (100, 10, 1, WeakCause::Cells(8)),
    ];
    for (pivots, rounds, cells, cause) in limited {
        let limits = Limits {
            pivots,
            rounds,
            cells,
        };
        let found = worked(rt.alloc(), 2, &limits)?;
        assert!(rt; found.and_then(|f| f.cause()) == Some(cause));
    }
    Ok(())
}

#[test]
fn stops_at_numbers_that_are_too_great(rt: HostRuntime) -> Result<(), Fail> {
    let mut width = Width::new();
    let scale: i128 = 1_000_000_000_000_000_000_000_000;
    let found = steep(rt.alloc(), scale, 1 - scale, &mut width)?;
    assert!(rt; found == Some(WeakCause::Scale(2 * scale - 1)));
    assert_eq!(rt; width.left(), 0);
    let greatest: i128 = 1 << 126;
    let found = steep(rt.alloc(), greatest - 1, 3 - greatest, &mut width)?;
    match found {
        Some(WeakCause::Scale(n)) => assert!(rt; n > scale),
        Some(WeakCause::Left) => assert!(rt; width.left() > 0),
        _ => assert!(rt; false),
    }
    let found = steep(rt.alloc(), greatest + 1, -greatest, &mut width)?;
    assert!(rt; found == Some(WeakCause::Left));
    assert!(rt; width.left() > 0);
    Ok(())
}

/// Eight groups of columns x, y and z of prices 10, 0 and 1: `x + y + z = 1`, and `x + z - y >= 0`. Sixteen columns have to
/// enter in all, so ten pivots a round suffice only if a round goes on from the table of the one before.
#[test]
fn goes_on_from_its_table(rt: HostRuntime) -> Result<(), Fail> {
    let mut width = Width::new();
    let mut draft = Draft::new(rt.alloc(), &[], 0, 24)?;
    for group in 0..8u64 {
        let (x, y, z) = (3 * group, 3 * group + 1, 3 * group + 2);
        draft.price(&[10, 0, 1])?;
        draft.open(&[(x, 1), (y, 1), (z, 1)], x)?;
        draft.stand(&[(x, 1), (y, -1), (z, 1)])?;
    }
    let limits = Limits {
        pivots: 10,
        rounds: 20,
        cells: 16_777_216,
    };
    let found = draft.solve(&limits, &mut width)?;
    assert!(rt; found.and_then(|f| f.cost()) == Some(Ratio::new(4, 1)));
    Ok(())
}
