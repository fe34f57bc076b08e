ghost use Rattle.exact_lp.specs.Programs.{IsWithin};
ghost use Rattle.exact_lp.specs.declared.point.Point.{Point};
ghost use Rattle.pair_cuts.specs.Coupled.{IsLeastTable};
ghost use Rattle.pattern_pricing.specs.Layout.{LayoutRecord, columns_of};
ghost use Rattle.pattern_pricing.specs.Prices.{IsLayoutOf};
ghost use Rattle.patterns.specs.Allowed.{FitsBook};
ghost use Rattle.patterns.specs.Weights.{FitsLists};
ghost use Rattle.station_rows.specs.Laws.{IsPlanWithin};
ghost use Rattle.station_rows.specs.Plans.{AreLeastTables, AreTablesTo, fraction_of_plan};
ghost use Rattle.station_rows.specs.Points.{ArePointWeights, IsPlanPoint};
ghost use Rattle.std.specs.Prelude.{◌≡◌, ◌+◌, ◌<◌, ◌^◌, length, pos, ◌≤ℤ◌, IfOk, OnOk};

use crate::fraction::{FractionPlan, PairTable};
use pair_cuts::least_table;
use pair_prices::Case;
use patterns::{Allowed, Weights};
use sequence::Sequence;
use std::alloc::{AllocError, Global};

/// The fractional plan of these weights, with a least table for each two trains.
///
/// The weights are of lists that fit the case, at least 0, and each train's are the scale in total, at most 10^24. Where they are those of a
/// point at which the rows of a layout of the case hold, it is a fractional plan that costs at most what the point does.
///
/// # Errors
/// `AllocError` where the tables find no memory.
pub fn fraction_plan(
    alloc: Global,
    case: &Case,
    allowed: &Allowed,
    weights: Weights,
) -> Result<FractionPlan, AllocError>
    requires lists { FitsBook allowed.now.lists case.now.book }
    requires weights { FitsLists allowed.now.lists weights }
    requires scale { weights.scale ≤ℤ pos (10 ^ 24) }
    ensures weights { IfOk result (λ plan. plan.weights ≡ weights) }
    ensures tables { IfOk result (λ plan. AreLeastTables case.now allowed.now.lists weights plan.tables) }
    ensures plan { (l : LayoutRecord) (point : Point) → IsLayoutOf case.now l → l.lists ≡ allowed.now.lists
        → IsWithin (length (columns_of l)) point.weights → ArePointWeights l point weights → IsPlanPoint case.now l point weights
        → IfOk result (λ plan. IsPlanWithin case.now l point (fraction_of_plan plan)) }
{
    let tables = tables_of(alloc, case, allowed, &weights)?;
    Ok(FractionPlan {
        weights,
        tables: Sequence::from_vec(tables),
    })
}

/// A least table for each two trains.
fn tables_of(
    alloc: Global,
    case: &Case,
    allowed: &Allowed,
    weights: &Weights,
) -> Result<Vec<PairTable>, AllocError>
    requires lists { FitsBook allowed.now.lists case.now.book }
    requires weights { FitsLists allowed.now.lists weights.now }
    requires scale { weights.now.scale ≤ℤ pos (10 ^ 24) }
    ensures { IfOk result (λ v. AreLeastTables case.now allowed.now.lists weights.now v.items) }
{
    let mut tables = Vec::new(alloc);
    let trains = case.book().trains();
    for first in 0..trains {
        push_tables(alloc, &mut tables, case, allowed, weights, first)?;
    }
    Ok(tables)
}

/// Adds a least table of the train and each later one.
fn push_tables(
    alloc: Global,
    tables: &mut Vec<PairTable>,
    case: &Case,
    allowed: &Allowed,
    weights: &Weights,
    first: usize,
) -> Result<(), AllocError>
    requires lists { FitsBook allowed.now.lists case.now.book }
    requires weights { FitsLists allowed.now.lists weights.now }
    requires scale { weights.now.scale ≤ℤ pos (10 ^ 24) }
    requires first { first < length case.now.book }
    requires before { AreTablesTo case.now allowed.now.lists weights.now first (first + 1) tables.old.items }
    ensures { OnOk result (AreTablesTo case.now allowed.now.lists weights.now (first + 1) (first + 2) tables.new.items) }
{
    let trains = case.book().trains();
    for second in first + 1..trains {
        let table = pair_table(alloc, case, allowed, weights, first, second)?;
        tables.push(table)?;
    }
    Ok(())
}

/// A least table of two trains.
fn pair_table(
    alloc: Global,
    case: &Case,
    allowed: &Allowed,
    weights: &Weights,
    first: usize,
    second: usize,
) -> Result<PairTable, AllocError>
    requires lists { FitsBook allowed.now.lists case.now.book }
    requires weights { FitsLists allowed.now.lists weights.now }
    requires scale { weights.now.scale ≤ℤ pos (10 ^ 24) }
    requires order { first < second }
    requires second { second < length case.now.book }
    ensures is_first { IfOk result (λ t. t.first ≡ first) }
    ensures is_second { IfOk result (λ t. t.second ≡ second) }
    ensures least { IfOk result (λ t. IsLeastTable case.now allowed.now.lists weights.now first second t.cells) }
{
    let Ok(cells) = least_table(alloc, case, allowed, weights, first, second) else {
        return Err(AllocError);
    };
    Ok(PairTable {
        first,
        second,
        cells,
    })
}
