ghost use Rattle.pair_cuts.specs.Potentials.{ArePotentials};
ghost use Rattle.pair_cuts.specs.Table.{AreChoiceWeights, cost_at, row_count};
ghost use Rattle.std.specs.Prelude.{◌<◌, IfOk, IfSome};
ghost use Rattle.transport.specs.Coupling.{IsLeastCost};

use crate::capped::CappedCosts;
use crate::costs::PairCosts;
use std::alloc::{AllocError, Global};
use transport::{Cost, Coupled, couple, least_cost};

/// How often a cap is doubled at most: from 1 to above every cost.
const DOUBLINGS: u32 = 44;

/// The least cost of a coupling of the weights.
pub(crate) fn least_value(
    alloc: Global,
    costs: &PairCosts,
    left: &[i128],
    right: &[i128],
) -> Result<i128, AllocError>
    requires { AreChoiceWeights costs.now left.now right.now }
    ensures { IfOk result (IsLeastCost (cost_at costs.now) left.now right.now) }
{
    let Ok(least) = least_cost(alloc, left, right, costs) else {
        return Err(AllocError);
    };
    Ok(least)
}

/// Potentials that are worth `least`, the least cost of a coupling of the weights.
///
/// They are those of costs under the least cap at which the weights cost as much, of the greatest price of patterns that aren't
/// forbidden together, doubled as long as it takes. TOP is so much greater than the other prices that potentials with it in
/// them make rows of huge numbers.
pub(crate) fn small_potentials(
    alloc: Global,
    costs: &PairCosts,
    left: &[i128],
    right: &[i128],
    least: i128,
) -> Result<Coupled, AllocError>
    requires weights { AreChoiceWeights costs.now left.now right.now }
    requires least { IsLeastCost (cost_at costs.now) left.now right.now least }
    ensures { IfOk result (λ k. ArePotentials (cost_at costs.now) left.now right.now least k.alpha k.beta) }
{
    let mut cap = greatest_price(costs);
    for _doubling in 0..DOUBLINGS {
        if let Some(coupled) = capped_potentials(alloc, costs, left, right, least, cap)? {
            return Ok(coupled);
        }
        cap = cap.saturating_mul(2);
    }
    let Ok(coupled) = couple(alloc, left, right, costs) else {
        return Err(AllocError);
    };
    Ok(coupled)
}

/// The potentials under a cap, where the weights cost as much under it.
fn capped_potentials(
    alloc: Global,
    costs: &PairCosts,
    left: &[i128],
    right: &[i128],
    least: i128,
    cap: u64,
) -> Result<Option<Coupled>, AllocError>
    requires weights { AreChoiceWeights costs.now left.now right.now }
    ensures { IfOk result (λ o. IfSome o (λ k. ArePotentials (cost_at costs.now) left.now right.now least k.alpha k.beta)) }
{
    let capped = CappedCosts { costs, cap };
    let Ok(value) = least_cost(alloc, left, right, &capped) else {
        return Err(AllocError);
    };
    if value != least {
        return Ok(None);
    }
    let Ok(coupled) = couple(alloc, left, right, &capped) else {
        return Err(AllocError);
    };
    Ok(Some(coupled))
}

/// The greatest cost below TOP, which is what patterns that are forbidden together cost, and at least 1.
fn greatest_price(costs: &PairCosts) -> u64 {
    let top = costs.case.top().unsigned_abs();
    let mut greatest = 1;
    for row in 0..costs.rows() {
        greatest = greatest_in_row(costs, row, top).max(greatest);
    }
    greatest
}

fn greatest_in_row(costs: &PairCosts, row: usize, top: u64) -> u64
    requires { row < row_count costs.now }
{
    let mut greatest = 0;
    for column in 0..costs.columns() {
        let cost = costs.cost(row, column).unsigned_abs();
        if cost < top {
            greatest = cost.max(greatest);
        }
    }
    greatest
}
