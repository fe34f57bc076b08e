ghost use Rattle.pair_cuts.specs.Coupled.{IsLeastTable};
ghost use Rattle.pair_cuts.specs.Cut.{IsScaleAbove};
ghost use Rattle.pair_cuts.specs.Table.{AreChoiceWeights, cost_at};
ghost use Rattle.pair_prices.specs.Case.{IsCase};
ghost use Rattle.patterns.specs.Allowed.{FitsBook};
ghost use Rattle.patterns.specs.Weights.{FitsLists};
ghost use Rattle.std.specs.Prelude.{◌≡◌, ℤ, ◌^◌, ◌<◌, length, pos, ◌≤ℤ◌, ◌↔◌, IfOk, Err};
ghost use Rattle.transport.specs.Coupling.{IsShownLeast};

use crate::costs::PairCosts;
use crate::cut::CutFault;
use crate::separation::{MOST_SCALE, choices};
use pair_prices::Case;
use patterns::{Allowed, Weights};
use std::alloc::{AllocError, Global};
use transport::Cells;

/// A least coupling of two trains' weights, the choice of leaving out last. A cut shows that no coupling costs less.
///
/// The weights are of lists that fit the case, at least 0, and each train's are the scale in total. All prices of the two lists are
/// looked at.
///
/// # Errors
/// `Scale` exactly where the scale is above 10^24, and `Memory` where none was found.
pub fn least_table(
    alloc: Global,
    case: &Case,
    allowed: &Allowed,
    weights: &Weights,
    first: usize,
    second: usize,
) -> Result<Cells, CutFault>
    requires lists { FitsBook allowed.now.lists case.now.book }
    requires weights { FitsLists allowed.now.lists weights.now }
    requires order { first < second }
    requires second { second < length case.now.book }
    ensures table { IfOk result (IsLeastTable case.now allowed.now.lists weights.now first second) }
    ensures scale { (n : ℤ) → (result ≡ Err (CutFault.Scale n)) ↔ IsScaleAbove weights.now n }
{
    if weights.scale > MOST_SCALE {
        return Err(CutFault::Scale(weights.scale));
    }
    // The prices keep the limits of the case.
    let _station = case.station();
    let costs = PairCosts {
        case,
        allowed,
        first,
        second,
    };
    match coupled(alloc, &costs, weights) {
        Ok(cells) => Ok(cells),
        Err(_) => Err(CutFault::Memory),
    }
}

/// The answer of `least_table` for a scale that is taken.
fn coupled(alloc: Global, costs: &PairCosts, weights: &Weights) -> Result<Cells, AllocError>
    requires limits { IsCase costs.now.case }
    requires weights { FitsLists costs.now.lists weights.now }
    requires scale { weights.now.scale ≤ℤ pos (10 ^ 24) }
    ensures { IfOk result (IsLeastTable costs.now.case costs.now.lists weights.now costs.now.first costs.now.second) }
{
    let left = choices(alloc, weights, costs.first)?;
    let right = choices(alloc, weights, costs.second)?;
    let cells = cells_of(alloc, costs, &left, &right)?;
    Ok(cells)
}

/// The cells of a least coupling of the weights.
fn cells_of(
    alloc: Global,
    costs: &PairCosts,
    left: &[i128],
    right: &[i128],
) -> Result<Cells, AllocError>
    requires { AreChoiceWeights costs.now left.now right.now }
    ensures { IfOk result (IsShownLeast (cost_at costs.now) left.now right.now) }
{
    let Ok(cells) = transport::couple_cells(alloc, left, right, costs) else {
        return Err(AllocError);
    };
    Ok(cells)
}
