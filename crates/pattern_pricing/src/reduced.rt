ghost use Rattle.ratio.specs.Ledger.{Raised};
ghost use Rattle.pattern_pricing.specs.Layout.{columns_of};
ghost use Rattle.pattern_pricing.specs.Positions.{patterns_in, start_of};
ghost use Rattle.pattern_pricing.specs.Prices.{IsLayoutOf, prices_of};
ghost use Rattle.pattern_pricing.specs.Reduced.{AreReduced, AreSmall, scaled_front};
ghost use Rattle.pair_prices.specs.Top.{top_of};
ghost use Rattle.std.specs.Int.{w128};
ghost use Rattle.std.specs.Prelude.{◌≡◌, ◌≤◌, ◌<◌, ◌+◌, ◌*◌, ◌^◌, ◌++◌, ◌∷◌, [], length, pos, ◌*ℤ◌, unsigned_abs, FitsSigned, IfOk, OnOk, IsErrOf};

use crate::layout::Layout;
use crate::paid::pay_rows;
use crate::prices::{pattern_price, rest_price};
use exact_lp::{Duals, LpFault};
use pair_prices::Case;
use ratio::Width;
use ratio::whole::product;
use std::alloc::Global;

/// The reduced price of each column, in the order of their numbers: the scale of the duals times the price, less the value
/// of each row times its cell at the column. It goes once over all columns and once over the cells of the rows.
pub(crate) fn reduced_prices(
    alloc: Global,
    case: &Case,
    layout: &Layout,
    duals: &Duals,
    width: &mut Width,
) -> Result<Vec<i128>, LpFault>
    requires { IsLayoutOf case.now layout.now }
    ensures value { IfOk result (λ v. AreReduced (record { case = case.now; layout = layout.now }) duals.now v.items) }
    ensures ledger { width.old ≤ width.new }
    ensures left { IsErrOf result LpFault.Left → Raised width.old width.new }
    ensures never { IsErrOf result LpFault.Left → ¬ (AreSmall case.now duals.now) }
{
    let mut reduced = scaled_prices(alloc, case, layout, duals, width)?;
    pay_rows(&mut reduced, duals, width)?;
    Ok(reduced)
}

/// The prices times the scale of the duals.
fn scaled_prices(
    alloc: Global,
    case: &Case,
    layout: &Layout,
    duals: &Duals,
    width: &mut Width,
) -> Result<Vec<i128>, LpFault>
    requires { IsLayoutOf case.now layout.now }
    ensures value { IfOk result (λ v. v.items ≡ scaled_front duals.now.scale (prices_of case.now layout.now) (length (columns_of layout.now))) }
    ensures ledger { width.old ≤ width.new }
    ensures left { IsErrOf result LpFault.Left → Raised width.old width.new }
    ensures never { IsErrOf result LpFault.Left → ¬ (unsigned_abs duals.now.scale * top_of case.now < 2 ^ 127) }
{
    let mut scaled = Vec::with_capacity(alloc, layout.count() as usize)?;
    for train in 0..layout.trains() {
        push_train(case, layout, train, duals, &mut scaled, width)?;
    }
    for number in layout.lefts()..layout.count() {
        let price = rest_price(case, layout, number);
        push_scaled(price, duals, &mut scaled, width)?;
    }
    Ok(scaled)
}

/// Adds those of a train's patterns behind those before.
fn push_train(
    case: &Case,
    layout: &Layout,
    train: usize,
    duals: &Duals,
    into: &mut Vec<i128>,
    width: &mut Width,
) -> Result<(), LpFault>
    requires layout { IsLayoutOf case.now layout.now }
    requires train { train < length layout.now.lists }
    requires front { into.old.items ≡ scaled_front duals.now.scale (prices_of case.now layout.now) (start_of layout.now train) }
    ensures value { OnOk result (into.new.items ≡ scaled_front duals.now.scale (prices_of case.now layout.now) (start_of layout.now (train + 1))) }
    ensures ledger { width.old ≤ width.new }
    ensures left { IsErrOf result LpFault.Left → Raised width.old width.new }
    ensures never { IsErrOf result LpFault.Left → ¬ (unsigned_abs duals.now.scale * top_of case.now < 2 ^ 127) }
{
    for place in 0..layout.size(train) {
        let price = pattern_price(case, layout, train, place);
        push_scaled(price, duals, into, width)?;
    }
    Ok(())
}

/// Adds a price times the scale of the duals.
fn push_scaled(
    price: u64,
    duals: &Duals,
    into: &mut Vec<i128>,
    width: &mut Width,
) -> Result<(), LpFault>
    ensures value { OnOk result (into.new.items ≡ into.old.items ++ (duals.now.scale *ℤ pos price) ∷ []) }
    ensures ledger { width.old ≤ width.new }
    ensures left { IsErrOf result LpFault.Left → Raised width.old width.new }
    ensures never { IsErrOf result LpFault.Left → ¬ (FitsSigned w128 (duals.now.scale *ℤ pos price)) }
{
    let scaled = product(duals.scale, i128::from(price), width)?;
    into.push(scaled)?;
    Ok(())
}
