ghost use Rattle.dual_leaves.specs.Account.{totals_of, Reads};
ghost use Rattle.dual_leaves.specs.Kinds.{IsKind};
ghost use Rattle.dual_leaves.specs.Shares.{key_at, train_of, IsSideRead, IsShareAdded};
ghost use Rattle.dual_leaves.specs.declared.kind.RowKind.TheVariants.{Pair};
ghost use Rattle.ratio.specs.Ledger.{Raised};
ghost use Rattle.patterns.specs.Allowed.{list_of};
ghost use Rattle.pattern_pricing.specs.Prices.{IsLayoutOf};
ghost use Rattle.std.specs.Prelude.{◌≡◌, ◌<◌, ◌≤◌, length, slice_index, pos, ◌≤ℤ◌, OnOk, IsErrOf};

use crate::account::Account;
use crate::key::{PairKey, Side};
use crate::numbers::numbers_in;
use crate::sums::add;
use exact_lp::{LpFault, Row};
use pair_prices::Case;
use pattern_pricing::{Column, Layout, PairAt, WeightAt};
use patterns::Allowed;
use ratio::Width;
use ratio::whole::{difference, product};
use std::collections::BTreeMap;

/// Adds the row of a cut on two trains: its value times the cut's numbers.
pub(crate) fn read_pair(
    case: &Case,
    allowed: &Allowed,
    layout: &Layout,
    row: &Row,
    at: &PairAt,
    value: &i128,
    account: &mut Account,
    width: &mut Width,
) -> Result<(), LpFault>
    requires layout { IsLayoutOf case.now layout.now }
    requires same { layout.now.lists ≡ allowed.now.lists }
    requires kind { IsKind case.now layout.now row.now (Pair at.now) }
    requires sign { pos 0 ≤ℤ value.now }
    ensures read { OnOk result (Reads case.now layout.now row.now value.now (totals_of account.old) (totals_of account.new)) }
    ensures ledger { width.old ≤ width.new }
    ensures left { IsErrOf result LpFault.Left → Raised width.old width.new }
{
    let _limits = case.book().trains();
    read_side(
        allowed,
        layout,
        row,
        at,
        Side::First,
        value,
        &mut account.alpha,
        width,
    )?;
    read_side(
        allowed,
        layout,
        row,
        at,
        Side::Second,
        value,
        &mut account.beta,
        width,
    )?;
    Ok(())
}

/// Adds the numbers of one of the two trains at its patterns. The row has them with the other sign.
fn read_side(
    allowed: &Allowed,
    layout: &Layout,
    row: &Row,
    at: &PairAt,
    side: Side,
    value: &i128,
    sums: &mut BTreeMap<PairKey, i128>,
    width: &mut Width,
) -> Result<(), LpFault>
    requires same { layout.now.lists ≡ allowed.now.lists }
    requires order { at.now.first < at.now.second }
    requires there { at.now.second < length layout.now.lists }
    requires few { length layout.now.lists ≤ 200 }
    ensures read { OnOk result (IsSideRead layout.now row.now at.now side value.now sums.old.entries sums.new.entries) }
    ensures ledger { width.old ≤ width.new }
    ensures left { IsErrOf result LpFault.Left → Raised width.old width.new }
{
    let train = train_of(at, side);
    let numbers = numbers_in(allowed, train);
    for place in 0..numbers.len() {
        let key = PairKey {
            first: at.first as u16,
            second: at.second as u16,
            number: numbers[place],
        };
        let column = layout.number(&Column::Weight(WeightAt { train, place }));
        add_share(sums, key, value, &row.value(column), width)?;
    }
    Ok(())
}

/// The train on that side.
fn train_of(at: &PairAt, side: Side) -> usize
    ensures { result ≡ train_of at.now side }
{
    match side {
        Side::First => at.first,
        Side::Second => at.second,
    }
}

/// Takes the value times the row's cell from the number of the key.
fn add_share(
    sums: &mut BTreeMap<PairKey, i128>,
    key: PairKey,
    value: &i128,
    cell: &i128,
    width: &mut Width,
) -> Result<(), LpFault>
    ensures added { OnOk result (IsShareAdded sums.old.entries key value.now cell.now sums.new.entries) }
    ensures ledger { width.old ≤ width.new }
    ensures left { IsErrOf result LpFault.Left → Raised width.old width.new }
{
    if *cell == 0 {
        return Ok(());
    }
    let share = difference(0, product(*value, *cell, width)?, width)?;
    add(sums, key, &share, width)?;
    Ok(())
}
