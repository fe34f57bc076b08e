ghost use Rattle.dual_leaves.specs.Account.{totals_of, IsAccount, Reads};
ghost use Rattle.dual_leaves.specs.Kinds.{IsKind, IsStationRow};
ghost use Rattle.dual_leaves.specs.declared.kind.RowKind.TheVariants.{Clique, Pair, Train, Use};
ghost use Rattle.ratio.specs.Ledger.{Raised};
ghost use Rattle.exact_lp.specs.Programs.{paid_by_rows, valued_leasts};
ghost use Rattle.patterns.specs.Allowed.{FitsBook};
ghost use Rattle.pattern_pricing.specs.Prices.{IsLayoutOf};
ghost use Rattle.std.specs.Prelude.{◌≡◌, ◌<◌, ◌≤◌, false, length, pos, ◌≤ℤ◌, All, IfOk, OnOk, IsErrOf};

use crate::account::Account;
use crate::key::MinuteKey;
use crate::kind::{RowKind, kind_of};
use crate::latest::latest_arrival;
use crate::pairs::read_pair;
use crate::sums::add;
use exact_lp::{Duals, LpFault, Row};
use pair_prices::Case;
use pattern_pricing::Layout;
use patterns::Allowed;
use ratio::Width;
use std::alloc::Global;

/// What the rows of the duals add up to with their values.
pub(crate) fn read_rows(
    alloc: Global,
    case: &Case,
    allowed: &Allowed,
    layout: &Layout,
    duals: &Duals,
    width: &mut Width,
) -> Result<Account, LpFault>
    requires layout { IsLayoutOf case.now layout.now }
    requires same { layout.now.lists ≡ allowed.now.lists }
    requires rows { All (IsStationRow case.now layout.now) duals.now.rows }
    ensures account { IfOk result (λ a. IsAccount case.now layout.now (paid_by_rows duals.now.rows duals.now.values) (valued_leasts duals.now.rows duals.now.values) (totals_of a)) }
    ensures ledger { width.old ≤ width.new }
    ensures left { IsErrOf result LpFault.Left → Raised width.old width.new }
{
    let mut account = Account::new(alloc);
    let rows = duals.rows.as_slice();
    let values = duals.values.as_slice();
    for place in 0..rows.len() {
        read_row(
            case,
            allowed,
            layout,
            &rows[place],
            &values[place],
            &mut account,
            width,
        )?;
    }
    Ok(account)
}

/// Adds a row with its value.
fn read_row(
    case: &Case,
    allowed: &Allowed,
    layout: &Layout,
    row: &Row,
    value: &i128,
    account: &mut Account,
    width: &mut Width,
) -> Result<(), LpFault>
    requires layout { IsLayoutOf case.now layout.now }
    requires same { layout.now.lists ≡ allowed.now.lists }
    requires row { IsStationRow case.now layout.now row.now }
    requires sign { row.now.equal ≡ false → pos 0 ≤ℤ value.now }
    ensures read { OnOk result (Reads case.now layout.now row.now value.now (totals_of account.old) (totals_of account.new)) }
    ensures ledger { width.old ≤ width.new }
    ensures left { IsErrOf result LpFault.Left → Raised width.old width.new }
{
    match kind_of(layout, row) {
        Some(RowKind::Train(train)) => read_train(case, layout, row, train, value, account, width),
        Some(RowKind::Use(platform)) => read_use(
            case, layout, row, platform, value, account, width,
        ),
        Some(RowKind::Clique(platform)) => {
            read_clique(case, allowed, layout, row, platform, value, account, width)
        }
        Some(RowKind::Pair(at)) => read_pair(
            case, allowed, layout, row, &at, value, account, width,
        ),
        None => unreachable!(),
    }
}

/// Adds the row of a train.
fn read_train(
    case: &Case,
    layout: &Layout,
    row: &Row,
    train: usize,
    value: &i128,
    account: &mut Account,
    width: &mut Width,
) -> Result<(), LpFault>
    requires layout { IsLayoutOf case.now layout.now }
    requires kind { IsKind case.now layout.now row.now (Train train) }
    ensures read { OnOk result (Reads case.now layout.now row.now value.now (totals_of account.old) (totals_of account.new)) }
    ensures ledger { width.old ≤ width.new }
    ensures left { IsErrOf result LpFault.Left → Raised width.old width.new }
{
    let _limits = case.book().trains();
    add(&mut account.u, train as u16, value, width)?;
    Ok(())
}

/// Adds the row of a platform's use.
fn read_use(
    case: &Case,
    layout: &Layout,
    row: &Row,
    platform: usize,
    value: &i128,
    account: &mut Account,
    width: &mut Width,
) -> Result<(), LpFault>
    requires layout { IsLayoutOf case.now layout.now }
    requires kind { IsKind case.now layout.now row.now (Use platform) }
    requires sign { pos 0 ≤ℤ value.now }
    ensures read { OnOk result (Reads case.now layout.now row.now value.now (totals_of account.old) (totals_of account.new)) }
    ensures ledger { width.old ≤ width.new }
    ensures left { IsErrOf result LpFault.Left → Raised width.old width.new }
{
    let _limits = case.station();
    add(&mut account.uses, platform as u16, value, width)?;
    Ok(())
}

/// Adds the row of a platform at a minute. Its minute is the latest arrival of its patterns, which all hold the platform then.
fn read_clique(
    case: &Case,
    allowed: &Allowed,
    layout: &Layout,
    row: &Row,
    platform: usize,
    value: &i128,
    account: &mut Account,
    width: &mut Width,
) -> Result<(), LpFault>
    requires layout { IsLayoutOf case.now layout.now }
    requires same { layout.now.lists ≡ allowed.now.lists }
    requires kind { IsKind case.now layout.now row.now (Clique platform) }
    requires sign { pos 0 ≤ℤ value.now }
    ensures read { OnOk result (Reads case.now layout.now row.now value.now (totals_of account.old) (totals_of account.new)) }
    ensures ledger { width.old ≤ width.new }
    ensures left { IsErrOf result LpFault.Left → Raised width.old width.new }
{
    let _limits = case.station();
    let key = MinuteKey {
        platform: platform as u16,
        minute: latest_arrival(case, allowed, layout, row),
    };
    add(&mut account.v, key, value, width)?;
    Ok(())
}
