ghost use Rattle.dual_leaves.specs.Account.{totals_of, IsKept};
ghost use Rattle.dual_leaves.specs.Kinds.{AreStationRows};
ghost use Rattle.dual_leaves.specs.Made.{AreSizes, IsDualAccount, IsDividedLeaf, IsTooWide, IsTooWideOver};
ghost use Rattle.dual_leaves.specs.Divided.{Divides, AreSmall};
ghost use Rattle.dual_leaves.specs.declared.fault.DualFault.TheVariants.{Scale};
ghost use Rattle.ratio.specs.Ledger.{Raised};
ghost use Rattle.exact_lp.specs.Programs.{reduced_price, valued_leasts};
ghost use Rattle.leaf_bounds.specs.Leaf.{value_of};
ghost use Rattle.leaf_bounds.specs.Shown.{numbers_of, LeafStands};
ghost use Rattle.patterns.specs.Allowed.{FitsBook};
ghost use Rattle.pattern_pricing.specs.Layout.{columns_of};
ghost use Rattle.pattern_pricing.specs.Prices.{column_price, IsLayoutOf};
ghost use Rattle.std.specs.Prelude.{◌≡◌, ℕ, ℤ, ◌<◌, ◌≤◌, length, pos, ◌*ℤ◌, ◌≤ℤ◌, ◌<ℤ◌, IfOk, IfSome, IfNone, IsErrOf};

use crate::account::Account;
use crate::divide::{divisor_of, quotient, too_wide};
use crate::excess::pay_excess;
use crate::fault::DualFault;
use crate::lists::{minute_values, pair_values, train_values};
use crate::read::read_rows;
use exact_lp::{Duals, LpFault};
use leaf_bounds::Leaf;
use pair_prices::Case;
use pattern_pricing::Layout;
use patterns::Allowed;
use ratio::Width;
use std::alloc::{AllocError, Global};

/// The greatest scale of a leaf.
const MOST_SCALE: i128 = 1_000_000_000_000_000_000;

/// The leaf of exact duals over the rows of a node's bound, under which no column has a negative reduced price. It stands for the node's
/// lists, and its value over its scale is what the duals cost: `docs/PROOFS.md`, "Leaves" and "Fractional plans". Scale and numbers are
/// divided by a common divisor, so that they are small.
///
/// A train's number is the value of its opening row, and the numbers of a pair are those of the cuts on it times the values of their rows.
/// The value of the row of a platform at a minute goes to the latest arrival of its patterns, which all hold the platform then.
///
/// # Errors
/// `Scale` where the leaf would have a scale above 10^18 or another number above 10^30 in size, with that number; `Left` where a sum or
/// a product left 128 bits, which the ledger has counted; and `Memory` where none was found.
pub fn leaf_of_duals(
    alloc: Global,
    case: &Case,
    allowed: &Allowed,
    layout: &Layout,
    duals: &Duals,
    width: &mut Width,
) -> Result<Leaf, DualFault>
    requires lists { FitsBook allowed.now.lists case.now.book }
    requires layout { IsLayoutOf case.now layout.now }
    requires same { layout.now.lists ≡ allowed.now.lists }
    requires rows { AreStationRows case.now layout.now duals.now.rows }
    requires not_improving { (column : ℕ) → column < length (columns_of layout.now)
        → pos 0 ≤ℤ reduced_price (pos (column_price (record { case = case.now; layout = layout.now }) column)) duals.now column }
    ensures stands { IfOk result (λ leaf. LeafStands case.now allowed.now.lists leaf) }
    ensures value { IfOk result (λ leaf. value_of case.now (numbers_of leaf) *ℤ duals.now.scale ≡ valued_leasts duals.now.rows duals.now.values *ℤ leaf.q) }
    ensures ledger { width.old ≤ width.new }
    ensures left { IsErrOf result DualFault.Left → Raised width.old width.new }
    ensures scale { (n : ℤ) → IsErrOf result (DualFault.Scale n) → IsTooWide duals.now.scale n }
{
    let account = account_of(alloc, case, allowed, layout, duals, width)?;
    let divisor = divisor_of(&duals.scale, &account);
    let scale = quotient(duals.scale, divisor);
    if let Some(number) = number_too_wide(&scale, &account, &divisor) {
        return Err(DualFault::Scale(number));
    }
    let leaf = divided_leaf(alloc, case, layout, &scale, &account, &divisor)?;
    Ok(leaf)
}

/// What the rows of the duals say with their values, where no more than the values of the rows of uses is paid beyond the platforms'
/// prices.
fn account_of(
    alloc: Global,
    case: &Case,
    allowed: &Allowed,
    layout: &Layout,
    duals: &Duals,
    width: &mut Width,
) -> Result<Account, LpFault>
    requires layout { IsLayoutOf case.now layout.now }
    requires same { layout.now.lists ≡ allowed.now.lists }
    requires rows { AreStationRows case.now layout.now duals.now.rows }
    requires not_improving { (column : ℕ) → column < length (columns_of layout.now)
        → pos 0 ≤ℤ reduced_price (pos (column_price (record { case = case.now; layout = layout.now }) column)) duals.now column }
    ensures account { IfOk result (λ a. IsDualAccount case.now layout.now duals.now.scale (valued_leasts duals.now.rows duals.now.values) (totals_of a)) }
    ensures ledger { width.old ≤ width.new }
    ensures left { IsErrOf result LpFault.Left → Raised width.old width.new }
{
    let mut account = read_rows(alloc, case, allowed, layout, duals, width)?;
    pay_excess(case, &duals.scale, &account.uses, &mut account.v, width)?;
    Ok(account)
}

/// A number that the leaf can't have: its scale above 10^18, or another one above 10^30 in size.
fn number_too_wide(scale: &i128, account: &Account, divisor: &i128) -> Option<i128>
    requires { pos 0 <ℤ divisor.now }
    ensures some { IfSome result (λ n. IsTooWideOver scale.now n) }
    ensures none { IfNone result (AreSizes scale.now divisor.now (totals_of account.now)) }
{
    if *scale > MOST_SCALE {
        return Some(*scale);
    }
    if let Some(number) = too_wide(&account.u, divisor) {
        return Some(number);
    }
    if let Some(number) = too_wide(&account.v, divisor) {
        return Some(number);
    }
    if let Some(number) = too_wide(&account.alpha, divisor) {
        return Some(number);
    }
    too_wide(&account.beta, divisor)
}

/// The leaf of the account's numbers, divided.
fn divided_leaf(
    alloc: Global,
    case: &Case,
    layout: &Layout,
    scale: &i128,
    account: &Account,
    divisor: &i128,
) -> Result<Leaf, AllocError>
    requires layout { IsLayoutOf case.now layout.now }
    requires kept { IsKept layout.now (totals_of account.now) }
    requires divisor { pos 0 <ℤ divisor.now }
    requires scale { pos 0 <ℤ scale.now }
    requires sizes { AreSizes scale.now divisor.now (totals_of account.now) }
    ensures { IfOk result (λ leaf. IsDividedLeaf scale.now divisor.now (totals_of account.now) leaf) }
{
    let _station = case.station();
    Ok(Leaf {
        q: *scale,
        u: train_values(alloc, &account.u, divisor)?,
        v: minute_values(alloc, &account.v, divisor)?,
        alpha: pair_values(alloc, &account.alpha, divisor)?,
        beta: pair_values(alloc, &account.beta, divisor)?,
    })
}
