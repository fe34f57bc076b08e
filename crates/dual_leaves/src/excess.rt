ghost use Rattle.dual_leaves.specs.Account.{of_number, on_platform, NoneBelow};
ghost use Rattle.dual_leaves.specs.Priced.{use_price, AreFirstPaid, AreUsesPaid};
ghost use Rattle.dual_leaves.specs.Sums.{summed};
ghost use Rattle.ratio.specs.Ledger.{Raised};
ghost use Rattle.leaf_bounds.specs.Total.{only_if};
ghost use Rattle.pair_prices.specs.Plan.{platform_price};
ghost use Rattle.std.specs.Map.{values_of};
ghost use Rattle.std.specs.Prelude.{◌≡◌, ℕ, ◌<◌, ◌≤◌, ◌+ℤ◌, ◌≤ℤ◌, length, IfOk, OnOk, IsErrOf};

use crate::key::MinuteKey;
use crate::latest::FIRST_MINUTE;
use crate::sums::add;
use exact_lp::LpFault;
use pair_prices::Case;
use ratio::Width;
use ratio::whole::{difference, product, sum};
use std::collections::BTreeMap;

/// Pays for the first minute of each platform whose use is held down, so that what is paid for the platform is above its price by just
/// the value that holds it down. Where that value is 0 no more than the price is paid.
pub(crate) fn pay_excess(
    case: &Case,
    scale: &i128,
    uses: &BTreeMap<u16, i128>,
    v: &mut BTreeMap<MinuteKey, i128>,
    width: &mut Width,
) -> Result<(), LpFault>
    requires least { NoneBelow (values_of uses.now.entries) }
    requires most { (platform : ℕ) → platform < length case.now.station.platforms
        → on_platform v.old.entries platform ≤ℤ (use_price case.now scale.now platform +ℤ of_number uses.now.entries platform) }
    ensures paid { OnOk result (AreUsesPaid case.now scale.now uses.now.entries v.old.entries v.new.entries) }
    ensures ledger { width.old ≤ width.new }
    ensures left { IsErrOf result LpFault.Left → Raised width.old width.new }
{
    let platforms = case.station().platforms.len() as u16;
    for platform in 0..platforms {
        pay_platform(case, scale, platform, uses, v, width)?;
    }
    Ok(())
}

/// Pays for the first minute of one platform.
fn pay_platform(
    case: &Case,
    scale: &i128,
    platform: u16,
    uses: &BTreeMap<u16, i128>,
    v: &mut BTreeMap<MinuteKey, i128>,
    width: &mut Width,
) -> Result<(), LpFault>
    requires platform { platform < length case.now.station.platforms }
    requires least { NoneBelow (values_of uses.now.entries) }
    requires most { on_platform v.old.entries platform ≤ℤ (use_price case.now scale.now platform +ℤ of_number uses.now.entries platform) }
    ensures paid { OnOk result (AreFirstPaid case.now scale.now uses.now.entries platform v.old.entries v.new.entries) }
    ensures ledger { width.old ≤ width.new }
    ensures left { IsErrOf result LpFault.Left → Raised width.old width.new }
{
    let held_down = held_down(uses, platform, width)?;
    if held_down == 0 {
        return Ok(());
    }
    let price = product(*scale, i128::from(price_of(case, platform)), width)?;
    let most = sum(price, held_down, width)?;
    let rest = difference(most, paid_for(v, platform, width)?, width)?;
    let key = MinuteKey {
        platform,
        minute: FIRST_MINUTE,
    };
    add(v, key, &rest, width)?;
    Ok(())
}

/// The platform's price.
fn price_of(case: &Case, platform: u16) -> u32
    ensures { result ≡ platform_price case.now platform }
{
    match case.station().platforms.get(platform as usize) {
        Some(platform) => platform.price,
        None => 0,
    }
}

/// The value that holds down the platform's use.
fn held_down(uses: &BTreeMap<u16, i128>, platform: u16, width: &mut Width) -> Result<i128, LpFault>
    ensures value { IfOk result (λ z. z ≡ of_number uses.now.entries platform) }
    ensures ledger { width.old ≤ width.new }
    ensures left { IsErrOf result LpFault.Left → Raised width.old width.new }
{
    let mut total = 0;
    for (key, value) in uses {
        total = sum(total, value_if(*key == platform, value), width)?;
    }
    Ok(total)
}

/// What is paid for the platform at all minutes.
fn paid_for(
    v: &BTreeMap<MinuteKey, i128>,
    platform: u16,
    width: &mut Width,
) -> Result<i128, LpFault>
    ensures value { IfOk result (λ z. z ≡ on_platform v.now.entries platform) }
    ensures ledger { width.old ≤ width.new }
    ensures left { IsErrOf result LpFault.Left → Raised width.old width.new }
{
    let mut total = 0;
    for (key, value) in v {
        total = sum(total, value_if(key.platform == platform, value), width)?;
    }
    Ok(total)
}

fn value_if(here: bool, value: &i128) -> i128
    ensures { result ≡ only_if here value.now }
{
    if here { *value } else { 0 }
}
