ghost use Rattle.leaf_bounds.specs.Building.{value_list};
ghost use Rattle.leaf_bounds.specs.Fixed.{listed_minute, listed_pair, minute_list, opener, pair_list, pair_entry, paid, minute_entry, IsLeafOfPlan};
ghost use Rattle.leaf_bounds.specs.Made.{plan_of, HasOnePlan, IsFixedLeaf};
ghost use Rattle.pair_prices.specs.Plan.{Fits};
ghost use Rattle.pair_prices.specs.Trains.{pairs_with};
ghost use Rattle.patterns.specs.Allowed.{FitsBook};
ghost use Rattle.std.specs.Prelude.{◌≡◌, ◌<◌, ◌++◌, flat_map, length, slice_index, IfOk, OnOk};

use crate::bare::push_value;
use crate::leaf::Leaf;
use crate::number::{MinuteValue, PairValue, TrainValue};
use crate::paid::{chosen_of, opener_of, paid_by, sealed_by};
use crate::places::PairNumber;
use crate::value::price_of_platform;
use pair_prices::Case;
use patterns::Allowed;
use sequence::Sequence;
use station::Pattern;
use std::alloc::{AllocError, Global};

/// The leaf of lists with one member each. Its value is the cost of their plan where that is feasible, and it is empty
/// otherwise.
///
/// # Errors
/// `AllocError` where the leaf finds no memory.
pub fn fixed_leaf(alloc: Global, case: &Case, allowed: &Allowed) -> Result<Leaf, AllocError>
    requires fits { FitsBook allowed.now.lists case.now.book }
    requires one { HasOnePlan allowed.now.lists }
    ensures { IfOk result (λ l. IsFixedLeaf case.now allowed.now.lists l) }
{
    let _limits = case.station();
    let plan = only_plan(alloc, allowed)?;
    let leaf = leaf_of_plan(alloc, case, plan.as_slice())?;
    Ok(leaf)
}

/// The one plan of the lists.
fn only_plan(alloc: Global, allowed: &Allowed) -> Result<Vec<u16>, AllocError>
    requires { HasOnePlan allowed.now.lists }
    ensures { IfOk result (λ v. v.items ≡ plan_of allowed.now.lists) }
{
    let mut plan = Vec::new(alloc);
    for list in allowed.lists.as_slice() {
        plan.push(first_number(list.as_slice()))?;
    }
    Ok(plan)
}

/// The first of some numbers, and 0 where there is none.
fn first_number(numbers: &[u16]) -> u16
    ensures { result ≡ slice_index numbers.now 0 }
{
    match numbers.first() {
        Some(number) => *number,
        None => 0,
    }
}

fn leaf_of_plan(alloc: Global, case: &Case, plan: &[u16]) -> Result<Leaf, AllocError>
    requires { Fits case.now plan.now }
    ensures { IfOk result (λ l. IsLeafOfPlan case.now plan.now l) }
{
    let _limits = case.station();
    Ok(Leaf {
        q: 1,
        u: paid_list(alloc, case, plan)?,
        v: opened_list(alloc, case, plan)?,
        alpha: sealed_list(alloc, case, plan)?,
        beta: Sequence::from_vec(Vec::new(alloc)),
    })
}

fn paid_list(alloc: Global, case: &Case, plan: &[u16]) -> Result<Sequence<TrainValue>, AllocError>
    requires { Fits case.now plan.now }
    ensures { IfOk result (λ s. s ≡ value_list (paid case.now plan.now) (length case.now.book)) }
{
    let trains = case.book().trains() as u16;
    let mut u = Vec::new(alloc);
    for train in 0..trains {
        let value = paid_by(case, plan, train);
        push_value(&mut u, train, value)?;
    }
    Ok(Sequence::from_vec(u))
}

fn opened_list(
    alloc: Global,
    case: &Case,
    plan: &[u16],
) -> Result<Sequence<MinuteValue>, AllocError>
    requires { Fits case.now plan.now }
    ensures { IfOk result (λ s. s ≡ minute_list case.now plan.now (length case.now.station.platforms)) }
{
    let platforms = case.station().platforms.len() as u16;
    let mut v = Vec::new(alloc);
    for platform in 0..platforms {
        push_opened(case, plan, platform, &mut v)?;
    }
    Ok(Sequence::from_vec(v))
}

/// Adds the platform's price at the arrival of the first train on it.
fn push_opened(
    case: &Case,
    plan: &[u16],
    platform: u16,
    v: &mut Vec<MinuteValue>,
) -> Result<(), AllocError>
    requires { Fits case.now plan.now }
    ensures { OnOk result (v.new.items ≡ v.old.items ++ listed_minute case.now plan.now platform (opener case.now plan.now platform)) }
{
    match opener_of(case, plan, platform) {
        Some(train) => {
            let first = chosen_of(case, plan, train);
            push_minute(v, platform, &first, price_of_platform(case, platform))
        }
        None => Ok(()),
    }
}

fn push_minute(
    v: &mut Vec<MinuteValue>,
    platform: u16,
    first: &Pattern,
    price: u32,
) -> Result<(), AllocError>
    ensures { OnOk result (v.new.items ≡ v.old.items ++ minute_entry platform first.now.arrive price) }
{
    if price > 0 {
        v.push(MinuteValue {
            platform,
            minute: first.arrive,
            value: price as i128,
        })?;
    }
    Ok(())
}

fn sealed_list(alloc: Global, case: &Case, plan: &[u16]) -> Result<Sequence<PairValue>, AllocError>
    requires { Fits case.now plan.now }
    ensures { IfOk result (λ s. s ≡ pair_list case.now plan.now) }
{
    let trains = case.book().trains() as u16;
    let mut alpha = Vec::new(alloc);
    for first in 0..trains {
        push_pairs(case, plan, trains, first, &mut alpha)?;
    }
    Ok(Sequence::from_vec(alpha))
}

/// Adds what the train's pairs with later trains cost.
fn push_pairs(
    case: &Case,
    plan: &[u16],
    trains: u16,
    first: u16,
    alpha: &mut Vec<PairValue>,
) -> Result<(), AllocError>
    requires fits { Fits case.now plan.now }
    requires trains { trains ≡ length case.now.book }
    requires first { first < trains }
    ensures { OnOk result (alpha.new.items ≡ alpha.old.items ++ flat_map (listed_pair case.now plan.now) (pairs_with trains first)) }
{
    let number = plan[first as usize];
    for second in first + 1..trains {
        let at = PairNumber {
            first,
            second,
            number,
        };
        let price = sealed_by(case, plan, first, second);
        push_pair(alpha, &at, price)?;
    }
    Ok(())
}

fn push_pair(alpha: &mut Vec<PairValue>, at: &PairNumber, price: u64) -> Result<(), AllocError>
    ensures { OnOk result (alpha.new.items ≡ alpha.old.items ++ pair_entry at.now.first at.now.second at.now.number price) }
{
    if price > 0 {
        alpha.push(PairValue {
            first: at.first,
            second: at.second,
            number: at.number,
            value: price as i128,
        })?;
    }
    Ok(())
}
