ghost use Rattle.dual_leaves.specs.Divided.{listed, minute_value, pair_value, quotients, train_value};
ghost use Rattle.dual_leaves.specs.Orders.{minute_order, pair_order};
ghost use Rattle.std.specs.List.Sorted.{IsStrictlySortedBy};
ghost use Rattle.std.specs.Map.{keys_of};
ghost use Rattle.std.specs.Ordering.{nat_cmp};
ghost use Rattle.std.specs.Prelude.{◌≡◌, ◌++◌, pos, ◌<ℤ◌, IfOk, OnOk};

use crate::divide::quotient;
use crate::key::{MinuteKey, PairKey};
use leaf_bounds::{MinuteValue, PairValue, TrainValue};
use sequence::Sequence;
use std::alloc::{AllocError, Global};
use std::collections::BTreeMap;

/// The numbers of trains, divided, in order and without 0.
pub(crate) fn train_values(
    alloc: Global,
    sums: &BTreeMap<u16, i128>,
    divisor: &i128,
) -> Result<Sequence<TrainValue>, AllocError>
    requires { pos 0 <ℤ divisor.now }
    ensures value { IfOk result (λ s. s ≡ quotients train_value divisor.now sums.now.entries) }
    ensures sorted { IsStrictlySortedBy nat_cmp (keys_of sums.now.entries) }
{
    let mut values = Vec::new(alloc);
    for (train, sum) in sums {
        push_train(&mut values, *train, quotient(*sum, *divisor))?;
    }
    Ok(Sequence::from_vec(values))
}

/// The numbers of platforms at minutes.
pub(crate) fn minute_values(
    alloc: Global,
    sums: &BTreeMap<MinuteKey, i128>,
    divisor: &i128,
) -> Result<Sequence<MinuteValue>, AllocError>
    requires { pos 0 <ℤ divisor.now }
    ensures value { IfOk result (λ s. s ≡ quotients minute_value divisor.now sums.now.entries) }
    ensures sorted { IsStrictlySortedBy minute_order (keys_of sums.now.entries) }
{
    let mut values = Vec::new(alloc);
    for (key, sum) in sums {
        push_minute(&mut values, key, quotient(*sum, *divisor))?;
    }
    Ok(Sequence::from_vec(values))
}

/// The numbers of pairs of trains at patterns.
pub(crate) fn pair_values(
    alloc: Global,
    sums: &BTreeMap<PairKey, i128>,
    divisor: &i128,
) -> Result<Sequence<PairValue>, AllocError>
    requires { pos 0 <ℤ divisor.now }
    ensures value { IfOk result (λ s. s ≡ quotients pair_value divisor.now sums.now.entries) }
    ensures sorted { IsStrictlySortedBy pair_order (keys_of sums.now.entries) }
{
    let mut values = Vec::new(alloc);
    for (key, sum) in sums {
        push_pair(&mut values, key, quotient(*sum, *divisor))?;
    }
    Ok(Sequence::from_vec(values))
}

fn push_train(values: &mut Vec<TrainValue>, train: u16, value: i128) -> Result<(), AllocError>
    ensures { OnOk result (values.new.items ≡ values.old.items ++ listed train_value train value) }
{
    if value != 0 {
        values.push(TrainValue { train, value })?;
    }
    Ok(())
}

fn push_minute(
    values: &mut Vec<MinuteValue>,
    key: &MinuteKey,
    value: i128,
) -> Result<(), AllocError>
    ensures { OnOk result (values.new.items ≡ values.old.items ++ listed minute_value key.now value) }
{
    if value != 0 {
        values.push(MinuteValue {
            platform: key.platform,
            minute: key.minute,
            value,
        })?;
    }
    Ok(())
}

fn push_pair(values: &mut Vec<PairValue>, key: &PairKey, value: i128) -> Result<(), AllocError>
    ensures { OnOk result (values.new.items ≡ values.old.items ++ listed pair_value key.now value) }
{
    if value != 0 {
        values.push(PairValue {
            first: key.first,
            second: key.second,
            number: key.number,
            value,
        })?;
    }
    Ok(())
}
