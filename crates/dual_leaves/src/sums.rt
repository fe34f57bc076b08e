ghost use Rattle.dual_leaves.specs.Sums.{number_of, IsAdded};
ghost use Rattle.ratio.specs.Ledger.{Raised};
ghost use Rattle.std.specs.Prelude.{◌≡◌, ◌≤◌, OnOk, IsErrOf};

use exact_lp::LpFault;
use ratio::Width;
use ratio::whole::sum;
use std::collections::BTreeMap;

/// The number of the key, and 0 where it has none.
pub(crate) fn number_at<K: Ord>(sums: &BTreeMap<K, i128>, key: &K) -> i128
    ensures { result ≡ number_of K.cmp sums.now.entries key.now }
{
    match sums.get(key) {
        Some(number) => *number,
        None => 0,
    }
}

/// Adds to the number of the key.
pub(crate) fn add<K: Ord + Copy + Drop>(
    sums: &mut BTreeMap<K, i128>,
    key: K,
    value: &i128,
    width: &mut Width,
) -> Result<(), LpFault>
    ensures added { OnOk result (IsAdded K.cmp sums.old.entries key value.now sums.new.entries) }
    ensures ledger { width.old ≤ width.new }
    ensures left { IsErrOf result LpFault.Left → Raised width.old width.new }
{
    let number = sum(number_at(sums, &key), *value, width)?;
    sums.insert(key, number)?;
    Ok(())
}
