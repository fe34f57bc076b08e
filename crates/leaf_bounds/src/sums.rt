ghost use Rattle.leaf_bounds.specs.Listed.{u_listed};
ghost use Rattle.leaf_bounds.specs.Places.{train_value};
ghost use Rattle.std.specs.Prelude.{◌≡◌, ◌*◌, ◌≤◌, ◌^◌, unsigned_abs};

use crate::leaf::Leaf;
use crate::number::TrainValue;

/// The train's own number.
pub(crate) fn u_of(leaf: &Leaf, train: u16) -> i128
    ensures value { result ≡ u_listed leaf.now.u train }
    ensures size { unsigned_abs result ≤ 200 * 10 ^ 30 }
{
    let entries = leaf.u.as_slice();
    let mut sum = 0;
    for x in entries {
        sum += value_of_train(x, train);
    }
    sum
}

fn value_of_train(x: &TrainValue, train: u16) -> i128
    ensures { result ≡ train_value train x.now }
{
    if x.train == train { x.value } else { 0 }
}
