ghost use Rattle.leaf_bounds.specs.Building.{listed_value, AreTrainValues};
ghost use Rattle.std.specs.Prelude.{◌≡◌, ◌≤◌, ◌^◌, ◌++◌, [], pos, IfOk, OnOk};

use crate::leaf::Leaf;
use crate::number::TrainValue;
use sequence::Sequence;
use std::alloc::{AllocError, Global};

/// A leaf of scale 1 with trains' numbers alone.
pub(crate) fn bare_leaf(alloc: Global, u: Vec<TrainValue>) -> Leaf
    requires { AreTrainValues u.items }
    ensures q { result.q ≡ pos 1 }
    ensures u { result.u ≡ u.items }
    ensures v { result.v ≡ [] }
    ensures alpha { result.alpha ≡ [] }
    ensures beta { result.beta ≡ [] }
{
    Leaf {
        q: 1,
        u: Sequence::from_vec(u),
        v: Sequence::from_vec(Vec::new(alloc)),
        alpha: Sequence::from_vec(Vec::new(alloc)),
        beta: Sequence::from_vec(Vec::new(alloc)),
    }
}

/// Adds a train's number to the list, unless it is 0.
pub(crate) fn push_value(u: &mut Vec<TrainValue>, train: u16, value: u64) -> Result<(), AllocError>
    ensures { OnOk result (u.new.items ≡ u.old.items ++ listed_value train value) }
{
    if value > 0 {
        u.push(TrainValue {
            train,
            value: value as i128,
        })?;
    }
    Ok(())
}
