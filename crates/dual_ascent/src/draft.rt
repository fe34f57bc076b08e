ghost use Rattle.std.specs.Prelude.{◌≡◌, IfSome};

use crate::ranges::{are_minute_values, are_pair_values, are_train_values, is_scale};
use leaf_bounds::{Leaf, MinuteValue, PairValue, TrainValue};
use sequence::Sequence;

/// Numbers for a leaf, in its order.
#[derive(Drop)]
pub struct Draft {
    /// The scale.
    pub q: i128,
    pub u: Vec<TrainValue>,
    pub v: Vec<MinuteValue>,
    /// At patterns of the first train of a pair.
    pub alpha: Vec<PairValue>,
    /// At patterns of the second train of a pair.
    pub beta: Vec<PairValue>,
}

/// The leaf of these numbers, or None where they aren't in the order or the ranges of a leaf: `docs/FORMATS.md`.
pub fn leaf_of(draft: Draft) -> Option<Leaf>
    ensures scale { IfSome result (λ l. l.q ≡ draft.q) }
    ensures trains { IfSome result (λ l. l.u ≡ draft.u.items) }
    ensures minutes { IfSome result (λ l. l.v ≡ draft.v.items) }
    ensures first { IfSome result (λ l. l.alpha ≡ draft.alpha.items) }
    ensures second { IfSome result (λ l. l.beta ≡ draft.beta.items) }
{
    if !is_scale(&draft.q) {
        return None;
    }
    if !are_train_values(&draft.u) {
        return None;
    }
    if !are_minute_values(&draft.v) {
        return None;
    }
    if !are_pair_values(&draft.alpha) {
        return None;
    }
    if !are_pair_values(&draft.beta) {
        return None;
    }
    let Draft {
        q,
        u,
        v,
        alpha,
        beta,
    } = draft;
    Some(Leaf {
        q,
        u: Sequence::from_vec(u),
        v: Sequence::from_vec(v),
        alpha: Sequence::from_vec(alpha),
        beta: Sequence::from_vec(beta),
    })
}
