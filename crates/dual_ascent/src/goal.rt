use crate::field::Field;
use pair_prices::Case;

/// What an ascent aims at.
#[derive(Clone, Copy, Drop)]
pub(crate) struct Goal {
    /// A value that steps aim at: the known plan's cost, or one that no lists with a plan reach.
    pub target: i128,
    /// A value above this shows all that is wanted: that no plan is cheaper than the known one, or that there is none.
    pub enough: i128,
    pub scale: i128,
}

impl Goal {
    pub(crate) fn new(case: &Case, field: &Field, known: Option<i64>) -> Goal {
        let scale = field.scale as i128;
        let top = (case.top() as i128).saturating_mul(scale);
        match known {
            Some(cost) => {
                let target = (cost as i128).saturating_mul(scale);
                Goal {
                    target,
                    enough: target.saturating_sub(scale),
                    scale,
                }
            }
            None => Goal {
                target: top.saturating_mul(2),
                enough: top.saturating_sub(1),
                scale,
            },
        }
    }

    /// Whether the value is all that is wanted.
    pub(crate) fn is_reached(&self, value: i128) -> bool {
        self.enough < value
    }

    /// The value that a step aims at: the target, or a quarter above the best so far where the target is far off.
    pub(crate) fn level(&self, best: i128) -> i128 {
        let near = best
            .saturating_add(best.saturating_abs() / 4)
            .saturating_add(self.scale);
        near.min(self.target)
    }
}
