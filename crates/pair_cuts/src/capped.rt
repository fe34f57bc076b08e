ghost use Rattle.pair_cuts.specs.Table.{capped_at, column_count, row_count};
ghost use Rattle.std.proofs.Common.{arith};
ghost use Rattle.std.specs.Prelude.{◌≡◌, ◌≤◌, min, pos, ◌≤ℤ◌, unsigned_abs};

use crate::costs::PairCosts;
use transport::Cost;

/// The costs of two trains' choices, none above a cap.
#[derive(Drop)]
pub(crate) struct CappedCosts<'a> {
    pub costs: &'a PairCosts<'a>,
    pub cap: u64,
}

impl<'a> Cost for CappedCosts<'a> {
    ghost row_count = { λ s. row_count s.costs.now };

    ghost column_count = { λ s. column_count s.costs.now };

    ghost table = { λ s. capped_at s.costs.now s.cap };

    fn rows(&self) -> usize {
        self.costs.rows()
    }

    fn columns(&self) -> usize {
        self.costs.columns()
    }

    fn cost(&self, i: usize, j: usize) -> i64 {
        capped(self.costs.cost(i, j), self.cap)
    }

    ghost bounded = { λ s i j row column. Prim.omega arith };
}

/// The cost, or the cap where the cost is above it.
fn capped(cost: i64, cap: u64) -> i64
    requires { pos 0 ≤ℤ cost }
    ensures { result ≡ pos (min (unsigned_abs cost) cap) }
{
    if cost.unsigned_abs() <= cap {
        cost
    } else {
        cap as i64
    }
}
