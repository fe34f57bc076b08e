ghost use Rattle.pair_cuts.specs.Cut.{pair_costs};
ghost use Rattle.pair_cuts.specs.Table.{AreThere, TwoTrains, column_count, cost_at, row_count};
ghost use Rattle.pair_prices.specs.Fraction.{left_out, pattern_of};
ghost use Rattle.pair_prices.specs.Top.{sealed_price};
ghost use Rattle.patterns.specs.Allowed.{FitsBook, list_of};
ghost use Rattle.std.proofs.Common.{arith};
ghost use Rattle.std.specs.Prelude.{◌≡◌, ◌<◌, ◌≤◌, ◌^◌, length, pos, slice_index};

use pair_prices::Case;
use patterns::Allowed;
use std::marker::Model;
use transport::Cost;

/// What the choices of two trains cost. The last choice is to be left out.
#[derive(Drop)]
pub(crate) struct PairCosts<'a> {
    pub case: &'a Case,
    pub allowed: &'a Allowed,
    pub first: usize,
    pub second: usize,
}

impl<'a> Model for PairCosts<'a> {
    ghost use Rattle.pair_cuts.specs.Table.{AreThere, TwoTrains};

    ghost Value = { TwoTrains };

    ghost view = { λ p. record { case = p.case.now; lists = p.allowed.now.lists; first = p.first; second = p.second } };

    ghost invariant = { λ p. AreThere (record { case = p.case.now; lists = p.allowed.now.lists; first = p.first; second = p.second }) };
}

impl<'a> Cost for PairCosts<'a> {
    ghost row_count = { row_count };

    ghost column_count = { column_count };

    ghost table = { cost_at };

    fn rows(&self) -> usize {
        count_of(self.allowed, self.first) + 1
    }

    fn columns(&self) -> usize {
        count_of(self.allowed, self.second) + 1
    }

    fn cost(&self, i: usize, j: usize) -> i64 {
        // The prices keep the limits of the case.
        let _station = self.case.station();
        pair_cost(self.case, self.allowed, self.first, self.second, i, j)
    }

    ghost bounded = { λ costs i j row column. Prim.omega arith };
}

/// The number of the train's allowed patterns.
fn count_of(allowed: &Allowed, train: usize) -> usize
    requires { train < length allowed.now.lists }
    ensures value { result ≡ left_out allowed.now.lists train }
    ensures most { result < 2 ^ 63 }
{
    allowed.lists.as_slice()[train].as_slice().len()
}

/// What two choices cost.
fn pair_cost(case: &Case, allowed: &Allowed, first: usize, second: usize, i: usize, j: usize) -> i64
    requires lists { FitsBook allowed.now.lists case.now.book }
    requires order { first < second }
    requires second { second < length case.now.book }
    ensures { result ≡ pos (pair_costs case.now allowed.now.lists first second i j) }
{
    if i < count_of(allowed, first) {
        cost_in_row(case, allowed, first, second, i, j)
    } else {
        0
    }
}

/// The same where the first train is not left out.
fn cost_in_row(
    case: &Case,
    allowed: &Allowed,
    first: usize,
    second: usize,
    i: usize,
    j: usize,
) -> i64
    requires lists { FitsBook allowed.now.lists case.now.book }
    requires order { first < second }
    requires second { second < length case.now.book }
    requires row { i < left_out allowed.now.lists first }
    ensures { result ≡ pos (pair_costs case.now allowed.now.lists first second i j) }
{
    if j < count_of(allowed, second) {
        sealed_at(case, allowed, first, second, i, j)
    } else {
        0
    }
}

/// The sealed price of the patterns at these places of the two lists.
fn sealed_at(case: &Case, allowed: &Allowed, first: usize, second: usize, i: usize, j: usize) -> i64
    requires lists { FitsBook allowed.now.lists case.now.book }
    requires order { first < second }
    requires second { second < length case.now.book }
    requires row { i < left_out allowed.now.lists first }
    requires column { j < left_out allowed.now.lists second }
    ensures { result ≡ pos (sealed_price case.now (pattern_of case.now allowed.now.lists first i)
        (pattern_of case.now allowed.now.lists second j)) }
{
    let row = number_at(allowed, first, i);
    let column = number_at(allowed, second, j);
    case.sealed(first, row, second, column)
}

fn number_at(allowed: &Allowed, train: usize, place: usize) -> u16
    requires train { train < length allowed.now.lists }
    requires place { place < left_out allowed.now.lists train }
    ensures { result ≡ slice_index (list_of allowed.now.lists train) place }
{
    allowed.lists.as_slice()[train].as_slice()[place]
}
