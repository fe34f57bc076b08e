ghost use Rattle.pair_prices.specs.Plan.{Fits};
ghost use Rattle.plan_cost.specs.PlanText.{IsWritable};
ghost use Rattle.std.specs.Prelude.{◌≡◌, ◌↔◌, ◌<◌, length, slice_index, IsTrue};

use pair_prices::Case;
use sequence::Sequence;

/// One pattern number for each train.
#[derive(Drop)]
pub struct Plan {
    pub choice: Sequence<u16>,
}

impl Plan {
    /// Whether there is one number for each train, each in the train's list.
    pub fn fits(&self, case: &Case) -> bool
        ensures fits { IsTrue result ↔ Fits case.now self.now.choice }
        ensures writable { IsTrue result → IsWritable self.now.choice }
    {
        let book = case.book();
        if self.choice.len() != book.trains() {
            return false;
        }
        for train in 0..book.trains() {
            if self.number(train) as usize >= book.count(train) {
                return false;
            }
        }
        true
    }

    pub(crate) fn number(&self, train: usize) -> u16
        requires { train < length self.now.choice }
        ensures { result ≡ slice_index self.now.choice train }
    {
        self.choice.as_slice()[train]
    }
}
