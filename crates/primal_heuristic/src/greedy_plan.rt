ghost use Rattle.patterns.specs.Book.{offers_of};
ghost use Rattle.primal_heuristic.specs.Greedy.{IsFeasibleIfAny, choice_of, greedy_plan, number_taken};
ghost use Rattle.primal_heuristic.specs.Looks.{AreEarlier, less_of, look_at};
ghost use Rattle.std.specs.Prelude.{◌≡◌, ◌<◌, length, IfOk};

use crate::added::{pattern_price, platform_price, prices_beside};
use pair_prices::Case;
use plan_cost::Plan;
use sequence::Sequence;
use std::alloc::{AllocError, Global};

/// A pattern of the next train, and what it adds to the cost.
#[derive(Clone, Copy, Drop)]
pub(crate) struct Added {
    number: u16,
    cost: u64,
}

/// The greedy plan: the trains take patterns in order, each the one that adds least to the cost of the earlier ones, and of equals the
/// least number: `docs/RULES.md`, "The greedy plan". `None` exactly where some train has no pattern that isn't forbidden with an
/// earlier choice.
///
/// # Errors
/// `AllocError` where the plan finds no memory.
pub fn greedy(alloc: Global, case: &Case) -> Result<Option<Plan>, AllocError>
    ensures value { IfOk result (λ o. choice_of o ≡ greedy_plan case.now) }
    ensures feasible { IfOk result (IsFeasibleIfAny case.now) }
{
    let trains = case.book().trains();
    let mut choice = Vec::new(alloc);
    for _train in 0..trains {
        let Some(number) = number_taken(case, &choice) else {
            return Ok(None);
        };
        choice.push(number)?;
    }
    Ok(Some(Plan {
        choice: Sequence::from_vec(choice),
    }))
}

/// The number that the next train takes.
fn number_taken(case: &Case, earlier: &[u16]) -> Option<u16>
    requires { AreEarlier case.now earlier.now }
    ensures { result ≡ number_taken case.now earlier.now }
{
    let mut best = None;
    for number in 0..case.book().count(earlier.len()) as u16 {
        best = less(best, look(case, earlier, number));
    }
    match best {
        Some(added) => Some(added.number),
        None => None,
    }
}

fn less(best: Option<Added>, new: Option<Added>) -> Option<Added>
    ensures { result ≡ less_of best new }
{
    match (best, new) {
        (None, _) => new,
        (Some(_), None) => best,
        (Some(a), Some(b)) => if a.cost <= b.cost { best } else { new },
    }
}

/// The pattern with what it adds, if it isn't forbidden with an earlier choice.
#[tactic(auto, unfolding(crate::specs::Greedy::added_cost))]
fn look(case: &Case, earlier: &[u16], number: u16) -> Option<Added>
    requires earlier { AreEarlier case.now earlier.now }
    requires number { number < length (offers_of case.now.book (length earlier.now)) }
    ensures { result ≡ look_at case.now earlier.now number }
{
    let pairs = prices_beside(case, earlier, number)?;
    let pattern = pattern_price(case, earlier, number);
    let platform = platform_price(case, earlier, number);
    Some(Added {
        number,
        cost: pattern + pairs + platform,
    })
}
