// Cuts on the pairs of trains that can meet.
ghost use Rattle.master_lp.specs.Looks.{AreMetAt, AreRead, IsAbove, IsMetAt, IsOneOf};
ghost use Rattle.pair_classes.specs.Meetings.{AreMeetings};
ghost use Rattle.pattern_pricing.specs.Prices.{IsLayoutOf};
ghost use Rattle.std.specs.Prelude.{◌≡◌, ◌<◌, length, IfOk, MatchOption};

use exact_lp::Point;
use pair_classes::{Meeting, Meetings};
use pair_cuts::{PairCut, violated_pair};
use pair_prices::Case;
use pattern_pricing::Layout;
use patterns::{Allowed, Weights};
use station_rows::pair_value_at;
use std::alloc::{AllocError, Global};

/// A cut on two trains that is worth more than the point's value of the two, and mostly by how much.
#[derive(Drop)]
pub(crate) struct Excess {
    pub cut: PairCut,
    pub by: i128,
}

/// A cut that is worth more than the point's value of its two trains, mostly the one by most, of the pairs that can meet.
pub(crate) fn worst_pair(
    alloc: Global,
    case: &Case,
    allowed: &Allowed,
    layout: &Layout,
    meetings: &Meetings,
    point: &Point,
    weights: &Weights,
) -> Result<Option<Excess>, AllocError>
    requires layout { IsLayoutOf case.now layout.now }
    requires lists { layout.now.lists ≡ allowed.now.lists }
    requires meetings { AreMeetings case.now meetings.now }
    requires read { AreRead case.now layout.now point.now weights.now }
    ensures { IfOk result (λ o. MatchOption o (AreMetAt case.now layout.now point.now weights.now meetings.now.pairs)
        (λ a. IsAbove case.now layout.now point.now weights.now a.cut)) }
{
    let mut worst = None;
    let pairs = meetings.pairs();
    for meeting in pairs {
        let found = cut_above(alloc, case, allowed, layout, point, weights, meeting)?;
        worst = worse(worst, found);
    }
    Ok(worst)
}

/// The cut on these two trains, if one is worth more than the point's value of the two.
fn cut_above(
    alloc: Global,
    case: &Case,
    allowed: &Allowed,
    layout: &Layout,
    point: &Point,
    weights: &Weights,
    meeting: &Meeting,
) -> Result<Option<Excess>, AllocError>
    requires layout { IsLayoutOf case.now layout.now }
    requires lists { layout.now.lists ≡ allowed.now.lists }
    requires read { AreRead case.now layout.now point.now weights.now }
    requires order { meeting.now.first < meeting.now.second }
    requires there { meeting.now.second < length case.now.book }
    ensures { IfOk result (λ o. MatchOption o (IsMetAt case.now layout.now point.now weights.now meeting.now)
        (λ a. IsAbove case.now layout.now point.now weights.now a.cut)) }
{
    let value = pair_value_at(layout, point, meeting.first, meeting.second);
    match violated_pair(
        alloc,
        case,
        allowed,
        weights,
        meeting.first,
        meeting.second,
        value,
    ) {
        Ok(Some(cut)) => {
            let by = worth_of(weights, &cut).saturating_sub(value);
            Ok(Some(Excess { cut, by }))
        }
        Ok(None) => Ok(None),
        // The scale is one that is taken.
        Err(_) => Err(AllocError),
    }
}

/// The one of greater excess.
fn worse(worst: Option<Excess>, found: Option<Excess>) -> Option<Excess>
    ensures { IsOneOf worst found result }
{
    match (worst, found) {
        (None, found) => found,
        (worst, None) => worst,
        (Some(worst), Some(found)) => {
            if worst.by < found.by {
                Some(found)
            } else {
                Some(worst)
            }
        }
    }
}

/// What the cut is worth at the weights, held at the ends of the type. It only orders cuts.
fn worth_of(weights: &Weights, cut: &PairCut) -> i128 {
    let first = worth_on(weights, cut.first, cut.alpha.as_slice(), cut.alpha_left);
    let second = worth_on(weights, cut.second, cut.beta.as_slice(), cut.beta_left);
    first.saturating_add(second)
}

fn worth_on(weights: &Weights, train: usize, numbers: &[i128], left: i128) -> i128 {
    let left_weight = weights.left.as_slice().get(train).copied().unwrap_or(0);
    let mut worth = left.saturating_mul(left_weight);
    let Some(own) = weights.weight.as_slice().get(train) else {
        return worth;
    };
    let own = own.as_slice();
    for place in 0..own.len() {
        let number = numbers.get(place).copied().unwrap_or(0);
        worth = worth.saturating_add(number.saturating_mul(own[place]));
    }
    worth
}
