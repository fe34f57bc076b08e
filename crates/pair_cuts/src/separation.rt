ghost use Rattle.pair_cuts.specs.Cut.{IsLeastPairCost, IsMet, IsPairCut, IsScaleAbove, IsSmall, IsViolated, worth};
ghost use Rattle.pair_prices.specs.Case.{IsCase};
ghost use Rattle.patterns.specs.Allowed.{FitsBook};
ghost use Rattle.patterns.specs.Weights.{FitsLists, choice_weights};
ghost use Rattle.std.specs.Prelude.{◌≡◌, ℤ, ◌++◌, ◌∷◌, [], ◌^◌, ◌<◌, length, pos, ◌≤ℤ◌, ◌<ℤ◌, ◌↔◌, IfOk, IfSome, IsNone, Err, MatchOption};

use crate::costs::PairCosts;
use crate::cut::{CutFault, PairCut};
use crate::potentials::{least_value, small_potentials};
use pair_prices::Case;
use patterns::{Allowed, Weights};
use sequence::Sequence;
use std::alloc::{AllocError, Global};
use transport::Coupled;

/// The greatest scale that is taken.
pub(crate) const MOST_SCALE: i128 = 1_000_000_000_000_000_000_000_000;

/// A cut on two trains that is violated at the weights: it is worth the least cost of a coupling of the two trains' weights,
/// which is above the pair value. `None` where that cost is at most the pair value.
///
/// The weights are of lists that fit the case, at least 0, and each train's are the scale in total. Pair value and cost are
/// in price units times the scale. First the least cost is found, where only patterns with weight are looked at. Only for
/// a cut all patterns are.
///
/// # Errors
/// `Scale` exactly where the scale is above 10^24, and `Memory` where none was found.
pub fn violated_pair(
    alloc: Global,
    case: &Case,
    allowed: &Allowed,
    weights: &Weights,
    first: usize,
    second: usize,
    pair_value: i128,
) -> Result<Option<PairCut>, CutFault>
    requires lists { FitsBook allowed.now.lists case.now.book }
    requires weights { FitsLists allowed.now.lists weights.now }
    requires order { first < second }
    requires second { second < length case.now.book }
    // The cut holds for every pair of allowed numbers and wherever left out takes part, and its numbers are at most 10^15.
    ensures holds { IfOk result (λ o. IfSome o (IsPairCut case.now allowed.now.lists first second)) }
    ensures small { IfOk result (λ o. IfSome o IsSmall) }
    // At the weights it is worth the least cost of a coupling, which is above the pair value.
    ensures least { IfOk result (λ o. IfSome o (λ cut.
        IsLeastPairCost case.now allowed.now.lists weights.now first second (worth weights.now first second cut))) }
    ensures above { IfOk result (λ o. IfSome o (λ cut. pair_value <ℤ worth weights.now first second cut)) }
    ensures none { IfOk result (λ o. IsNone o ↔ IsMet case.now allowed.now.lists weights.now first second pair_value) }
    ensures scale { (n : ℤ) → (result ≡ Err (CutFault.Scale n)) ↔ IsScaleAbove weights.now n }
{
    if weights.scale > MOST_SCALE {
        return Err(CutFault::Scale(weights.scale));
    }
    // The prices keep the limits of the case.
    let _station = case.station();
    let costs = PairCosts {
        case,
        allowed,
        first,
        second,
    };
    match separated(alloc, &costs, weights, pair_value) {
        Ok(cut) => Ok(cut),
        Err(_) => Err(CutFault::Memory),
    }
}

/// The answer of `violated_pair` for a scale that is taken.
fn separated(
    alloc: Global,
    costs: &PairCosts,
    weights: &Weights,
    pair_value: i128,
) -> Result<Option<PairCut>, AllocError>
    requires limits { IsCase costs.now.case }
    requires weights { FitsLists costs.now.lists weights.now }
    requires scale { weights.now.scale ≤ℤ pos (10 ^ 24) }
    ensures { IfOk result (λ o. MatchOption o
        (IsMet costs.now.case costs.now.lists weights.now costs.now.first costs.now.second pair_value)
        (IsViolated costs.now.case costs.now.lists weights.now costs.now.first costs.now.second pair_value)) }
{
    let left = choices(alloc, weights, costs.first)?;
    let right = choices(alloc, weights, costs.second)?;
    let least = least_value(alloc, costs, &left, &right)?;
    if least <= pair_value {
        return Ok(None);
    }
    let coupled = small_potentials(alloc, costs, &left, &right, least)?;
    Ok(Some(cut_of(coupled, costs.first, costs.second)))
}

/// The weights of the train's choices. The last one is of leaving it out.
pub(crate) fn choices(
    alloc: Global,
    weights: &Weights,
    train: usize,
) -> Result<Vec<i128>, AllocError>
    requires weight { train < length weights.now.weight }
    requires left { train < length weights.now.left }
    ensures { IfOk result (λ v. v.items ≡ choice_weights weights.now train) }
{
    let mut all = Vec::from_slice(alloc, weights.weight.as_slice()[train].as_slice())?;
    all.push(weights.left.as_slice()[train])?;
    Ok(all)
}

/// The potentials of a coupling as a cut.
fn cut_of(coupled: Coupled, first: usize, second: usize) -> PairCut
    requires rows { 0 < length coupled.alpha }
    requires columns { 0 < length coupled.beta }
    ensures is_first { result.first ≡ first }
    ensures is_second { result.second ≡ second }
    ensures alpha { result.alpha ++ result.alpha_left ∷ [] ≡ coupled.alpha }
    ensures beta { result.beta ++ result.beta_left ∷ [] ≡ coupled.beta }
{
    let mut alpha = coupled.alpha.into_vec();
    let mut beta = coupled.beta.into_vec();
    let alpha_left = take_last(&mut alpha);
    let beta_left = take_last(&mut beta);
    PairCut {
        first,
        second,
        alpha: Sequence::from_vec(alpha),
        alpha_left,
        beta: Sequence::from_vec(beta),
        beta_left,
    }
}

/// Takes the last of some numbers off.
fn take_last(numbers: &mut Vec<i128>) -> i128
    requires { 0 < length numbers.old.items }
    ensures { numbers.new.items ++ result ∷ [] ≡ numbers.old.items }
{
    match numbers.pop() {
        Some(last) => last,
        None => 0,
    }
}
