ghost use Rattle.dual_ascent.specs.Plain.{IsAtLeastPlain};
ghost use Rattle.exact_lp.specs.Answers.{MayCause};
ghost use Rattle.exact_lp.specs.Outcomes.{IfExact, IfWeak};
ghost use Rattle.leaf_bounds.specs.Shown.{LeafStands, numbers_of};
ghost use Rattle.leaf_bounds.specs.Verdict.{answer_of};
ghost use Rattle.master_lp.specs.Bounds.{IfWeakBound, IsExact, IsWeak, MatchRelaxed, MayWeaken, column_count};
ghost use Rattle.master_lp.specs.Exact.{IsSolved};
ghost use Rattle.pair_classes.specs.Meetings.{AreMeetings};
ghost use Rattle.patterns.specs.Allowed.{FitsBook};
ghost use Rattle.pattern_pricing.specs.Layout.{columns_of};
ghost use Rattle.pattern_pricing.specs.Prices.{IsLayoutOf};
ghost use Rattle.std.specs.Prelude.{◌≡◌, ◌≤◌, ◌+◌, length, IfOk};

use crate::answer::Relaxed;
use crate::ends::{exact_end, weak_bound};
use crate::hints::RelaxHints;
use crate::source::RowSource;
use dual_ascent::{Climbed, Hints, climb};
use exact_lp::{Engine, Limits, Outcome};
use leaf_bounds::Leaf;
use pair_classes::Meetings;
use pair_prices::Case;
use pattern_pricing::{Layout, PatternPricing};
use patterns::Allowed;
use ratio::Width;
use std::alloc::{AllocError, Global};

/// The most steps of the ascent before the engine, without a seed and with one.
const STEPS: u32 = 1_500;

const SEEDED_STEPS: u32 = 300;

/// The bound of the node of these lists: `docs/PROOFS.md`, "Fractional plans". `Exact` has the least cost of a fractional plan over
/// the lists. `Weak` has a leaf's value, at least the sum of the least prices, and says why no more is known.
///
/// # Errors
/// `AllocError` where no memory was found.
pub fn relax(
    alloc: Global,
    case: &Case,
    allowed: &Allowed,
    limits: &Limits,
    width: &mut Width,
) -> Result<Relaxed, AllocError>
    requires { FitsBook allowed.now.lists case.now.book }
    // In both a leaf that stands for the lists has the value.
    ensures bound { IfOk result (λ r. MatchRelaxed r (IsExact case.now allowed.now.lists) (IsWeak case.now allowed.now.lists)) }
    ensures cause { IfOk result (λ r. IfWeakBound r (λ w.
        MayWeaken limits.now (length case.now.book) (column_count case.now allowed.now.lists) width.old width.new w.cause)) }
    ensures ledger { width.old ≤ width.new }
{
    let meetings = Meetings::new(alloc, case)?;
    let hints = RelaxHints {
        meetings: &meetings,
        seed: None,
        known: None,
    };
    relax_with(alloc, case, allowed, limits, &hints, width)
}

/// `relax` with what is known beside the lists.
///
/// # Errors
/// `AllocError` where no memory was found.
pub fn relax_with(
    alloc: Global,
    case: &Case,
    allowed: &Allowed,
    limits: &Limits,
    hints: &RelaxHints,
    width: &mut Width,
) -> Result<Relaxed, AllocError>
    requires fits { FitsBook allowed.now.lists case.now.book }
    requires meetings { AreMeetings case.now hints.now.meetings.now }
    // In both a leaf that stands for the lists has the value.
    ensures bound { IfOk result (λ r. MatchRelaxed r (IsExact case.now allowed.now.lists) (IsWeak case.now allowed.now.lists)) }
    ensures cause { IfOk result (λ r. IfWeakBound r (λ w.
        MayWeaken limits.now (length case.now.book) (column_count case.now allowed.now.lists) width.old width.new w.cause)) }
    ensures ledger { width.old ≤ width.new }
{
    let layout = Layout::new(alloc, case, allowed)?;
    let climbed = climbed(alloc, case, allowed, hints)?;
    let outcome = solved(
        alloc,
        case,
        allowed,
        &layout,
        hints.meetings,
        &climbed.leaf,
        limits,
        width,
    )?;
    match outcome {
        Outcome::Exact(solved) => {
            let bound = exact_end(alloc, case, allowed, &layout, &solved, climbed, width)?;
            Ok(bound)
        }
        Outcome::Weak(cause) => {
            let bound = weak_bound(case, allowed, climbed, cause);
            Ok(Relaxed::Weak(bound))
        }
    }
}

/// The leaf of an ascent.
pub(crate) fn climbed(
    alloc: Global,
    case: &Case,
    allowed: &Allowed,
    hints: &RelaxHints,
) -> Result<Climbed, AllocError>
    requires fits { FitsBook allowed.now.lists case.now.book }
    requires meetings { AreMeetings case.now hints.now.meetings.now }
    ensures stands { IfOk result (λ c. LeafStands case.now allowed.now.lists c.leaf) }
    ensures worth { IfOk result (λ c. c.worth ≡ answer_of case.now (numbers_of c.leaf)) }
    ensures plain { IfOk result (λ c. IsAtLeastPlain case.now allowed.now.lists c.leaf) }
{
    let iterations = if hints.seed.is_some() {
        SEEDED_STEPS
    } else {
        STEPS
    };
    let hints = Hints {
        meetings: hints.meetings,
        known: hints.known,
        seed: hints.seed,
        iterations,
    };
    climb(alloc, case, allowed, &hints)
}

/// What the engine answers over the columns and rows of the lists.
pub(crate) fn solved(
    alloc: Global,
    case: &Case,
    allowed: &Allowed,
    layout: &Layout,
    meetings: &Meetings,
    leaf: &Leaf,
    limits: &Limits,
    width: &mut Width,
) -> Result<Outcome, AllocError>
    requires layout { IsLayoutOf case.now layout.now }
    requires lists { layout.now.lists ≡ allowed.now.lists }
    requires meetings { AreMeetings case.now meetings.now }
    ensures exact { IfOk result (λ o. IfExact o (IsSolved case.now layout.now)) }
    ensures weak { IfOk result (λ o. IfWeak o (MayCause limits.now (length case.now.book + limits.now.rounds) (length (columns_of layout.now)) width.old width.new)) }
    ensures ledger { width.old ≤ width.new }
{
    let pricing = PatternPricing::new(case, layout);
    let mut source = RowSource::new(alloc, case, allowed, layout, meetings, leaf)?;
    let outcome = Engine::optimise(alloc, &pricing, &mut source, limits, width)?;
    Ok(outcome)
}
