ghost use Rattle.branching.specs.Answer.{is_open, split_bound, AnswerIs, IsLeast};
ghost use Rattle.branching.specs.Bounds.{IsAtLeast};
ghost use Rattle.branching.specs.RootLine.{is_no_plan, is_optimal, root_of, rounded_up, shown_bound, AreAboveRoot, IsOpenAboveRoot, IsRoot, IsTopOrMore, ReachesGreedy};
ghost use Rattle.branching.specs.Searching.{IsSearch};
ghost use Rattle.master_lp.specs.Bounds.{MayWeaken, column_count};
ghost use Rattle.pair_classes.specs.Meetings.{AreMeetings};
ghost use Rattle.patterns.specs.Allowed.{full_lists};
ghost use Rattle.std.specs.Prelude.{◌≡◌, ◌≤◌, false, true, length, IfOk, IfSome};

use crate::ending::{decided, stopped};
use crate::found::Found;
use crate::search::{Search, split_leaf, start};
use leaf_bounds::bound_of_tree;
use master_lp::Limits;
use pair_classes::Meetings;
use pair_prices::Case;
use ratio::Width;
use std::alloc::{AllocError, Global};

/// Looks for a plan of least cost. It begins with the greedy plan, made better, and with the bound of a linear program for all plans
/// under the limits. Then it splits a part of least bound, at most `splits` times, while that bound is below the cost of the best
/// known plan or none is known: `docs/PROOFS.md`, "Trees" and "Fractional plans".
///
/// # Errors
/// `AllocError` where the search finds no memory.
pub fn solve(
    alloc: Global,
    case: &Case,
    splits: u64,
    limits: &Limits,
    width: &mut Width,
) -> Result<Found, AllocError>
    ensures answer { IfOk result (AnswerIs case.now splits) }
    // No plan costs less than an optimal one, and where the answer is that there is none, none is feasible.
    ensures least { IfOk result (IsLeast case.now) }
    // So many splits always decide.
    ensures complete { split_bound case.now ≤ splits → IfOk result (λ f. is_open f ≡ false) }
    // The root's value is that of a leaf for all plans; unless it is weak, it is the root value of the case.
    ensures root { IfOk result (λ f. IsRoot case.now (root_of f)) }
    // The tree's bound is `Nothing`, or at least the root's value rounded up.
    ensures above { IfOk result (λ f. IsAtLeast (rounded_up (root_of f).value) (shown_bound f)) }
    // A root's value of TOP or more shows that there is no plan, and one that reaches the greedy plan's cost that a plan is optimal.
    ensures none { IfOk result (λ f. IsTopOrMore case.now (root_of f).value → is_no_plan f ≡ true) }
    ensures reached { IfOk result (λ f. ReachesGreedy case.now (root_of f).value → is_optimal f ≡ true) }
    // The root is weak only for a cause that the limits, the case and the ledger over this call allow.
    ensures cause { IfOk result (λ f. IfSome (root_of f).weak
        (MayWeaken limits.now (length case.now.book) (column_count case.now (full_lists case.now.book)) width.old width.new)) }
    ensures ledger { width.old ≤ width.new }
{
    let meetings = Meetings::new(alloc, case)?;
    let search = start(alloc, case, &meetings, limits, width)?;
    let found = searched(alloc, case, &meetings, splits, search)?;
    let _station = case.station();
    bound_of_tree();
    Ok(found)
}

/// The answer of a search that has made no split yet.
fn searched(
    alloc: Global,
    case: &Case,
    meetings: &Meetings,
    splits: u64,
    mut search: Search,
) -> Result<Found, AllocError>
    requires meetings { AreMeetings case.now meetings.now }
    requires search { IsSearch case.now search.outline search.parts.items search.waiting search.best }
    requires one { length search.parts.items ≡ 1 }
    requires above { AreAboveRoot case.now search.root search.waiting }
    ensures answer { IfOk result (AnswerIs case.now splits) }
    ensures root { IfOk result (λ f. root_of f ≡ search.root) }
    ensures above { IfOk result (IsOpenAboveRoot case.now) }
{
    for _split in 0..splits {
        match search.waiting.next(&search.best) {
            None => return decided(alloc, case, search),
            Some(key) => search = split_leaf(alloc, case, meetings, search, key)?,
        }
    }
    match search.waiting.next(&search.best) {
        None => decided(alloc, case, search),
        Some(key) => stopped(alloc, case, search, key),
    }
}
