ghost use Rattle.branching.specs.Lists.{IsKind, IsLong, IsUndecided};
ghost use Rattle.leaf_bounds.specs.Laws.{EachHasMember};
ghost use Rattle.leaf_bounds.specs.Made.{LacksMember};
ghost use Rattle.patterns.specs.Allowed.{list_of};
ghost use Rattle.std.specs.Prelude.{◌≡◌, ◌<◌, ◌≤◌, ℕ, length, MatchBool, MatchOption};

use patterns::Allowed;

/// What is left to decide in lists.
#[derive(Clone, Copy, Drop)]
pub(crate) enum Kind {
    /// Some train has no number.
    Missing,
    /// Each train has one number.
    Fixed,
    /// Some train has several numbers, and each has one.
    Open,
}

pub(crate) fn kind_of(allowed: &Allowed) -> Kind
    ensures { IsKind allowed.now.lists result }
{
    if lacks_member(allowed) {
        return Kind::Missing;
    }
    match long_train(allowed) {
        None => Kind::Fixed,
        Some(_) => Kind::Open,
    }
}

fn lacks_member(allowed: &Allowed) -> bool
    ensures { MatchBool result (LacksMember allowed.now.lists) (EachHasMember allowed.now.lists) }
{
    for train in 0..allowed.lists.len() {
        if count_of(allowed, train) == 0 {
            return true;
        }
    }
    false
}

/// The first train that has several numbers.
pub(crate) fn long_train(allowed: &Allowed) -> Option<usize>
    ensures { MatchOption result ((t : ℕ) → t < length allowed.now.lists → length (list_of allowed.now.lists t) ≤ 1) (IsLong allowed.now.lists) }
{
    for train in 0..allowed.lists.len() {
        if count_of(allowed, train) > 1 {
            return Some(train);
        }
    }
    None
}

/// How many numbers the train may take.
pub(crate) fn count_of(allowed: &Allowed, train: usize) -> usize
    requires { train < length allowed.now.lists }
    ensures { result ≡ length (list_of allowed.now.lists train) }
{
    allowed.lists.as_slice()[train].len()
}
