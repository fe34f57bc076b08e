// Searches whose linear program may not go far.
use branching::Found;
use master_lp::{Limits, WeakCause};
use ratio::Width;
use std::alloc::Global;
use std::test::Fail;
use tests_stations::{F, K, Plain, case_of, plain_station};

/// What a search with 7 splits came to.
#[derive(Clone, Copy, PartialEq, Eq, Debug)]
struct End {
    /// The cost of a plan of least cost; none where no plan is feasible.
    cost: Option<i64>,
    weak: Option<WeakCause>,
}

// None where the splits were spent.
fn searched(alloc: Global, station: &Plain, limits: &Limits) -> Result<Option<End>, Fail> {
    let case = case_of(alloc, &plain_station(alloc, station)?)?;
    let mut width = Width::new();
    let found = branching::solve(alloc, &case, 7, limits, &mut width)?;
    Ok(end_of(&found))
}

fn end_of(found: &Found) -> Option<End> {
    match found {
        Found::Optimal(best) => Some(End {
            cost: Some(best.cost),
            weak: best.root.weak,
        }),
        Found::NoPlan(shown) => Some(End {
            cost: None,
            weak: shown.root.weak,
        }),
        Found::Open(_) => None,
    }
}

fn cost_within(
    alloc: Global,
    station: &Plain,
    limits: &Limits,
) -> Result<Option<Option<i64>>, Fail> {
    match searched(alloc, station, limits)? {
        Some(ended) => Ok(Some(ended.cost)),
        None => Ok(None),
    }
}

fn is_decided(alloc: Global, limits: &Limits) -> Result<bool, Fail> {
    let f = cost_within(alloc, &F, limits)?;
    let k = cost_within(alloc, &K, limits)?;
    Ok(f == Some(Some(10)) && k == Some(None))
}

// Without a pivot the root line is weak, and the splits decide.
#[test]
fn decides_where_the_root_is_weak(rt: HostRuntime) -> Result<(), Fail> {
    let limits = Limits {
        pivots: 0,
        rounds: 2_000,
        cells: 16_777_216,
    };
    let wanted = End {
        cost: Some(10),
        weak: Some(WeakCause::Pivots(0)),
    };
    let ended = searched(rt.alloc(), &F, &limits)?;
    assert!(rt; ended == Some(wanted));
    Ok(())
}

// Wherever the linear program stops, the answer is the same.
#[test]
fn decides_under_all_limits(rt: HostRuntime) -> Result<(), Fail> {
    for step in 0..147_u32 {
        let limits = Limits {
            pivots: step / 21,
            rounds: step / 3 % 7,
            cells: [0, 64, 16_777_216][(step % 3) as usize],
        };
        assert!(rt; is_decided(rt.alloc(), &limits)?);
    }
    Ok(())
}
