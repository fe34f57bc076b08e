use pair_classes::Meetings;
use pair_prices::Case;
use patterns::Allowed;
use plan_cost::Plan;
use primal_heuristic::{greedy, improve, plan_in};
use std::alloc::{AllocError, Global};
use std::test::Fail;
use tests_stations::{F, R1, S_PATHS, case_of, plain_station, r2, s};

fn numbers(plan: &Plan) -> (u16, u16) {
    let numbers = plan.choice.as_slice();
    (
        numbers.first().copied().unwrap_or(9),
        numbers.last().copied().unwrap_or(9),
    )
}

/// The numbers of the greedy plan of a station, and of a plan that isn't dearer.
fn greedy_and_better(
    alloc: Global,
    case: &Case,
) -> Result<Option<((u16, u16), (u16, u16))>, AllocError> {
    let Some(first) = greedy(alloc, case)? else {
        return Ok(None);
    };
    let greedy = numbers(&first);
    let better = improve(alloc, case, first)?;
    Ok(Some((greedy, numbers(&better))))
}

// The two can't both use `1`. With one on `D` that is paid for another on it costs less.
#[test]
fn finds_plans(rt: HostRuntime) -> Result<(), Fail> {
    let alloc = rt.alloc();
    let case = case_of(alloc, &s(alloc, S_PATHS, &[R1, r2(16, 21, 0)])?)?;
    let found = greedy_and_better(alloc, &case)?;
    assert!(rt; found == Some(((0, 1), (1, 1))));
    Ok(())
}

#[test]
fn finds_a_plan_in_lists(rt: HostRuntime) -> Result<(), Fail> {
    let alloc = rt.alloc();
    let case = case_of(alloc, &s(alloc, S_PATHS, &[R1, r2(16, 21, 0)])?)?;
    let meetings = Meetings::new(alloc, &case)?;
    let allowed = Allowed::all(alloc, case.book())?;
    match plan_in(alloc, &case, &meetings, &allowed, 10)? {
        Some(found) => assert!(rt; numbers(&found) == (1, 1)),
        None => Err("no plan found")?,
    }
    Ok(())
}

// The second train of F keeps to the other letter. The third clashes with one of them on either, and takes the first.
#[test]
fn takes_the_first_of_equals(rt: HostRuntime) -> Result<(), Fail> {
    let alloc = rt.alloc();
    let case = case_of(alloc, &plain_station(alloc, &F)?)?;
    let Some(plan) = greedy(alloc, &case)? else {
        return Err(Fail::from("no plan"));
    };
    assert_eq!(rt; plan.choice.as_slice(), [0, 1, 0].as_slice());
    Ok(())
}
