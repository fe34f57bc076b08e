use pair_prices::Case;
use plan_cost::{
    Costs, Plan, PlanFault, PlanKind, PlanRefused, Verdict, judge, read_plan, write_plan,
};
use sequence::Sequence;
use std::alloc::{AllocError, Global};
use std::test::Fail;
use tests_stations::{R1, S_PATHS, case_of, s};

fn plan_of(alloc: Global, choice: &[u16]) -> Result<Plan, AllocError> {
    Ok(Plan {
        choice: Sequence::from_vec(Vec::from_slice(alloc, choice)?),
    })
}

/// The verdict, where the plan fits.
fn judged(case: &Case, plan: &Plan) -> Option<Verdict> {
    if plan.fits(case) {
        Some(judge(case, plan))
    } else {
        None
    }
}

fn costs(platforms: i64, patterns: i64, pairs: i64, total: i64) -> Option<Verdict> {
    Some(Verdict::Cost(Costs {
        platforms,
        patterns,
        pairs,
        total,
    }))
}

#[test]
fn judges_a_plan(rt: HostRuntime) -> Result<(), Fail> {
    let alloc = rt.alloc();
    let case = case_of(alloc, &s(alloc, S_PATHS, &[R1])?)?;
    let plan = plan_of(alloc, &[1])?;
    assert_eq!(rt; judged(&case, &plan), costs(100_000, 100, 0, 100_100));
    Ok(())
}

fn refusal(alloc: Global, case: &Case, bytes: &[u8]) -> Option<PlanRefused> {
    match read_plan(alloc, case, bytes) {
        Err(PlanFault::Refused(refused)) => Some(refused),
        _ => None,
    }
}

#[test]
fn refuses_the_first_record(rt: HostRuntime) -> Result<(), Fail> {
    let alloc = rt.alloc();
    let case = case_of(alloc, &s(alloc, S_PATHS, &[R1])?)?;
    let rows: [(&str, PlanKind, u64); 5] = [
        ("tpp-plan 1 1\nchoice 0 2\n", PlanKind::Choice, 2),
        ("tpp-plan 1 1\nend\n", PlanKind::Train, 2),
        ("tpp-plan 1 1\nchoice 0 0\nend\n\n", PlanKind::Trail, 4),
        ("", PlanKind::Short, 1),
        ("tpp-plan 2 1\n", PlanKind::Record, 1),
    ];
    for (text, kind, at) in rows {
        assert_eq!(rt;
            refusal(alloc, &case, text.as_bytes()),
            Some(PlanRefused { kind, at })
        );
    }
    Ok(())
}

/// The text of a plan that fits, and of another nothing.
fn written(alloc: Global, case: &Case, plan: &Plan) -> Result<Vec<u8>, AllocError> {
    if plan.fits(case) {
        write_plan(alloc, plan)
    } else {
        Ok(Vec::new(alloc))
    }
}

#[test]
fn reads_what_is_written(rt: HostRuntime) -> Result<(), Fail> {
    let alloc = rt.alloc();
    let case = case_of(alloc, &s(alloc, S_PATHS, &[R1])?)?;
    let text = written(alloc, &case, &plan_of(alloc, &[0])?)?;
    assert_eq!(rt;
        text.as_slice(),
        b"tpp-plan 1 1\nchoice 0 0\nend\n".as_slice()
    );
    let plan = read_plan(alloc, &case, &text)?;
    assert_eq!(rt; plan.choice.as_slice(), [0].as_slice());
    Ok(())
}
