use super::*;
use plan_cost::{PlanKind, PlanRefused};
use std::test::Fail;

#[test]
fn reports_refusals(rt: HostRuntime) -> Result<(), Fail> {
    let alloc = rt.alloc();
    let refused = PlanRefused {
        kind: PlanKind::Choice,
        at: 2,
    };
    assert_eq!(rt;
        plan_refused_report(alloc, &refused)?.as_slice(),
        b"Plan refused 3 Choice at 2\n".as_slice()
    );
    assert_eq!(rt;
        window_report(alloc, 8, 8)?.as_slice(),
        b"Window 8 8\n".as_slice()
    );
    Ok(())
}
