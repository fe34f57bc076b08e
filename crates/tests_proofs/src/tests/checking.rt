use leaf_bounds::Bound;
use pair_prices::Case;
use proof_check::{CheckFault, Checker, ProofKind, ProofRefused, check_proof};
use std::alloc::Global;
use std::test::Fail;
use tests_stations::{R1, S_PATHS, case_of, s};

const fn refused(kind: ProofKind, at: u64) -> Result<Bound, CheckFault> {
    Err(CheckFault::Refused(ProofRefused { kind, at }))
}

/// What a text comes to that is fed in two pieces.
fn check_in_two(alloc: Global, case: &Case, text: &[u8], cut: usize) -> Result<Bound, CheckFault> {
    let (front, rest) = text.split_at(cut.min(text.len()));
    let mut checker = Checker::new(alloc, case)?;
    checker.feed(front)?;
    checker.feed(rest)?;
    checker.finish()
}

/// What it comes to byte by byte.
fn check_bytes(alloc: Global, case: &Case, text: &[u8]) -> Result<Bound, CheckFault> {
    let mut checker = Checker::new(alloc, case)?;
    for byte in text {
        checker.feed(&[*byte])?;
    }
    checker.finish()
}

#[test]
fn takes_pieces_of_any_cut(rt: HostRuntime) -> Result<(), Fail> {
    let alloc = rt.alloc();
    let case = case_of(alloc, &s(alloc, S_PATHS, &[R1])?)?;
    let rows: [(&str, Result<Bound, CheckFault>); 2] = [
        ("u 0 1000\n", Ok(Bound::AtLeast(1000))),
        ("u 0 1001\n", refused(ProofKind::Pattern, 6)),
    ];
    for (train, want) in rows {
        let text = format!(in alloc;
            "tpp-proof 1 1\nleaf 1\n{train}v 0 10 1000\nv 1 10 900\nclose\nend 1000\n"
        )?;
        for cut in 0..text.len() {
            assert_eq!(rt; check_in_two(alloc, &case, text.as_bytes(), cut), want);
        }
        assert_eq!(rt; check_bytes(alloc, &case, text.as_bytes()), want);
        assert_eq!(rt; check_proof(alloc, &case, text.as_bytes()), want);
    }
    Ok(())
}

#[test]
fn answers_a_fault_again(rt: HostRuntime) -> Result<(), Fail> {
    let alloc = rt.alloc();
    let case = case_of(alloc, &s(alloc, S_PATHS, &[R1])?)?;
    let mut checker = Checker::new(alloc, &case)?;
    let fault = CheckFault::Refused(ProofRefused {
        kind: ProofKind::Place,
        at: 1,
    });
    assert_eq!(rt; checker.feed(b"close\n"), Err(fault));
    assert_eq!(rt; checker.feed(b"tpp-proof 1 1\n"), Err(fault));
    assert_eq!(rt; checker.finish(), Err(fault));
    Ok(())
}
