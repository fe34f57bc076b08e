// Calls on the shelf and the sink that fail.
use super::words;
use platform_cli::run;
use shelf::{MemoryShelf, MemorySink};
use std::alloc::{AllocError, Global};
use std::test::Fail;
use tests_stations::{R1, S_PATHS, s};

/// What `solve` prints for S.
const S_REPORT: &str = "Optimal\ncost 1000\nroot 1000/1 exact\nR1 1 w1 e1 10 15\n";

/// A plan of S.
const PLAN: &str = "tpp-plan 1 1\nchoice 0 0\nend\n";

fn memory_shelf(alloc: Global) -> Result<MemoryShelf, AllocError> {
    let mut shelf = MemoryShelf::new(alloc);
    shelf.insert("s", s(alloc, S_PATHS, &[R1])?.as_bytes())?;
    Ok(shelf)
}

/// What a file holds after a run.
#[derive(Clone, Copy, Drop)]
enum Kept {
    NoFile,
    NoBytes,
    Whole,
}

fn is_kept(shelf: &MemoryShelf, name: &str, whole: &[u8], kept: Kept) -> bool {
    match (shelf.bytes(name), kept) {
        (None, Kept::NoFile) => true,
        (Some(bytes), Kept::NoBytes) => bytes.is_empty(),
        (Some(bytes), Kept::Whole) => bytes == whole,
        _ => false,
    }
}

/// The proof that `solve` writes of S.
fn proof_of_s(alloc: Global) -> Result<Vec<u8>, Fail> {
    let mut shelf = memory_shelf(alloc)?;
    let mut sink = MemorySink::new(alloc);
    let words = words(alloc, "solve s --proof q")?;
    run(alloc, &words, &mut shelf, &mut sink);
    let mut proof = Vec::new(alloc);
    match shelf.bytes("q") {
        Some(bytes) => proof.extend_from_slice(bytes)?,
        None => Err("no proof")?,
    }
    Ok(proof)
}

#[test]
fn each_call_fails_in_turn(rt: HostRuntime) -> Result<(), Fail> {
    const NONE: u64 = 99;
    let alloc = rt.alloc();
    // The shelf's failing call, the sink's, the status, what the plan's and the proof's file hold, and the output.
    let rows: [(u64, u64, u8, Kept, Kept, &str); 9] = [
        (NONE, NONE, 0, Kept::Whole, Kept::Whole, S_REPORT),
        (0, NONE, 6, Kept::NoFile, Kept::NoFile, ""),
        (1, NONE, 6, Kept::NoFile, Kept::NoFile, ""),
        (2, NONE, 7, Kept::NoBytes, Kept::NoFile, ""),
        (3, NONE, 7, Kept::Whole, Kept::NoBytes, ""),
        (NONE, 0, 7, Kept::Whole, Kept::Whole, ""),
        (NONE, 1, 7, Kept::Whole, Kept::Whole, "Optimal\n"),
        (NONE, 2, 7, Kept::Whole, Kept::Whole, "Optimal\ncost 1000\n"),
        (
            NONE,
            3,
            7,
            Kept::Whole,
            Kept::Whole,
            "Optimal\ncost 1000\nroot 1000/1 exact\n",
        ),
    ];
    let words = words(alloc, "solve s --plan p --proof q")?;
    let proof = proof_of_s(alloc)?;
    for (call, put, code, plan_kept, proof_kept, output) in rows {
        let mut shelf = memory_shelf(alloc)?;
        shelf.fail(call)?;
        let mut sink = MemorySink::new(alloc);
        sink.fail(put)?;
        assert_eq!(rt; run(alloc, &words, &mut shelf, &mut sink).code, code);
        assert!(rt; is_kept(&shelf, "p", PLAN.as_bytes(), plan_kept));
        assert!(rt; is_kept(&shelf, "q", proof.as_slice(), proof_kept));
        assert_eq!(rt; sink.bytes(), output.as_bytes());
    }
    Ok(())
}

#[test]
fn reads_of_one_byte_change_nothing(rt: HostRuntime) -> Result<(), Fail> {
    let alloc = rt.alloc();
    let mut shelf = memory_shelf(alloc)?;
    shelf.short(1);
    let mut sink = MemorySink::new(alloc);
    let words = words(alloc, "solve s --plan p --proof q")?;
    assert_eq!(rt; run(alloc, &words, &mut shelf, &mut sink).code, 0);
    assert_eq!(rt; sink.bytes(), S_REPORT.as_bytes());
    let proof = proof_of_s(alloc)?;
    assert!(rt; is_kept(&shelf, "p", PLAN.as_bytes(), Kept::Whole));
    assert!(rt; is_kept(&shelf, "q", proof.as_slice(), Kept::Whole));
    Ok(())
}

fn empty_lines(alloc: Global, count: usize) -> Result<Vec<u8>, AllocError> {
    vec![in alloc; b'\n'; count]
}

// Two calls read the station, and a third the first piece of the proof, whose first record is refused. The fourth would fail.
#[test]
fn reads_a_refused_proof_no_further(rt: HostRuntime) -> Result<(), Fail> {
    let alloc = rt.alloc();
    let mut shelf = memory_shelf(alloc)?;
    shelf.insert("q", &empty_lines(alloc, 65_537)?)?;
    shelf.fail(3)?;
    let mut sink = MemorySink::new(alloc);
    let words = words(alloc, "check s q")?;
    assert_eq!(rt; run(alloc, &words, &mut shelf, &mut sink).code, 5);
    assert_eq!(rt; sink.bytes(), b"Proof refused 1 Shape at 1\n".as_slice());
    Ok(())
}
