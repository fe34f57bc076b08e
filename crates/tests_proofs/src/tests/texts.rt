use leaf_bounds::{NumberValue, TrainValue, UseOf};
use proof_file::{HeadRecord, ProofReader, ProofRecord, ReaderFault, TableHead};
use std::alloc::Global;
use std::test::Fail;

/// A table that one leaf uses.
const SHARED: &[u8] =
    b"tpp-proof 2 2\ntable 0 0 1\nta 0 10\nleaf 1\nu 0 10\nuse 0 1\nclose\nend 10\n";

/// The pieces of the tests are short.
fn feed(
    reader: &mut ProofReader,
    piece: &[u8],
    into: &mut Vec<ProofRecord>,
) -> Result<(), ReaderFault> {
    if reader.fed() > 1000 || piece.len() > 1000 {
        return Err(ReaderFault::Memory);
    }
    reader.feed(piece, into)
}

/// What a text is read as, fed in two pieces.
fn read_in_two(alloc: Global, text: &[u8], cut: usize) -> Result<Vec<ProofRecord>, ReaderFault> {
    let (front, rest) = text.split_at(cut.min(text.len()));
    let mut reader = ProofReader::new(alloc);
    let mut records = Vec::new(alloc);
    feed(&mut reader, front, &mut records)?;
    feed(&mut reader, rest, &mut records)?;
    reader.finish()?;
    Ok(records)
}

/// What a text is read as, fed byte by byte.
fn read_bytes(alloc: Global, text: &[u8]) -> Result<Vec<ProofRecord>, ReaderFault> {
    let mut reader = ProofReader::new(alloc);
    let mut records = Vec::new(alloc);
    for byte in text {
        feed(&mut reader, &[*byte], &mut records)?;
    }
    reader.finish()?;
    Ok(records)
}

/// Whether each cut of the text gives these records, and so its single bytes.
fn reads_as(alloc: Global, text: &[u8], records: &[ProofRecord]) -> Result<bool, ReaderFault> {
    for cut in 0..text.len() {
        if read_in_two(alloc, text, cut)?.as_slice() != records {
            return Ok(false);
        }
    }
    Ok(read_bytes(alloc, text)?.as_slice() == records)
}

#[test]
fn reads_a_table_at_every_cut(rt: HostRuntime) -> Result<(), Fail> {
    let records = [
        ProofRecord::Head(HeadRecord {
            version: 2,
            trains: 2,
        }),
        ProofRecord::Table(TableHead {
            table: 0,
            first: 0,
            second: 1,
        }),
        ProofRecord::Ta(NumberValue {
            number: 0,
            value: 10,
        }),
        ProofRecord::Leaf(1),
        ProofRecord::U(TrainValue {
            train: 0,
            value: 10,
        }),
        ProofRecord::Use(UseOf {
            table: 0,
            factor: 1,
        }),
        ProofRecord::Close,
        ProofRecord::End(10),
    ];
    assert!(rt; reads_as(rt.alloc(), SHARED, &records)?);
    Ok(())
}
