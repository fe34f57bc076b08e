use crate::field::Field;
use sequence::Sequence;
use std::alloc::{AllocError, Global};

/// The parts that a train's choices are counted in.
const PARTS: u64 = 65_536;

/// For each train the parts of its choices that went to each number of its list.
pub(crate) fn support_of(
    alloc: Global,
    field: &Field,
    average: &[u32],
) -> Result<Sequence<Sequence<u32>>, AllocError> {
    let mut support = Vec::with_capacity(alloc, field.trains)?;
    for train in 0..field.trains {
        support.push(parts_of(alloc, average_of(field, average, train))?)?;
    }
    Ok(Sequence::from_vec(support))
}

/// The averages of the train's listed patterns.
pub(crate) fn average_of<'a>(field: &Field, average: &'a [u32], train: usize) -> &'a [u32] {
    let from = field.start_of(train);
    let to = field.start_of(train.saturating_add(1));
    if from <= to && to <= average.len() {
        &average[from..to]
    } else {
        &[]
    }
}

fn parts_of(alloc: Global, counts: &[u32]) -> Result<Sequence<u32>, AllocError> {
    let mut total: u64 = 0;
    for count in counts {
        total = total.saturating_add(*count as u64);
    }
    let mut parts = Vec::with_capacity(alloc, counts.len())?;
    for count in counts {
        let part = (*count as u64).saturating_mul(PARTS) / total.max(1);
        parts.push(u32::try_from(part).unwrap_or(0))?;
    }
    Ok(Sequence::from_vec(parts))
}
