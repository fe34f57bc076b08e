// The pairs of each train.
ghost use Rattle.pair_classes.specs.Meetings.{is_with, places_with};
ghost use Rattle.std.specs.Prelude.{◌≡◌, ℕ, ◌<◌, ◌^◌, ◌++◌, [], ◌∷◌, if◌then◌else◌, length, slice_index_or, IfOk, OnOk, Some};

use crate::meeting::Meeting;
use sequence::Sequence;
use std::alloc::{AllocError, Global};

/// For each of so many trains the places of its pairs, ascending.
pub(crate) fn by_train(
    alloc: Global,
    pairs: &[Meeting],
    trains: usize,
) -> Result<Vec<Sequence<u16>>, AllocError>
    requires { length pairs.now < 2 ^ 16 }
    ensures count { IfOk result (λ v. length v.items ≡ trains) }
    ensures each { IfOk result (λ v. (t : ℕ) → t < trains → slice_index_or v.items t [] ≡ places_with pairs.now t) }
{
    let mut lists = Vec::new(alloc);
    for train in 0..trains {
        lists.push(places_of(alloc, pairs, train)?)?;
    }
    Ok(lists)
}

fn places_of(alloc: Global, pairs: &[Meeting], train: usize) -> Result<Sequence<u16>, AllocError>
    requires { length pairs.now < 2 ^ 16 }
    ensures { IfOk result (λ s. s ≡ places_with pairs.now train) }
{
    let mut places = Vec::new(alloc);
    for place in 0..pairs.len() {
        push_if(has_train(&pairs[place], train), place as u16, &mut places)?;
    }
    Ok(Sequence::from_vec(places))
}

fn has_train(pair: &Meeting, train: usize) -> bool
    ensures { result ≡ is_with train (Some pair.now) }
{
    pair.first == train || pair.second == train
}

fn push_if(keep: bool, place: u16, places: &mut Vec<u16>) -> Result<(), AllocError>
    ensures { OnOk result (places.new.items ≡ places.old.items ++ (if keep then place ∷ [] else [])) }
{
    if keep {
        places.push(place)?;
    }
    Ok(())
}
