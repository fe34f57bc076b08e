// The trains of a station.
ghost use Rattle.std.specs.Prelude.{◌≡◌, ◌≤◌, IfOk, map, option_map, length};
ghost use Rattle.serde_json.specs.View.{view};
ghost use Rattle.station_reader.specs.Tree.{entries_at, texts, natural};
ghost use Rattle.station_reader.specs.Classes.{direction_names, names, charged_price};
ghost use Rattle.station_reader.specs.Reading.{number_of, numbers_from, charge_of, surcharges_from, train_record};
ghost use Rattle.station_reader.specs.Passes.{Each, AreFew, ChargePasses, TrainPasses};

use crate::convert::{name_at, natural, natural_at, number_of};
use crate::form::Naming;
use crate::member::Member;
use crate::names::{name_in, occurs};
use crate::range::charged_price;
use crate::tree::{entries_at, integer_at, text_at, text_if};
use sequence::Sequence;
use serde_json::Value;
use station::{Surcharge, Train};
use std::alloc::{AllocError, Global};

pub(crate) fn trains(alloc: Global, tree: &Value) -> Result<Sequence<Train>, AllocError>
    requires few { AreFew (view tree.now) }
    requires passes { Each (TrainPasses (view tree.now)) (entries_at Member.Trains (view tree.now)) }
    ensures { IfOk result (λ s. s ≡ map (train_record (view tree.now)) (entries_at Member.Trains (view tree.now))) }
{
    trains_of(alloc, tree, entries_at(Member::Trains, tree))
}

fn trains_of(alloc: Global, tree: &Value, entries: &[Value]) -> Result<Sequence<Train>, AllocError>
    requires few { AreFew (view tree.now) }
    requires passes { Each (TrainPasses (view tree.now)) (map view entries.now) }
    ensures { IfOk result (λ s. s ≡ map (train_record (view tree.now)) (map view entries.now)) }
{
    let mut found = Vec::new(alloc);
    for entry in entries {
        found.push(train(alloc, tree, entry)?)?;
    }
    Ok(Sequence::from_vec(found))
}

#[tactic(auto, unfolding(crate::specs::Reading::train_record))]
fn train(alloc: Global, tree: &Value, entry: &Value) -> Result<Train, AllocError>
    requires few { AreFew (view tree.now) }
    requires passes { TrainPasses (view tree.now) (view entry.now) }
    ensures { IfOk result (λ t. t ≡ train_record (view tree.now) (view entry.now)) }
{
    let platforms = entries_at(Member::Platforms, tree);
    let name = name_at(alloc, entry)?;
    let may_use = numbers_in(alloc, platforms, entries_at(Member::Platforms, entry))?;
    let prefer = numbers_in(alloc, platforms, entries_at(Member::Prefer, entry))?;
    let surcharges = surcharges(alloc, platforms, entries_at(Member::Surcharges, entry))?;
    Ok(Train {
        name,
        from: end(tree, text_if(Member::From, entry)),
        to: end(tree, text_if(Member::To, entry)),
        arrive: integer_at(Member::Arrive, entry) as i32,
        depart: integer_at(Member::Depart, entry) as i32,
        dwell: natural_at(Member::Dwell, entry),
        arrive_early: natural_at(Member::ArriveEarly, entry),
        arrive_late: natural_at(Member::ArriveLate, entry),
        depart_early: natural_at(Member::DepartEarly, entry),
        depart_late: natural_at(Member::DepartLate, entry),
        platforms: may_use,
        prefer,
        off_price: natural_at(Member::OffPrice, entry),
        shift_price: natural_at(Member::ShiftPrice, entry),
        surcharges,
    })
}

/// The number of a train's direction, where it has one.
fn end(tree: &Value, name: Option<&str>) -> Option<u8>
    requires { AreFew (view tree.now) }
    ensures { result ≡ option_map (number_of (direction_names (view tree.now))) (option_map (λ s. s.now) name.entry) }
{
    match name {
        Some(name) => Some(direction_number(tree, name)),
        None => None,
    }
}

fn direction_number(tree: &Value, name: &str) -> u8
    requires { AreFew (view tree.now) }
    ensures { result ≡ number_of (direction_names (view tree.now)) name.now }
{
    number_of(Naming::Text, entries_at(Member::Directions, tree), name) as u8
}

/// The numbers of the platforms that are listed, ascending.
fn numbers_in(
    alloc: Global,
    platforms: &[Value],
    listed: &[Value],
) -> Result<Sequence<u8>, AllocError>
    requires { length platforms.now ≤ 64 }
    ensures { IfOk result (λ s. s ≡ numbers_from 0 (names (map view platforms.now)) (texts (map view listed.now))) }
{
    let mut found = Vec::new(alloc);
    for (number, platform) in platforms.iter().enumerate() {
        if occurs(text_at(Member::Name, platform), Naming::Text, listed) {
            found.push(number as u8)?;
        }
    }
    Ok(Sequence::from_vec(found))
}

/// The surcharges by platform, ascending.
fn surcharges(
    alloc: Global,
    platforms: &[Value],
    charges: &[Value],
) -> Result<Sequence<Surcharge>, AllocError>
    requires few { length platforms.now ≤ 64 }
    requires passes { Each ChargePasses (map view charges.now) }
    ensures { IfOk result (λ s. s ≡ surcharges_from 0 (names (map view platforms.now)) (map view charges.now)) }
{
    let mut found = Vec::new(alloc);
    for (number, platform) in platforms.iter().enumerate() {
        if let Some(price) = charge_of(text_at(Member::Name, platform), charges) {
            found.push(Surcharge {
                platform: number as u8,
                price,
            })?;
        }
    }
    Ok(Sequence::from_vec(found))
}

/// What the first charge of this name asks.
fn charge_of(name: &str, charges: &[Value]) -> Option<u32>
    requires { Each ChargePasses (map view charges.now) }
    ensures { result ≡ charge_of name.now (map view charges.now) }
{
    for charge in charges {
        if name == name_in(Naming::Charge, charge) {
            return Some(price_of(charge));
        }
    }
    None
}

fn price_of(charge: &Value) -> u32
    requires { ChargePasses (view charge.now) }
    ensures { result ≡ natural (charged_price (view charge.now)) }
{
    natural(Member::Surcharges, charged_price(charge))
}
