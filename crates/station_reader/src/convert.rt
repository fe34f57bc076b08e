// Parts of a station, made from entries that passed the classes.
ghost use Rattle.std.specs.Prelude.{◌≡◌, IfOk, IsTrue, map};
ghost use Rattle.serde_json.specs.View.{view};
ghost use Rattle.station.specs.Named.{is_name};
ghost use Rattle.station_reader.specs.Naming.{named};
ghost use Rattle.station_reader.specs.Tree.{text, texts, natural, natural_at as natural_of_member, integer_at};
ghost use Rattle.station_reader.specs.Classes.{within};
ghost use Rattle.station_reader.specs.Reading.{number_of, platform_record};
ghost use Rattle.station_reader.specs.Passes.{Each, PlatformPasses};

use crate::form::Naming;
use crate::member::Member;
use crate::names::name_in;
use crate::tree::{integer_at, text, text_at, truth_at};
use sequence::Sequence;
use serde_json::Value;
use station::{Name, Platform};
use std::alloc::{AllocError, Global};

pub(crate) fn natural_at(member: Member, entry: &Value) -> u32
    requires { IsTrue (within member (integer_at member (view entry.now))) }
    ensures { result ≡ natural_of_member member (view entry.now) }
{
    natural(member, integer_at(member, entry))
}

/// The number, which is within its member's limits.
pub(crate) fn natural(member: Member, number: i128) -> u32
    requires { IsTrue (within member number) }
    ensures { result ≡ natural number }
{
    number as u32
}

/// The number of the first entry of this name, or 0.
pub(crate) fn number_of(naming: Naming, entries: &[Value], name: &str) -> usize
    ensures { result ≡ number_of (map (named naming) (map view entries.now)) name.now }
{
    entries
        .iter()
        .position(|entry| name == name_in(naming, entry))
        .unwrap_or(0)
}

pub(crate) fn name_at(alloc: Global, entry: &Value) -> Result<Name, AllocError>
    requires { IsTrue (is_name (named Naming.Name (view entry.now))) }
    ensures { IfOk result (λ n. n ≡ named Naming.Name (view entry.now)) }
{
    Name::new(alloc, text_at(Member::Name, entry).as_bytes())
}

pub(crate) fn directions(alloc: Global, entries: &[Value]) -> Result<Sequence<Name>, AllocError>
    requires { Each (λ d. IsTrue (is_name (text d))) (map view entries.now) }
    ensures { IfOk result (λ s. s ≡ texts (map view entries.now)) }
{
    let mut found = Vec::new(alloc);
    for entry in entries {
        found.push(Name::new(alloc, text(entry).as_bytes())?)?;
    }
    Ok(Sequence::from_vec(found))
}

pub(crate) fn platforms(alloc: Global, entries: &[Value]) -> Result<Sequence<Platform>, AllocError>
    requires { Each PlatformPasses (map view entries.now) }
    ensures { IfOk result (λ s. s ≡ map platform_record (map view entries.now)) }
{
    let mut found = Vec::new(alloc);
    for entry in entries {
        found.push(platform(alloc, entry)?)?;
    }
    Ok(Sequence::from_vec(found))
}

#[tactic(auto, unfolding(crate::specs::Reading::platform_record))]
fn platform(alloc: Global, entry: &Value) -> Result<Platform, AllocError>
    requires { PlatformPasses (view entry.now) }
    ensures { IfOk result (λ p. p ≡ platform_record (view entry.now)) }
{
    Ok(Platform {
        name: name_at(alloc, entry)?,
        dummy: truth_at(Member::Dummy, entry),
        price: natural_at(Member::Price, entry),
        headway: natural_at(Member::Headway, entry),
        buffer: natural_at(Member::Buffer, entry),
    })
}
