ghost use Rattle.std.specs.Prelude.{◌≡◌, IfOk, string_bytes};
ghost use Rattle.station_reader.specs.PlaceText.{spot_text};

use crate::member::Member;
use std::alloc::{AllocError, Global};
use std::marker::Model;

/// A place in the tree of a station's text: members by name and entries of lists by number.
#[derive(Clone, Copy, PartialEq, Eq, Debug, Drop)]
pub enum Spot {
    /// The whole text.
    Top,
    /// A member of the station.
    Of(Member),
    /// An entry of one of its lists.
    Entry(Member, usize),
    /// A part of an entry that is a list.
    Part(Member, usize, usize),
    /// A member of an entry.
    Field(Member, usize, Member),
    /// An entry of a list of an entry.
    Item(Member, usize, Member, usize),
    /// A part of such an entry.
    ItemPart(Member, usize, Member, usize, usize),
}

/// A place, seen as the bytes of its text.
#[derive(Drop)]
pub struct Place {
    text: String,
}

impl Model for Place {
    ghost use Rattle.std.specs.Prelude.{List, ℕ, string_bytes};

    ghost Value = { List ℕ };

    ghost view = { λ p. string_bytes p.text };
}

impl Place {
    /// The bytes of its text, as `/trains/0/name`.
    pub fn bytes(&self) -> &[u8]
        ensures { result.now ≡ self.now }
    {
        self.text.as_bytes()
    }

    pub(crate) fn of(alloc: Global, spot: Spot) -> Result<Place, AllocError>
        ensures { IfOk result (λ p. p ≡ spot_text spot) }
    {
        let text = spot_string(alloc, spot)?;
        Ok(Place { text })
    }
}

fn spot_string(alloc: Global, spot: Spot) -> Result<String, AllocError>
    ensures { IfOk result (λ s. string_bytes s ≡ spot_text spot) }
{
    match spot {
        Spot::Top => String::from_str(alloc, "/"),
        Spot::Of(member) => {
            let m = member.text();
            format!(in alloc; "/{m}")
        }
        Spot::Entry(member, i) => entry_string(alloc, member, i),
        Spot::Part(member, i, j) => {
            let entry = entry_string(alloc, member, i)?;
            format!(in alloc; "{entry}/{j}")
        }
        Spot::Field(member, i, field) => field_string(alloc, member, i, field),
        Spot::Item(member, i, field, j) => item_string(alloc, member, i, field, j),
        Spot::ItemPart(member, i, field, j, k) => {
            let item = item_string(alloc, member, i, field, j)?;
            format!(in alloc; "{item}/{k}")
        }
    }
}

fn entry_string(alloc: Global, member: Member, i: usize) -> Result<String, AllocError>
    ensures { IfOk result (λ s. string_bytes s ≡ spot_text (Spot.Entry member i)) }
{
    let m = member.text();
    format!(in alloc; "/{m}/{i}")
}

fn field_string(
    alloc: Global,
    member: Member,
    i: usize,
    field: Member,
) -> Result<String, AllocError>
    ensures { IfOk result (λ s. string_bytes s ≡ spot_text (Spot.Field member i field)) }
{
    let entry = entry_string(alloc, member, i)?;
    let f = field.text();
    format!(in alloc; "{entry}/{f}")
}

fn item_string(
    alloc: Global,
    member: Member,
    i: usize,
    field: Member,
    j: usize,
) -> Result<String, AllocError>
    ensures { IfOk result (λ s. string_bytes s ≡ spot_text (Spot.Item member i field j)) }
{
    let above = field_string(alloc, member, i, field)?;
    format!(in alloc; "{above}/{j}")
}
