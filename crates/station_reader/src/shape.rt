// The form of the text: the members of its objects and their kinds.
ghost use Rattle.std.specs.Prelude.{◌≡◌, map, option_map};
ghost use Rattle.serde_json.specs.View.{view};
ghost use Rattle.station_reader.specs.MemberText.{member_text};
ghost use Rattle.station_reader.specs.First.{occurs, unless};
ghost use Rattle.station_reader.specs.Shape.{edition_of, edition, platform_members, path_members, train_members, station_members, kind_of, is_integer, has_kind, are_two_texts, is_charge, is_entry_of, item_shape, member_shape, members_shape, has_only, object_shape, integer_shape, list_shape, buffer_price_shape, direction_shape, pair_shape, shape};

use crate::form::{Edition, Kind};
use crate::member::Member;
use crate::place::Spot;
use crate::tree::{entries, entries_at, integer_at, member, text_at, whole};
use crate::walk::{EntryTest, first_fault};
use serde_json::Value;

/// The version of the format that the text says it has, if it is one that is read.
pub(crate) fn edition(tree: &Value) -> Option<Edition>
    ensures { result ≡ edition (view tree.now) }
{
    if text_at(Member::Format, tree) != "tpp-station" {
        return None;
    }
    edition_of(integer_at(Member::Version, tree))
}

fn edition_of(version: i128) -> Option<Edition>
    ensures { result ≡ edition_of version }
{
    match version {
        1 => Some(Edition::One),
        2 => Some(Edition::Two),
        _ => None,
    }
}

/// The first place at which the tree isn't of the form.
#[tactic(auto, unfolding(crate::specs::Shape::shape))]
pub(crate) fn shape(edition: Edition, tree: &Value) -> Option<Spot>
    ensures { result ≡ shape edition (view tree.now) }
{
    integer_shape(Member::Threshold, tree)
        .or_else(|| integer_shape(Member::ConflictPrice, tree))
        .or_else(|| buffer_price_shape(edition, tree))
        .or_else(|| list_shape(Member::Directions, &DirectionShape, tree))
        .or_else(|| objects_shape(edition, platform_members(edition), Member::Platforms, tree))
        .or_else(|| objects_shape(edition, path_members(), Member::Paths, tree))
        .or_else(|| list_shape(Member::Incompatible, &PairShape, tree))
        .or_else(|| objects_shape(edition, train_members(), Member::Trains, tree))
        .or_else(|| station_shape(edition, tree))
}

fn platform_members(edition: Edition) -> &'static [Member]
    ensures { result.now ≡ platform_members edition }
{
    match edition {
        Edition::One => &[Member::Name, Member::Dummy, Member::Price, Member::Headway],
        Edition::Two => {
            &[
                Member::Name,
                Member::Dummy,
                Member::Price,
                Member::Headway,
                Member::Buffer,
            ]
        }
    }
}

fn path_members() -> &'static [Member]
    ensures { result.now ≡ path_members }
{
    &[
        Member::Name,
        Member::Direction,
        Member::Platform,
        Member::Way,
        Member::Minutes,
        Member::Price,
    ]
}

fn train_members() -> &'static [Member]
    ensures { result.now ≡ train_members }
{
    &[
        Member::Name,
        Member::From,
        Member::To,
        Member::Arrive,
        Member::Depart,
        Member::Dwell,
        Member::ArriveEarly,
        Member::ArriveLate,
        Member::DepartEarly,
        Member::DepartLate,
        Member::Platforms,
        Member::Prefer,
        Member::OffPrice,
        Member::ShiftPrice,
        Member::Surcharges,
    ]
}

fn station_members(edition: Edition) -> &'static [Member]
    ensures { result.now ≡ station_members edition }
{
    match edition {
        Edition::One => &[
            Member::Format,
            Member::Version,
            Member::Threshold,
            Member::ConflictPrice,
            Member::Directions,
            Member::Platforms,
            Member::Paths,
            Member::Incompatible,
            Member::Trains,
        ],
        Edition::Two => &[
            Member::Format,
            Member::Version,
            Member::Threshold,
            Member::ConflictPrice,
            Member::BufferPrice,
            Member::Directions,
            Member::Platforms,
            Member::Paths,
            Member::Incompatible,
            Member::Trains,
        ],
    }
}

/// The kind of a member of a platform, path or train.
fn kind_of(edition: Edition, member: Member) -> Kind
    ensures { result ≡ kind_of edition member }
{
    match member {
        Member::Name | Member::Direction | Member::Platform | Member::Way => Kind::Text,
        Member::Dummy => Kind::Truth,
        Member::From | Member::To => match edition {
            Edition::One => Kind::Text,
            Edition::Two => Kind::TextOrNull,
        },
        Member::Platforms | Member::Prefer => Kind::Texts,
        Member::Surcharges => Kind::Charges,
        _ => Kind::Integer,
    }
}

fn integer_shape(name: Member, tree: &Value) -> Option<Spot>
    ensures { result ≡ integer_shape name (view tree.now) }
{
    match member(name, tree) {
        Some(value) if is_integer(value) => None,
        _ => Some(Spot::Of(name)),
    }
}

fn buffer_price_shape(edition: Edition, tree: &Value) -> Option<Spot>
    ensures { result ≡ buffer_price_shape edition (view tree.now) }
{
    match edition {
        Edition::One => None,
        Edition::Two => integer_shape(Member::BufferPrice, tree),
    }
}

fn list_shape<T: EntryTest>(name: Member, test: &T, tree: &Value) -> Option<Spot>
    ensures { result ≡ list_shape name (T.fault test.now) (view tree.now) }
{
    match member(name, tree) {
        Some(list) if list.is_array() => first_fault(test, entries(list)),
        _ => Some(Spot::Of(name)),
    }
}

fn objects_shape(edition: Edition, members: &[Member], list: Member, tree: &Value) -> Option<Spot>
    ensures { result ≡ list_shape list (object_shape edition members.now list) (view tree.now) }
{
    let test = ObjectShape {
        edition,
        members,
        list,
    };
    list_shape(list, &test, tree)
}

fn station_shape(edition: Edition, tree: &Value) -> Option<Spot>
    ensures { result ≡ unless (has_only (station_members edition) (view tree.now)) Spot.Top }
{
    if has_only(station_members(edition), tree) {
        None
    } else {
        Some(Spot::Top)
    }
}

struct DirectionShape;

impl EntryTest for DirectionShape {
    ghost fault = { λ _. direction_shape };

    fn fault(&self, number: usize, entry: &Value) -> Option<Spot> {
        if entry.is_string() {
            None
        } else {
            Some(Spot::Entry(Member::Directions, number))
        }
    }
}

struct PairShape;

impl EntryTest for PairShape {
    ghost fault = { λ _. pair_shape };

    fn fault(&self, number: usize, entry: &Value) -> Option<Spot> {
        if are_two_texts(entries(entry)) {
            None
        } else {
            Some(Spot::Entry(Member::Incompatible, number))
        }
    }
}

fn are_two_texts(entries: &[Value]) -> bool
    ensures { result ≡ are_two_texts (map view entries.now) }
{
    match entries {
        [first, second] => first.is_string() && second.is_string(),
        _ => false,
    }
}

/// A text and an integer.
fn is_charge(entries: &[Value]) -> bool
    ensures { result ≡ is_charge (map view entries.now) }
{
    match entries {
        [platform, price] => platform.is_string() && is_integer(price),
        _ => false,
    }
}

fn is_integer(value: &Value) -> bool
    ensures { result ≡ is_integer (view value.now) }
{
    whole(value).is_some()
}

#[derive(Drop)]
struct ObjectShape<'m> {
    edition: Edition,
    members: &'m [Member],
    list: Member,
}

impl EntryTest for ObjectShape<'_> {
    ghost fault = { λ t. object_shape t.edition t.members.now t.list };

    fn fault(&self, number: usize, entry: &Value) -> Option<Spot> {
        if !entry.is_object() {
            return Some(Spot::Entry(self.list, number));
        }
        if let Some(spot) = members_shape(self.edition, self.list, number, entry, self.members) {
            return Some(spot);
        }
        if has_only(self.members, entry) {
            None
        } else {
            Some(Spot::Entry(self.list, number))
        }
    }
}

fn members_shape(
    edition: Edition,
    list: Member,
    number: usize,
    entry: &Value,
    members: &[Member],
) -> Option<Spot>
    ensures { result ≡ members_shape edition list number (view entry.now) members.now }
{
    for name in members {
        let value = member(*name, entry);
        if let Some(spot) = member_shape(list, number, *name, kind_of(edition, *name), value) {
            return Some(spot);
        }
    }
    None
}

fn member_shape(
    list: Member,
    number: usize,
    name: Member,
    kind: Kind,
    value: Option<&Value>,
) -> Option<Spot>
    ensures { result ≡ member_shape list number name kind (option_map (λ v. view v.now) value.entry) }
{
    match value {
        Some(value) if has_kind(kind, value) => {
            let test = ItemShape {
                list,
                number,
                name,
                kind,
            };
            first_fault(&test, entries(value))
        }
        _ => Some(Spot::Field(list, number, name)),
    }
}

fn has_kind(kind: Kind, value: &Value) -> bool
    ensures { result ≡ has_kind kind (view value.now) }
{
    match kind {
        Kind::Text => value.is_string(),
        Kind::TextOrNull => value.is_string() || value.is_null(),
        Kind::Truth => value.is_boolean(),
        Kind::Integer => is_integer(value),
        Kind::Texts | Kind::Charges => value.is_array(),
    }
}

fn is_entry_of(kind: Kind, entry: &Value) -> bool
    ensures { result ≡ is_entry_of kind (view entry.now) }
{
    match kind {
        Kind::Texts => entry.is_string(),
        Kind::Charges => is_charge(entries(entry)),
        _ => true,
    }
}

#[derive(Drop)]
struct ItemShape {
    list: Member,
    number: usize,
    name: Member,
    kind: Kind,
}

impl EntryTest for ItemShape {
    ghost fault = { λ t. item_shape t.list t.number t.name t.kind };

    fn fault(&self, number: usize, entry: &Value) -> Option<Spot> {
        if is_entry_of(self.kind, entry) {
            None
        } else {
            Some(Spot::Item(self.list, self.number, self.name, number))
        }
    }
}

/// Whether the value has no member beside these.
fn has_only(members: &[Member], value: &Value) -> bool
    ensures { result ≡ has_only members.now (view value.now) }
{
    let Some(object) = value.as_object() else {
        return true;
    };
    for key in object.keys() {
        if !is_listed(key.as_str(), members) {
            return false;
        }
    }
    true
}

fn is_listed(name: &str, members: &[Member]) -> bool
    ensures { result ≡ occurs name.now (map member_text members.now) }
{
    members.iter().any(|member| name == member.text())
}
