// Names that are used and not declared.
ghost use Rattle.std.specs.Prelude.{◌≡◌, option_map};
ghost use Rattle.serde_json.specs.View.{view};
ghost use Rattle.station_reader.specs.First.{each, occurs};
ghost use Rattle.station_reader.specs.Tree.{entries_at};
ghost use Rattle.station_reader.specs.Classes.{direction_names, platform_names, path_names, is_regular, is_regular_named, is_way, path_unknown, direction_unknown, platform_unknown, way_unknown, pair_unknown, part_unknown, item_unknown, charge_unknown, end_unknown, listed_unknown, charges_unknown, train_unknown, unknown};

use crate::form::Naming;
use crate::member::Member;
use crate::name_table::NameTable;
use crate::names::{name_in, occurs};
use crate::place::Spot;
use crate::tree::{entries, entries_at, text, text_at, text_if, truth_at};
use crate::walk::{EntryTest, first_fault};
use serde_json::Value;

/// The place of the first name that is used and not declared, of a path at a dummy platform or of a
/// way that is none. The listed pairs may be many, so the declared paths come in a table.
#[tactic(auto, unfolding(crate::specs::Classes::unknown))]
pub(crate) fn unknown(tree: &Value, paths: &NameTable<'_>) -> Option<Spot>
    requires { paths.now ≡ path_names (view tree.now) }
    ensures { result ≡ unknown (view tree.now) }
{
    if let Some(spot) = first_fault(&PathUnknown { tree }, entries_at(Member::Paths, tree)) {
        return Some(spot);
    }
    if let Some(spot) = pairs_unknown(tree, paths) {
        return Some(spot);
    }
    first_fault(&TrainUnknown { tree }, entries_at(Member::Trains, tree))
}

fn pairs_unknown(tree: &Value, paths: &NameTable<'_>) -> Option<Spot>
    requires { paths.now ≡ path_names (view tree.now) }
    ensures { result ≡ each (pair_unknown (path_names (view tree.now))) (entries_at Member.Incompatible (view tree.now)) }
{
    first_fault(
        &PairUnknown { paths },
        entries_at(Member::Incompatible, tree),
    )
}

fn is_direction(name: &str, tree: &Value) -> bool
    ensures { result ≡ occurs name.now (direction_names (view tree.now)) }
{
    occurs(name, Naming::Text, entries_at(Member::Directions, tree))
}

fn is_platform(name: &str, tree: &Value) -> bool
    ensures { result ≡ occurs name.now (platform_names (view tree.now)) }
{
    occurs(name, Naming::Name, entries_at(Member::Platforms, tree))
}

/// Whether a platform of this name may have paths.
fn is_regular_platform(name: &str, tree: &Value) -> bool
    ensures { result ≡ is_regular name.now (view tree.now) }
{
    let platforms = entries_at(Member::Platforms, tree);
    platforms
        .iter()
        .any(|platform| is_regular_named(name, platform))
}

fn is_regular_named(name: &str, platform: &Value) -> bool
    ensures { result ≡ is_regular_named name.now (view platform.now) }
{
    !truth_at(Member::Dummy, platform) && name == text_at(Member::Name, platform)
}

fn is_way(text: &str) -> bool
    ensures { result ≡ is_way text.now }
{
    text == "in" || text == "out"
}

#[derive(Drop)]
struct PathUnknown<'v> {
    tree: &'v Value,
}

impl EntryTest for PathUnknown<'_> {
    ghost fault = { λ t. path_unknown (view t.tree.now) };

    fn fault(&self, number: usize, entry: &Value) -> Option<Spot> {
        direction_unknown(self.tree, number, entry)
            .or_else(|| platform_unknown(self.tree, number, entry))
            .or_else(|| way_unknown(number, entry))
    }
}

fn direction_unknown(tree: &Value, number: usize, entry: &Value) -> Option<Spot>
    ensures { result ≡ direction_unknown (view tree.now) number (view entry.now) }
{
    if is_direction(text_at(Member::Direction, entry), tree) {
        None
    } else {
        Some(Spot::Field(Member::Paths, number, Member::Direction))
    }
}

fn platform_unknown(tree: &Value, number: usize, entry: &Value) -> Option<Spot>
    ensures { result ≡ platform_unknown (view tree.now) number (view entry.now) }
{
    if is_regular_platform(text_at(Member::Platform, entry), tree) {
        None
    } else {
        Some(Spot::Field(Member::Paths, number, Member::Platform))
    }
}

fn way_unknown(number: usize, entry: &Value) -> Option<Spot>
    ensures { result ≡ way_unknown number (view entry.now) }
{
    if is_way(text_at(Member::Way, entry)) {
        None
    } else {
        Some(Spot::Field(Member::Paths, number, Member::Way))
    }
}

#[derive(Drop)]
struct PairUnknown<'p, 'v> {
    paths: &'p NameTable<'v>,
}

impl EntryTest for PairUnknown<'_, '_> {
    ghost fault = { λ t. pair_unknown t.paths.now };

    fn fault(&self, number: usize, entry: &Value) -> Option<Spot> {
        let test = PartUnknown {
            paths: self.paths,
            pair: number,
        };
        first_fault(&test, entries(entry))
    }
}

#[derive(Drop)]
struct PartUnknown<'p, 'v> {
    paths: &'p NameTable<'v>,
    pair: usize,
}

impl EntryTest for PartUnknown<'_, '_> {
    ghost fault = { λ t. part_unknown t.paths.now t.pair };

    fn fault(&self, number: usize, entry: &Value) -> Option<Spot> {
        if self.paths.has(text(entry)) {
            None
        } else {
            Some(Spot::Part(Member::Incompatible, self.pair, number))
        }
    }
}

#[derive(Drop)]
struct TrainUnknown<'v> {
    tree: &'v Value,
}

impl EntryTest for TrainUnknown<'_> {
    ghost fault = { λ t. train_unknown (view t.tree.now) };

    fn fault(&self, number: usize, entry: &Value) -> Option<Spot> {
        end_unknown(
            self.tree,
            number,
            Member::From,
            text_if(Member::From, entry),
        )
        .or_else(|| end_unknown(self.tree, number, Member::To, text_if(Member::To, entry)))
        .or_else(|| listed_unknown(self.tree, number, Member::Platforms, entry))
        .or_else(|| listed_unknown(self.tree, number, Member::Prefer, entry))
        .or_else(|| charges_unknown(self.tree, number, entry))
    }
}

fn end_unknown(tree: &Value, train: usize, member: Member, name: Option<&str>) -> Option<Spot>
    ensures { result ≡ end_unknown (view tree.now) train member (option_map (λ s. s.now) name.entry) }
{
    match name {
        Some(name) if !is_direction(name, tree) => Some(Spot::Field(Member::Trains, train, member)),
        _ => None,
    }
}

fn listed_unknown(tree: &Value, train: usize, list: Member, entry: &Value) -> Option<Spot>
    ensures { result ≡ listed_unknown (view tree.now) train list (view entry.now) }
{
    first_fault(&ItemUnknown { tree, train, list }, entries_at(list, entry))
}

#[derive(Drop)]
struct ItemUnknown<'v> {
    tree: &'v Value,
    train: usize,
    list: Member,
}

impl EntryTest for ItemUnknown<'_> {
    ghost fault = { λ t. item_unknown (view t.tree.now) t.train t.list };

    fn fault(&self, number: usize, entry: &Value) -> Option<Spot> {
        if is_platform(text(entry), self.tree) {
            None
        } else {
            Some(Spot::Item(Member::Trains, self.train, self.list, number))
        }
    }
}

fn charges_unknown(tree: &Value, train: usize, entry: &Value) -> Option<Spot>
    ensures { result ≡ charges_unknown (view tree.now) train (view entry.now) }
{
    first_fault(
        &ChargeUnknown { tree, train },
        entries_at(Member::Surcharges, entry),
    )
}

#[derive(Drop)]
struct ChargeUnknown<'v> {
    tree: &'v Value,
    train: usize,
}

impl EntryTest for ChargeUnknown<'_> {
    ghost fault = { λ t. charge_unknown (view t.tree.now) t.train };

    fn fault(&self, number: usize, entry: &Value) -> Option<Spot> {
        if is_platform(name_in(Naming::Charge, entry), self.tree) {
            None
        } else {
            Some(Spot::ItemPart(Member::Trains, self.train, Member::Surcharges, number, 0))
        }
    }
}
