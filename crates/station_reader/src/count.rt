// Lengths of lists.
ghost use Rattle.std.specs.Prelude.{◌≡◌, map};
ghost use Rattle.serde_json.specs.View.{view};
ghost use Rattle.station_reader.specs.Classes.{length_within, list_count as list_count_of, train_list_count as train_list_count_of, train_count, count as count_of};

use crate::member::Member;
use crate::place::Spot;
use crate::tree::entries_at;
use crate::walk::{EntryTest, first_fault};
use serde_json::Value;

/// The place of the first list whose length is outside its limits.
#[tactic(auto, unfolding(crate::specs::Classes::count))]
pub(crate) fn count(tree: &Value) -> Option<Spot>
    ensures { result ≡ count_of (view tree.now) }
{
    list_count(Member::Directions, 1, 64, tree)
        .or_else(|| list_count(Member::Platforms, 1, 64, tree))
        .or_else(|| list_count(Member::Paths, 0, 500, tree))
        .or_else(|| list_count(Member::Incompatible, 0, 250_000, tree))
        .or_else(|| list_count(Member::Trains, 0, 200, tree))
        .or_else(|| first_fault(&TrainCount, entries_at(Member::Trains, tree)))
}

fn list_count(list: Member, low: usize, high: usize, tree: &Value) -> Option<Spot>
    ensures { result ≡ list_count_of list low high (view tree.now) }
{
    if is_length_within(low, high, entries_at(list, tree)) {
        None
    } else {
        Some(Spot::Of(list))
    }
}

fn is_length_within(low: usize, high: usize, entries: &[Value]) -> bool
    ensures { result ≡ length_within low high (map view entries.now) }
{
    low <= entries.len() && entries.len() <= high
}

struct TrainCount;

impl EntryTest for TrainCount {
    ghost fault = { λ _. train_count };

    fn fault(&self, number: usize, entry: &Value) -> Option<Spot> {
        train_list_count(number, Member::Platforms, entry)
            .or_else(|| train_list_count(number, Member::Prefer, entry))
            .or_else(|| train_list_count(number, Member::Surcharges, entry))
    }
}

fn train_list_count(train: usize, list: Member, entry: &Value) -> Option<Spot>
    ensures { result ≡ train_list_count_of train list (view entry.now) }
{
    if is_length_within(0, 64, entries_at(list, entry)) {
        None
    } else {
        Some(Spot::Field(Member::Trains, train, list))
    }
}
