// Where each pair stands in the list of those that can meet.
ghost use Rattle.pair_classes.specs.Places.{ArePlacesFrom, place_of};
ghost use Rattle.std.specs.Prelude.{◌≡◌, ℕ, ◌&&◌, ◌==◌, ◌<◌, ◌^◌, if◌then◌else◌, length, None, Some, IfOk, All};

use crate::meeting::Meeting;
use std::alloc::{AllocError, Global};
use std::marker::Model;

/// How many trains a station has at most.
const TRAINS: usize = 200;

/// A place for each two trains. Contracts see it as the list of the places, row by row.
#[derive(Drop)]
pub(crate) struct Places {
    places: Vec<Option<u16>>,
}

impl Model for Places {
    ghost use Rattle.std.specs.Prelude.{◌≡◌, ℕ, List, Option, length};

    ghost Value = { List (Option ℕ) };

    ghost view = { λ t. t.places.items };

    ghost invariant = { λ t. length t.places.items ≡ 40_000 };
}

impl Places {
    /// The place of each pair.
    pub(crate) fn of(alloc: Global, pairs: &[Meeting]) -> Result<Places, AllocError>
        requires count { length pairs.now < 2 ^ 16 }
        requires trains { All (λ m. m.first < 200) pairs.now }
        requires others { All (λ m. m.second < 200) pairs.now }
        ensures { IfOk result (ArePlacesFrom pairs.now 0) }
    {
        let mut table = Places {
            places: no_places(alloc, TRAINS * TRAINS)?,
        };
        for place in (0..pairs.len()).rev() {
            table.set(pairs[place].first, pairs[place].second, place as u16);
        }
        Ok(table)
    }

    fn set(&mut self, first: usize, second: usize, place: u16)
        requires first { first < 200 }
        requires second { second < 200 }
        ensures { (s t : ℕ) → s < 200 → t < 200 →
            place_of self.new s t ≡ (if first == s && second == t then Some place else place_of self.old s t) }
    {
        self.places[TRAINS * first + second] = Some(place);
    }

    pub(crate) fn get(&self, first: usize, second: usize) -> Option<u16>
        requires first { first < 200 }
        requires second { second < 200 }
        ensures { result ≡ place_of self.now first second }
    {
        self.places[TRAINS * first + second]
    }
}

fn no_places(alloc: Global, count: usize) -> Result<Vec<Option<u16>>, AllocError>
    ensures length { IfOk result (λ v. length v.items ≡ count) }
    ensures none { IfOk result (λ v. (s t : ℕ) → place_of v.items s t ≡ None) }
{
    vec![in alloc; None; count]
}
