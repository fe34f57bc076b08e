ghost use Rattle.pattern_pricing.specs.Kept.{AreStarts};
ghost use Rattle.pattern_pricing.specs.Layout.{IsColumn, columns_of};
ghost use Rattle.pattern_pricing.specs.Positions.{later_trains, list_size, pair_start, pairs_in, patterns_in, position, start_of};
ghost use Rattle.patterns.specs.Allowed.{FitsBook, list_of};
ghost use Rattle.std.specs.Prelude.{◌≡◌, ℕ, ◌+◌, ◌-◌, ◌<◌, ◌≤◌, ◌^◌, length, slice_get, slice_index, Some, IfOk};

use crate::column::{Column, PairAt, WeightAt};
use crate::starts::{pair_starts_of, part_at, starts_of};
use pair_prices::Case;
use patterns::Allowed;
use sequence::Sequence;
use std::alloc::{AllocError, Global};
use std::marker::Model;

/// The columns for some lists of allowed numbers, numbered from 0: patterns by train and place in the train's list, then
/// left-out weights by train, then platform uses, then pair values by first and second train. Contracts see the lists and
/// the number of platforms.
#[derive(Drop)]
pub struct Layout {
    lists: Sequence<Sequence<u16>>,
    platforms: usize,
    /// The number of each train's first pattern, and the number of patterns.
    pattern_starts: Vec<u64>,
    /// How many pairs have an earlier first train, for each train, and the number of pairs.
    pair_starts: Vec<u64>,
}

impl Model for Layout {
    ghost use Rattle.pattern_pricing.specs.Layout.{LayoutRecord};
    ghost use Rattle.pattern_pricing.specs.Kept.{IsKept};

    ghost Value = { LayoutRecord };

    ghost view = { λ l. record { lists = l.lists; platforms = l.platforms } };

    ghost invariant = { λ l. IsKept (record { lists = l.lists; platforms = l.platforms }) l.pattern_starts.items l.pair_starts.items };
}

impl Layout {
    /// The columns for these lists, which are copied.
    ///
    /// # Errors
    /// `AllocError` where lists and sums find no memory. No other call takes any.
    pub fn new(alloc: Global, case: &Case, allowed: &Allowed) -> Result<Layout, AllocError>
        requires { FitsBook allowed.now.lists case.now.book }
        ensures lists { IfOk result (λ l. l.lists ≡ allowed.now.lists) }
        ensures platforms { IfOk result (λ l. l.platforms ≡ length case.now.station.platforms) }
    {
        // The lists keep the limits of the case.
        let station = case.station();
        let book = case.book();
        let _trains = book.trains();
        let platforms = station.platforms.len();
        let lists = copy_lists(alloc, allowed.lists.as_slice())?;
        let pattern_starts = starts_of(alloc, &lists)?;
        let pair_starts = pair_starts_of(alloc, lists.len())?;
        Ok(Layout {
            lists: Sequence::from_vec(lists),
            platforms,
            pattern_starts,
            pair_starts,
        })
    }

    /// The number of columns.
    pub fn count(&self) -> u64
        ensures value { result ≡ length (columns_of self.now) }
        ensures limit { result ≤ 2 ^ 40 }
    {
        self.lefts() + self.trains() as u64 + self.platforms as u64 + self.pairs()
    }

    /// What the column of that number stands for. Found by halves.
    pub fn column(&self, number: u64) -> Column
        requires { number < length (columns_of self.now) }
        ensures value { slice_get (columns_of self.now) number ≡ Some result }
        ensures there { IsColumn self.now result }
    {
        self.column_at(number)
    }

    /// The column's number. It is the only one that stands for it.
    pub fn number(&self, column: &Column) -> u64
        requires { IsColumn self.now column.now }
        ensures value { slice_get (columns_of self.now) result ≡ Some column.now }
        ensures alone { (number : ℕ) → slice_get (columns_of self.now) number ≡ Some column.now → number ≡ result }
    {
        self.position(column)
    }

    fn column_at(&self, number: u64) -> Column
        requires { number < length (columns_of self.now) }
        ensures there { IsColumn self.now result }
        ensures place { position self.now result ≡ number }
    {
        let lefts = self.lefts();
        if number < lefts {
            return self.weight_at(number);
        }
        let uses = lefts + self.trains() as u64;
        if number < uses {
            return Column::LeftOut((number - lefts) as usize);
        }
        let pairs = uses + self.platforms as u64;
        if number < pairs {
            return Column::PlatformUse((number - uses) as usize);
        }
        self.pair_at(number - pairs)
    }

    fn weight_at(&self, number: u64) -> Column
        requires { number < patterns_in self.now }
        ensures there { IsColumn self.now result }
        ensures place { position self.now result ≡ number }
    {
        let starts = self.starts();
        let train = part_at(starts, number);
        let place = (number - starts[train]) as usize;
        Column::Weight(WeightAt { train, place })
    }

    fn pair_at(&self, number: u64) -> Column
        requires { number < pairs_in self.now }
        ensures there { IsColumn self.now result }
        ensures place { position self.now result ≡ patterns_in self.now + length self.now.lists + self.now.platforms + number }
    {
        let starts = self.starts_of_pairs();
        let first = part_at(starts, number);
        let second = first + 1 + (number - starts[first]) as usize;
        Column::PairValue(PairAt { first, second })
    }

    fn position(&self, column: &Column) -> u64
        requires { IsColumn self.now column.now }
        ensures { result ≡ position self.now column.now }
    {
        let uses = self.lefts() + self.trains() as u64;
        match column {
            Column::Weight(at) => self.start(at.train) + at.place as u64,
            Column::LeftOut(train) => self.lefts() + *train as u64,
            Column::PlatformUse(platform) => uses + *platform as u64,
            Column::PairValue(at) => {
                let pair = self.pair_start(at.first) + (at.second - (at.first + 1)) as u64;
                uses + self.platforms as u64 + pair
            }
        }
    }

    /// The number of trains.
    pub fn trains(&self) -> usize
        ensures value { result ≡ length self.now.lists }
        ensures limit { result ≤ 200 }
    {
        self.lists.len()
    }

    /// The number of platforms.
    pub fn platforms(&self) -> usize
        ensures value { result ≡ self.now.platforms }
        ensures limit { result ≤ 64 }
    {
        self.platforms
    }

    fn starts(&self) -> &[u64]
        ensures { AreStarts (list_size self.now) (length self.now.lists) result.now }
    {
        &self.pattern_starts
    }

    fn starts_of_pairs(&self) -> &[u64]
        ensures { AreStarts (later_trains self.now) (length self.now.lists) result.now }
    {
        &self.pair_starts
    }

    /// The number of the train's first pattern; behind the last train, that of the first column that is no pattern.
    pub fn start(&self, train: usize) -> u64
        requires { train ≤ length self.now.lists }
        ensures value { result ≡ start_of self.now train }
        ensures limit { result ≤ 819_200 }
    {
        self.starts()[train]
    }

    /// The number of the first left-out weight, which is the number of patterns.
    pub(crate) fn lefts(&self) -> u64
        ensures value { result ≡ patterns_in self.now }
        ensures limit { result ≤ 819_200 }
    {
        self.start(self.trains())
    }

    /// How many pairs have a first train before this one.
    fn pair_start(&self, train: usize) -> u64
        requires { train ≤ length self.now.lists }
        ensures value { result ≡ pair_start self.now train }
        ensures limit { result ≤ 819_200 }
    {
        self.starts_of_pairs()[train]
    }

    /// The number of pairs.
    fn pairs(&self) -> u64
        ensures value { result ≡ pairs_in self.now }
        ensures limit { result ≤ 819_200 }
    {
        self.pair_start(self.trains())
    }

    /// The number of the train's patterns.
    pub fn size(&self, train: usize) -> usize
        requires { train < length self.now.lists }
        ensures { result ≡ list_size self.now train }
    {
        self.lists.as_slice()[train].len()
    }

    /// The number of the train's pattern at that place.
    pub fn number_at(&self, train: usize, place: usize) -> u16
        requires train { train < length self.now.lists }
        requires place { place < list_size self.now train }
        ensures { result ≡ slice_index (list_of self.now.lists train) place }
    {
        self.lists.as_slice()[train].as_slice()[place]
    }
}

fn copy_lists(alloc: Global, lists: &[Sequence<u16>]) -> Result<Vec<Sequence<u16>>, AllocError>
    ensures { IfOk result (λ v. v.items ≡ lists.now) }
{
    let mut copies = Vec::new(alloc);
    for list in lists {
        let copy = copy_list(alloc, list)?;
        copies.push(copy)?;
    }
    Ok(copies)
}

fn copy_list(alloc: Global, list: &Sequence<u16>) -> Result<Sequence<u16>, AllocError>
    ensures { IfOk result (λ s. s ≡ list.now) }
{
    let numbers = Vec::from_slice(alloc, list.as_slice())?;
    Ok(Sequence::from_vec(numbers))
}
