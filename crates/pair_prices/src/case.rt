ghost use Rattle.pair_prices.specs.Case.{raised_case, rule_case, IsCase};
ghost use Rattle.pair_prices.specs.Pair.{pair_of};
ghost use Rattle.pair_prices.specs.Plan.{cost, IsFeasible};
ghost use Rattle.pair_prices.specs.Top.{sealed_price, top_of};
ghost use Rattle.patterns.specs.Book.{offers_of, pattern_at, price_at};
ghost use Rattle.station.specs.Shown.{record_of};
ghost use Rattle.std.specs.Prelude.{◌≡◌, ◌≢◌, ℕ, List, ◌+◌, ◌<◌, ◌≤◌, length, pos, IfOk};

use crate::pair::Pair;
use crate::top::{greatest_prices, price_of, top_price};
use crate::verdict::verdict;
use path_conflicts::Conflicts;
use patterns::Book;
use station::Station;
use std::alloc::{AllocError, Global};
use std::marker::Model;

/// A station with the patterns of its trains and their prices. Contracts see the station and the offers.
///
/// Beside them it keeps the table of incompatible paths and TOP, so that its calls after `new` take no memory and search
/// nothing.
#[derive(Drop)]
pub struct Case {
    station: Station,
    conflicts: Conflicts,
    book: Book,
    /// The greatest price of each train's patterns.
    greatest: Vec<u64>,
    top: i64,
}

impl Model for Case {
    ghost use Rattle.pair_prices.specs.Case.{CaseRecord};
    ghost use Rattle.pair_prices.specs.Kept.{IsKept};
    ghost use Rattle.station.specs.Shown.{record_of};

    ghost Value = { CaseRecord };

    ghost view = { λ c. record { station = record_of c.station; book = c.book } };

    ghost invariant = { λ c. IsKept (record { station = record_of c.station; book = c.book }) c.conflicts c.greatest.items c.top };
}

impl Case {
    /// The case of a station at the rules' prices.
    ///
    /// # Errors
    /// `AllocError` where lists and table find no memory.
    pub fn new(alloc: Global, station: Station) -> Result<Case, AllocError>
        ensures { IfOk result (λ c. c ≡ rule_case (record_of station)) }
    {
        let conflicts = Conflicts::new(alloc, &station)?;
        let book = Book::new(alloc, &station)?;
        let greatest = greatest_prices(alloc, &book)?;
        let top = top_price(&station, &greatest);
        Ok(Case {
            station,
            conflicts,
            book,
            greatest,
            top,
        })
    }

    /// The station.
    pub fn station(&self) -> &Station
        ensures value { record_of result.now ≡ self.now.station }
        ensures limits { IsCase self.now }
    {
        &self.station
    }

    /// The patterns of the trains and their prices.
    pub fn book(&self) -> &Book
        ensures { result.now ≡ self.now.book }
    {
        &self.book
    }

    /// TOP, a number above the cost of every feasible plan and below 10^13: `docs/PROOFS.md`, "TOP and sealed prices".
    pub fn top(&self) -> i64
        ensures value { result ≡ pos (top_of self.now) }
        ensures limit { top_of self.now < 10_000_000_000_000 }
        // Every feasible plan costs less, also after prices were raised.
        ensures above { (plan : List ℕ) → IsFeasible self.now plan → cost self.now plan < top_of self.now }
    {
        self.top
    }

    /// Makes one pattern cost `extra` more, at most 10^10 in all. TOP follows.
    pub fn raise(&mut self, train: usize, number: u16, extra: u32)
        requires train { train < length self.old.book }
        requires number { number < length (offers_of self.old.book train) }
        requires limit { price_at self.old.book train number + extra ≤ 10_000_000_000 }
        ensures { self.new ≡ raised_case self.old train number extra }
    {
        let price = price_of(&self.book, train, number) + extra as u64;
        let before = self.greatest[train];
        let after = price.max(before);
        self.book.raise(train, number, extra);
        self.greatest[train] = after;
        self.top += (after - before) as i64;
    }

    /// What the two trains' patterns cost together, or why they are forbidden: a platform before paths, and paths in the
    /// order in-in, in-out, out-in, out-out.
    pub fn pair(&self, s: usize, i: u16, t: usize, j: u16) -> Pair
        requires two { s ≢ t }
        requires first { s < length self.now.book }
        requires first_number { i < length (offers_of self.now.book s) }
        requires second { t < length self.now.book }
        requires second_number { j < length (offers_of self.now.book t) }
        ensures { result ≡ pair_of self.now.station (pattern_at self.now.book s i) (pattern_at self.now.book t j) }
    {
        let first = self.book.get(s, i);
        let second = self.book.get(t, j);
        verdict(&self.station, &self.conflicts, &first, &second)
    }

    /// What the two trains' patterns cost together, or TOP where they are forbidden.
    pub fn sealed(&self, s: usize, i: u16, t: usize, j: u16) -> i64
        requires two { s ≢ t }
        requires first { s < length self.now.book }
        requires first_number { i < length (offers_of self.now.book s) }
        requires second { t < length self.now.book }
        requires second_number { j < length (offers_of self.now.book t) }
        ensures { result ≡ pos (sealed_price self.now (pattern_at self.now.book s i) (pattern_at self.now.book t j)) }
    {
        match self.pair(s, i, t, j) {
            Pair::Price(price) => price,
            Pair::Forbidden(_) => self.top(),
        }
    }
}
