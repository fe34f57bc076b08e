ghost use Rattle.patterns.specs.Book.{IsBook, offers_of, pattern_at, price_at, raised, rule_book};
ghost use Rattle.station.specs.Shown.{record_of};
ghost use Rattle.std.specs.Prelude.{◌≡◌, ◌+◌, ◌<◌, ◌≤◌, length, pos, IfOk};

use crate::row::Row;
use station::{Pattern, Station};
use std::alloc::{AllocError, Global};
use std::marker::Model;

/// The patterns of all trains and their prices, at most 4,096 for each train. Contracts see it as a list of offers for
/// each train. All layers above read patterns and prices here.
#[derive(Drop)]
pub struct Book {
    rows: Vec<Row>,
}

impl Model for Book {
    ghost use Rattle.std.specs.Prelude.{List};
    ghost use Rattle.patterns.specs.declared.offer.Offer.{Offer};
    ghost use Rattle.patterns.specs.Book.{IsBook};

    ghost Value = { List (List Offer) };

    ghost view = { λ b. b.rows.items };

    ghost invariant = { λ b. IsBook b.rows.items };
}

impl Book {
    /// All allowed patterns of all trains at the rules' prices.
    ///
    /// # Errors
    /// `AllocError` where the lists find no memory. No other call takes any.
    pub fn new(alloc: Global, station: &Station) -> Result<Book, AllocError>
        ensures { IfOk result (λ b. b ≡ rule_book (record_of station.now)) }
    {
        let mut rows = Vec::new(alloc);
        for train in station.trains.as_slice() {
            rows.push(Row::new(alloc, station, train)?)?;
        }
        Ok(Book { rows })
    }

    /// The number of trains.
    pub fn trains(&self) -> usize
        ensures value { result ≡ length self.now }
        ensures limits { IsBook self.now }
    {
        self.rows.len()
    }

    /// The number of patterns of the train.
    pub fn count(&self, train: usize) -> usize
        requires { train < length self.now }
        ensures value { result ≡ length (offers_of self.now train) }
        ensures limit { result ≤ 4096 }
    {
        self.rows[train].len()
    }

    /// The pattern of that number.
    pub fn get(&self, train: usize, number: u16) -> Pattern
        requires train { train < length self.now }
        requires number { number < length (offers_of self.now train) }
        ensures { result ≡ pattern_at self.now train number }
    {
        self.rows[train].get(number as usize).pattern
    }

    /// What the pattern of that number costs, at most 10^10.
    pub fn price_of(&self, train: usize, number: u16) -> i64
        requires train { train < length self.now }
        requires number { number < length (offers_of self.now train) }
        ensures value { result ≡ pos (price_at self.now train number) }
        ensures limit { price_at self.now train number ≤ 10_000_000_000 }
    {
        self.rows[train].get(number as usize).price as i64
    }

    /// Makes one pattern cost `extra` more, at most 10^10 in all, and changes nothing else.
    pub fn raise(&mut self, train: usize, number: u16, extra: u32)
        requires train { train < length self.old }
        requires number { number < length (offers_of self.old train) }
        requires limit { price_at self.old train number + extra ≤ 10_000_000_000 }
        ensures { self.new ≡ raised self.old train number extra }
    {
        let row = &mut self.rows[train];
        row.raise(number as usize, extra);
    }
}
