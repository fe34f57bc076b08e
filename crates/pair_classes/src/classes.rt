ghost use Rattle.pair_classes.specs.Classes.{class_price};
ghost use Rattle.std.specs.Prelude.{◌≡◌, ◌↔◌, ◌<◌, ◌≤◌, ◌≤ℤ◌, length, pos, slice_index, All, IsTrue};

use std::marker::Model;

/// Classes of the patterns of two trains, the first and the second. Patterns of one class cost the same beside every pattern
/// of the other train, so what two patterns cost together is kept once for each two classes.
///
/// Each call is one look into a list.
#[derive(Drop)]
pub struct Classes {
    pub(crate) of_first: Vec<u16>,
    pub(crate) of_second: Vec<u16>,
    /// How many classes the first train has, and the second.
    pub(crate) rows: usize,
    pub(crate) columns: usize,
    /// A row for each class of the first train.
    pub(crate) prices: Vec<i64>,
}

impl Model for Classes {
    ghost use Rattle.pair_classes.specs.Classes.{ClassTable, IsClassTable};

    ghost Value = { ClassTable };

    ghost view = { λ c. record { of_first = c.of_first.items; of_second = c.of_second.items; rows = c.rows; columns = c.columns; prices = c.prices.items } };

    ghost invariant = { λ c. IsClassTable (record { of_first = c.of_first.items; of_second = c.of_second.items; rows = c.rows; columns = c.columns; prices = c.prices.items }) };
}

impl Classes {
    /// How many classes the first train has.
    pub fn first_count(&self) -> usize
        ensures value { result ≡ self.now.rows }
        ensures limit { result ≤ 4096 }
    {
        self.rows
    }

    /// How many classes the second train has.
    pub fn second_count(&self) -> usize
        ensures value { result ≡ self.now.columns }
        ensures limit { result ≤ 4096 }
    {
        self.columns
    }

    /// The class of a pattern of the first train.
    pub fn of_first(&self, number: u16) -> u16
        requires { number < length self.now.of_first }
        ensures value { result ≡ slice_index self.now.of_first number }
        ensures below { result < self.now.rows }
    {
        self.of_first[number as usize]
    }

    /// The class of a pattern of the second train.
    pub fn of_second(&self, number: u16) -> u16
        requires { number < length self.now.of_second }
        ensures value { result ≡ slice_index self.now.of_second number }
        ensures below { result < self.now.columns }
    {
        self.of_second[number as usize]
    }

    /// What a pattern of the one class costs beside a pattern of the other: their sealed price.
    pub fn price(&self, first: u16, second: u16) -> i64
        requires first { first < self.now.rows }
        requires second { second < self.now.columns }
        ensures value { result ≡ class_price self.now first second }
        ensures least { pos 0 ≤ℤ result }
        ensures most { result ≤ℤ pos 10_000_000_000_000 }
    {
        self.prices[first as usize * self.columns + second as usize]
    }

    /// Whether all prices are 0.
    pub(crate) fn are_free(&self) -> bool
        ensures { IsTrue result ↔ All (λ p. p ≡ pos 0) self.now.prices }
    {
        are_zero(&self.prices)
    }
}

fn are_zero(prices: &[i64]) -> bool
    ensures { IsTrue result ↔ All (λ p. p ≡ pos 0) prices.now }
{
    prices.iter().all(|price| *price == 0)
}
