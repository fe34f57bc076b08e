use super::prices::Prices;
use super::rows::{name_below, row_of, rows_of};
use exact_lp::{
    Engine, Limits, Listed, Outcome, Row, RowCell, Solved, WeakCause, all_within, point_cost,
};
use ratio::{Ratio, Width};
use std::alloc::{AllocError, Global};

/// A linear program in the making.
#[derive(Drop)]
pub struct Draft {
    alloc: Global,
    listed: Vec<u32>,
    rest: u32,
    count: u64,
    opening: Vec<Row>,
    own: Vec<u64>,
    further: Vec<Row>,
}

/// What came of it: the least cost with the point's scale and weights, or why it isn't known.
#[derive(Drop)]
pub enum Found {
    Exact(Ratio, Solved),
    Weak(WeakCause),
}

impl Found {
    pub fn cost(&self) -> Option<Ratio> {
        match self {
            Found::Exact(cost, _) => Some(*cost),
            Found::Weak(_) => None,
        }
    }

    pub fn cause(&self) -> Option<WeakCause> {
        match self {
            Found::Exact(_, _) => None,
            Found::Weak(cause) => Some(*cause),
        }
    }

    /// The weight at a place of the point over its scale.
    pub fn weight(&self, at: usize) -> Option<Ratio> {
        match self {
            Found::Exact(_, solved) => {
                let weight = solved.point.weights.as_slice().get(at)?;
                Some(Ratio::new(weight.weight, solved.point.scale))
            }
            Found::Weak(_) => None,
        }
    }
}

impl Draft {
    /// Columns of these prices, and of the price `rest` up to the count.
    pub fn new(alloc: Global, listed: &[u32], rest: u32, count: u64) -> Result<Draft, AllocError> {
        Ok(Draft {
            alloc,
            listed: Vec::from_slice(alloc, listed)?,
            rest,
            count,
            opening: Vec::new(alloc),
            own: Vec::new(alloc),
            further: Vec::new(alloc),
        })
    }

    /// More columns of these prices.
    pub fn price(&mut self, prices: &[u32]) -> Result<(), AllocError> {
        self.listed.extend_from_slice(prices)
    }

    /// The opening row with the sum 1 and this own column.
    pub fn open(&mut self, cells: &[(u64, i128)], own: u64) -> Result<(), AllocError> {
        let cells = cells_of(self.alloc, cells)?;
        if let Some(row) = row_of(self.alloc, 1, true, &cells)? {
            self.opening.push(row)?;
            self.own.push(own)?;
        }
        Ok(())
    }

    /// The further row with a sum of at least 0.
    pub fn stand(&mut self, cells: &[(u64, i128)]) -> Result<(), AllocError> {
        let cells = cells_of(self.alloc, cells)?;
        if let Some(row) = row_of(self.alloc, 0, false, &cells)? {
            self.further.push(row)?;
        }
        Ok(())
    }

    /// What the engine answers, or `None` where this is no program.
    pub fn solve(self, limits: &Limits, width: &mut Width) -> Result<Option<Found>, AllocError> {
        if self.count > 1 << 40 {
            return Ok(None);
        }
        let alloc = self.alloc;
        let prices = Prices {
            listed: Listed::new(self.listed),
            rest: self.rest,
            count: self.count,
        };
        let own = Listed::new(self.own);
        let Some(mut rows) = rows_of(Listed::new(self.opening), own, Listed::new(self.further))
        else {
            return Ok(None);
        };
        if !name_below(rows.opening.as_slice(), prices.count)
            || !name_below(rows.further.as_slice(), prices.count)
        {
            return Ok(None);
        }
        match Engine::optimise(alloc, &prices, &mut rows, limits, width)? {
            Outcome::Exact(solved) => Ok(summary(&prices, solved, width)),
            Outcome::Weak(cause) => Ok(Some(Found::Weak(cause))),
        }
    }
}

/// The cells with these columns and values.
fn cells_of(alloc: Global, pairs: &[(u64, i128)]) -> Result<Vec<RowCell>, AllocError> {
    let mut cells = Vec::new(alloc);
    for (column, value) in pairs {
        cells.push(RowCell {
            column: *column,
            value: *value,
        })?;
    }
    Ok(cells)
}

/// The solved program with its cost.
fn summary(prices: &Prices, solved: Solved, width: &mut Width) -> Option<Found> {
    if !all_within(solved.point.weights.as_slice(), prices.count) {
        return None;
    }
    let cost = point_cost(prices, solved.point.weights.as_slice(), width).ok()?;
    let cost = Ratio::new(cost, solved.point.scale);
    Some(Found::Exact(cost, solved))
}
