ghost use Rattle.ratio.specs.Ledger.{Raised};
ghost use Rattle.exact_lp.specs.declared.row.Row.{Row};
ghost use Rattle.exact_lp.specs.Programs.{Holds};
ghost use Rattle.master_lp.specs.Source.{SourceRecord};
ghost use Rattle.pair_classes.specs.Meetings.{AreMeetings};
ghost use Rattle.pattern_pricing.specs.Prices.{IsLayoutOf};
ghost use Rattle.station_rows.specs.Rows.{AreTrainRows, StandsIn};
ghost use Rattle.std.specs.Prelude.{◌≡◌, All, pos, ◌≤ℤ◌, ◌≤◌, ◌↔◌, ◌^◌, IfOk, IfSome, IfNone, IsErrOf};

use crate::look::violated_row;
use crate::minutes::Minutes;
use exact_lp::{Cuts, Listed, LpFault, Opening, Point, Row};
use leaf_bounds::Leaf;
use pair_classes::Meetings;
use pair_prices::Case;
use pattern_pricing::Layout;
use patterns::Allowed;
use ratio::Width;
use station_rows::opening;
use std::alloc::{AllocError, Global};
use std::marker::Model;

/// The rows of a node. Contracts see the case, the columns and the opening rows.
#[derive(Drop)]
pub(crate) struct RowSource<'a> {
    case: &'a Case,
    allowed: &'a Allowed,
    layout: &'a Layout,
    meetings: &'a Meetings,
    minutes: Minutes,
    opening: Listed<Row>,
    own: Listed<u64>,
}

impl<'a> Model for RowSource<'a> {
    ghost use Rattle.master_lp.specs.Source.{IsSource, SourceRecord};

    ghost Value = { SourceRecord };

    ghost view = { λ s. record { case = s.case.now; layout = s.layout.now; opening = s.opening } };

    ghost invariant = { λ s. IsSource s.case.now s.allowed.now.lists s.layout.now s.meetings.now s.opening s.own };
}

impl<'a> RowSource<'a> {
    /// The rows over the columns of the lists. A look begins at the minutes that the leaf pays for.
    pub(crate) fn new(
        alloc: Global,
        case: &'a Case,
        allowed: &'a Allowed,
        layout: &'a Layout,
        meetings: &'a Meetings,
        leaf: &Leaf,
    ) -> Result<RowSource<'a>, AllocError>
        requires layout { IsLayoutOf case.now layout.now }
        requires lists { layout.now.lists ≡ allowed.now.lists }
        requires meetings { AreMeetings case.now meetings.now }
        ensures case { IfOk result (λ s. s.case ≡ case.now) }
        ensures layout { IfOk result (λ s. s.layout ≡ layout.now) }
        ensures trains { IfOk result (λ s. AreTrainRows layout.now s.opening) }
    {
        let minutes = Minutes::new(alloc, case, allowed, leaf)?;
        let first = opening(alloc, layout)?;
        Ok(RowSource {
            case,
            allowed,
            layout,
            meetings,
            minutes,
            opening: first.rows,
            own: first.columns,
        })
    }
}

impl<'a> Cuts for RowSource<'a> {
    ghost opening_rows = { λ s. s.opening };

    ghost stands = { λ s row. StandsIn s.case s.layout row };

    fn opening(&self, alloc: Global) -> Result<Opening, AllocError> {
        let rows = copy_of_rows(alloc, self.opening.as_slice())?;
        let columns = Listed::new(Vec::from_slice(alloc, self.own.as_slice())?);
        Ok(Opening { rows, columns })
    }

    fn violated(
        &mut self,
        alloc: Global,
        point: &Point,
        width: &mut Width,
    ) -> Result<Option<Row>, LpFault> {
        let _ = width;
        let found = violated_row(
            alloc,
            self.case,
            self.allowed,
            self.layout,
            self.meetings,
            &self.minutes,
            point,
        )?;
        Ok(found)
    }
}

fn copy_of_rows(alloc: Global, rows: &[Row]) -> Result<Listed<Row>, AllocError>
    ensures { IfOk result (λ copies. copies ≡ rows.now) }
{
    let mut copies = Vec::new(alloc);
    for row in rows {
        copies.push(copy_of_row(alloc, row)?)?;
    }
    Ok(Listed::new(copies))
}

fn copy_of_row(alloc: Global, row: &Row) -> Result<Row, AllocError>
    ensures { IfOk result (λ copy. copy ≡ row.now) }
{
    let cells = Listed::new(Vec::from_slice(alloc, row.cells.as_slice())?);
    Ok(Row {
        least: row.least,
        equal: row.equal,
        cells,
    })
}
