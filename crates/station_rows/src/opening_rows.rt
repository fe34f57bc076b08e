ghost use Rattle.exact_lp.specs.Sources.{IsOpening, OpeningMeets};
ghost use Rattle.exact_lp.specs.declared.row.Row.{Row};
ghost use Rattle.pair_prices.specs.Case.{CaseRecord};
ghost use Rattle.pattern_pricing.specs.Layout.{columns_of};
ghost use Rattle.pattern_pricing.specs.declared.column.Column.TheVariants.{LeftOut};
ghost use Rattle.station_rows.specs.Rows.{AreLeftColumns, AreTrainRows, StandsIn};
ghost use Rattle.std.specs.Prelude.{◌≡◌, ◌<◌, length, slice_get, Some, IfOk};

use crate::row::train_row;
use exact_lp::{Listed, Opening, Row};
use pattern_pricing::{Column, Layout};
use std::alloc::{AllocError, Global};

/// The opening rows of all trains, in their order, and as the own column of each the one of leaving the train out. Where all trains are left
/// out, each row that stands holds.
///
/// # Errors
/// `AllocError` where the rows find no memory.
pub fn opening(alloc: Global, layout: &Layout) -> Result<Opening, AllocError>
    ensures rows { IfOk result (λ opening. AreTrainRows layout.now opening.rows) }
    ensures columns { IfOk result (λ opening. AreLeftColumns layout.now opening.columns) }
    ensures opening { IfOk result (λ opening. IsOpening opening.rows opening.columns) }
    ensures meets { IfOk result (λ opening. (c : CaseRecord) (row : Row) → StandsIn c layout.now row
        → OpeningMeets opening.rows opening.columns row) }
{
    let rows = train_rows(alloc, layout)?;
    let columns = left_columns(alloc, layout)?;
    Ok(Opening {
        rows: Listed::new(rows),
        columns: Listed::new(columns),
    })
}

fn train_rows(alloc: Global, layout: &Layout) -> Result<Vec<Row>, AllocError>
    ensures { IfOk result (λ v. AreTrainRows layout.now v.items) }
{
    let mut rows = Vec::new(alloc);
    let trains = layout.trains();
    for train in 0..trains {
        let row = train_row(alloc, layout, train)?;
        rows.push(row)?;
    }
    Ok(rows)
}

fn left_columns(alloc: Global, layout: &Layout) -> Result<Vec<u64>, AllocError>
    ensures { IfOk result (λ v. AreLeftColumns layout.now v.items) }
{
    let mut columns = Vec::new(alloc);
    let trains = layout.trains();
    for train in 0..trains {
        let column = left_column(layout, train);
        columns.push(column)?;
    }
    Ok(columns)
}

/// The column of leaving the train out.
fn left_column(layout: &Layout, train: usize) -> u64
    requires { train < length layout.now.lists }
    ensures { slice_get (columns_of layout.now) result ≡ Some (LeftOut train) }
{
    layout.number(&Column::LeftOut(train))
}
