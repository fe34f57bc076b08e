ghost use Rattle.pair_cuts.specs.Cut.{IsSmall};
ghost use Rattle.pattern_pricing.specs.Positions.{list_size};
ghost use Rattle.pattern_pricing.specs.Prices.{IsLayoutOf};
ghost use Rattle.station_rows.specs.Contents.{clique_cells, opening_cells, pair_cells, use_cells};
ghost use Rattle.station_rows.specs.Rows.{IsCliqueRow, IsPairRow, IsTrainRow, IsUseRow};
ghost use Rattle.std.specs.Prelude.{◌≡◌, ◌<◌, length, IfOk};

use crate::cells::{number_of, push_cell, push_held, push_left, push_negated, push_ones};
use clique_cuts::CliqueCut;
use exact_lp::{Listed, Row, RowCell};
use pair_cuts::PairCut;
use pair_prices::Case;
use pattern_pricing::{Column, Layout, PairAt};
use std::alloc::{AllocError, Global};

/// The opening row of a train: the weights of its patterns and of leaving it out are the scale in total.
///
/// # Errors
/// `AllocError` where the cells find no memory. So it is with the other rows.
pub fn train_row(alloc: Global, layout: &Layout, train: usize) -> Result<Row, AllocError>
    requires { train < length layout.now.lists }
    ensures { IfOk result (IsTrainRow layout.now train) }
{
    let cells = opening_cells(alloc, layout, train)?;
    Ok(Row {
        least: 1,
        equal: true,
        cells: Listed::new(cells),
    })
}

/// The row that a platform's use is at most the scale.
pub fn use_row(alloc: Global, layout: &Layout, platform: usize) -> Result<Row, AllocError>
    requires { platform < layout.now.platforms }
    ensures { IfOk result (IsUseRow layout.now platform) }
{
    let cells = use_cells(alloc, layout, platform)?;
    Ok(Row {
        least: -1,
        equal: false,
        cells: Listed::new(cells),
    })
}

/// The row that the weights of the patterns that hold the platform at that minute are at most its use. It goes once over all
/// patterns.
pub fn clique_row(
    alloc: Global,
    case: &Case,
    layout: &Layout,
    cut: &CliqueCut,
) -> Result<Row, AllocError>
    requires layout { IsLayoutOf case.now layout.now }
    requires platform { cut.now.platform < layout.now.platforms }
    ensures { IfOk result (IsCliqueRow case.now layout.now cut.now.platform cut.now.minute) }
{
    let cells = clique_cells(alloc, case, layout, cut)?;
    Ok(Row {
        least: 0,
        equal: false,
        cells: Listed::new(cells),
    })
}

/// The row that the value of two trains is at least what a cut on them is worth at the weights. It goes over their patterns alone.
pub fn pair_row(alloc: Global, layout: &Layout, cut: &PairCut) -> Result<Row, AllocError>
    requires order { cut.now.first < cut.now.second }
    requires second { cut.now.second < length layout.now.lists }
    requires alpha { length cut.now.alpha ≡ list_size layout.now cut.now.first }
    requires beta { length cut.now.beta ≡ list_size layout.now cut.now.second }
    requires small { IsSmall cut.now }
    ensures { IfOk result (IsPairRow layout.now cut.now) }
{
    let cells = pair_cells(alloc, layout, cut)?;
    Ok(Row {
        least: 0,
        equal: false,
        cells: Listed::new(cells),
    })
}

fn opening_cells(alloc: Global, layout: &Layout, train: usize) -> Result<Vec<RowCell>, AllocError>
    requires { train < length layout.now.lists }
    ensures { IfOk result (λ v. v.items ≡ opening_cells layout.now train) }
{
    let mut cells = Vec::new(alloc);
    push_ones(&mut cells, layout, train)?;
    let column = number_of(layout, &Column::LeftOut(train));
    push_cell(&mut cells, RowCell { column, value: 1 })?;
    Ok(cells)
}

fn use_cells(alloc: Global, layout: &Layout, platform: usize) -> Result<Vec<RowCell>, AllocError>
    requires { platform < layout.now.platforms }
    ensures { IfOk result (λ v. v.items ≡ use_cells layout.now platform) }
{
    let mut cells = Vec::new(alloc);
    let column = number_of(layout, &Column::PlatformUse(platform));
    push_cell(&mut cells, RowCell { column, value: -1 })?;
    Ok(cells)
}

fn clique_cells(
    alloc: Global,
    case: &Case,
    layout: &Layout,
    cut: &CliqueCut,
) -> Result<Vec<RowCell>, AllocError>
    requires layout { IsLayoutOf case.now layout.now }
    requires platform { cut.now.platform < layout.now.platforms }
    ensures { IfOk result (λ v. v.items ≡ clique_cells case.now layout.now cut.now.platform cut.now.minute) }
{
    let mut cells = Vec::new(alloc);
    push_held(&mut cells, case, layout, cut)?;
    let column = number_of(layout, &Column::PlatformUse(cut.platform as usize));
    push_cell(&mut cells, RowCell { column, value: 1 })?;
    Ok(cells)
}

fn pair_cells(alloc: Global, layout: &Layout, cut: &PairCut) -> Result<Vec<RowCell>, AllocError>
    requires order { cut.now.first < cut.now.second }
    requires second { cut.now.second < length layout.now.lists }
    requires alpha { length cut.now.alpha ≡ list_size layout.now cut.now.first }
    requires beta { length cut.now.beta ≡ list_size layout.now cut.now.second }
    requires small { IsSmall cut.now }
    ensures { IfOk result (λ v. v.items ≡ pair_cells layout.now cut.now) }
{
    let mut cells = Vec::new(alloc);
    push_negated(&mut cells, layout, cut.first, cut.alpha.as_slice())?;
    push_negated(&mut cells, layout, cut.second, cut.beta.as_slice())?;
    push_left(&mut cells, layout, cut.first, &cut.alpha_left)?;
    push_left(&mut cells, layout, cut.second, &cut.beta_left)?;
    let pair = PairAt {
        first: cut.first,
        second: cut.second,
    };
    let column = number_of(layout, &Column::PairValue(pair));
    push_cell(&mut cells, RowCell { column, value: 1 })?;
    Ok(cells)
}
