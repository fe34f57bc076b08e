ghost use Rattle.pair_prices.specs.Fraction.{holds_there, pattern_of};
ghost use Rattle.pattern_pricing.specs.Layout.{IsColumn};
ghost use Rattle.pattern_pricing.specs.declared.column.Column.TheVariants.{LeftOut};
ghost use Rattle.pattern_pricing.specs.Positions.{list_size, position};
ghost use Rattle.pattern_pricing.specs.Prices.{IsLayoutOf};
ghost use Rattle.path_conflicts.specs.Minutes.{is_within};
ghost use Rattle.patterns.specs.Sound.{IsSound};
ghost use Rattle.station_rows.specs.Contents.{cell_at, held_cells, held_value, kept_cell, train_cells};
ghost use Rattle.std.specs.Prelude.{◌≡◌, ◌++◌, ◌<◌, ◌≤◌, length, pos, neg_ℤ, unsigned_abs, All, OnOk};
ghost use Rattle.transport.specs.Coupling.{at};

use clique_cuts::CliqueCut;
use exact_lp::RowCell;
use pair_prices::{Case, held_platform};
use path_conflicts::Held;
use pattern_pricing::{Column, Layout, WeightAt};
use station::Pattern;
use std::alloc::AllocError;

/// The column's number.
pub(crate) fn number_of(layout: &Layout, column: &Column) -> u64
    requires { IsColumn layout.now column.now }
    ensures { result ≡ position layout.now column.now }
{
    layout.number(column)
}

/// Adds the cell at the end, unless its value is 0.
pub(crate) fn push_cell(cells: &mut Vec<RowCell>, cell: RowCell) -> Result<(), AllocError>
    ensures { OnOk result (cells.new.items ≡ cells.old.items ++ kept_cell cell) }
{
    if cell.value != 0 {
        cells.push(cell)?;
    }
    Ok(())
}

/// Adds a cell of the value 1 for each of the train's patterns.
pub(crate) fn push_ones(
    cells: &mut Vec<RowCell>,
    layout: &Layout,
    train: usize,
) -> Result<(), AllocError>
    requires { train < length layout.now.lists }
    ensures { OnOk result (cells.new.items
        ≡ cells.old.items ++ train_cells layout.now train (λ place. pos 1) (list_size layout.now train)) }
{
    let size = layout.size(train);
    for place in 0..size {
        let column = number_of(layout, &Column::Weight(WeightAt { train, place }));
        push_cell(cells, RowCell { column, value: 1 })?;
    }
    Ok(())
}

/// Adds a cell for each of the train's patterns, with the number there in the other sign.
pub(crate) fn push_negated(
    cells: &mut Vec<RowCell>,
    layout: &Layout,
    train: usize,
    numbers: &[i128],
) -> Result<(), AllocError>
    requires train { train < length layout.now.lists }
    requires long { length numbers.now ≡ list_size layout.now train }
    requires small { All (λ a. unsigned_abs a ≤ 1_000_000_000_000_000) numbers.now }
    ensures { OnOk result (cells.new.items
        ≡ cells.old.items ++ train_cells layout.now train (λ place. neg_ℤ (at numbers.now place)) (list_size layout.now train)) }
{
    for place in 0..numbers.len() {
        let column = number_of(layout, &Column::Weight(WeightAt { train, place }));
        let value = negated(numbers, place);
        push_cell(cells, RowCell { column, value })?;
    }
    Ok(())
}

/// The number at that place, in the other sign.
fn negated(numbers: &[i128], place: usize) -> i128
    requires place { place < length numbers.now }
    requires small { All (λ a. unsigned_abs a ≤ 1_000_000_000_000_000) numbers.now }
    ensures { result ≡ neg_ℤ (at numbers.now place) }
{
    -numbers[place]
}

/// Adds a cell of the value -1 for each pattern of each train that holds the platform of the cut at its minute.
pub(crate) fn push_held(
    cells: &mut Vec<RowCell>,
    case: &Case,
    layout: &Layout,
    cut: &CliqueCut,
) -> Result<(), AllocError>
    requires { IsLayoutOf case.now layout.now }
    ensures { OnOk result (cells.new.items
        ≡ cells.old.items ++ held_cells case.now layout.now cut.now.platform cut.now.minute (length layout.now.lists)) }
{
    let trains = layout.trains();
    for train in 0..trains {
        push_held_of(cells, case, layout, train, cut)?;
    }
    Ok(())
}

/// The same of one train.
fn push_held_of(
    cells: &mut Vec<RowCell>,
    case: &Case,
    layout: &Layout,
    train: usize,
    cut: &CliqueCut,
) -> Result<(), AllocError>
    requires layout { IsLayoutOf case.now layout.now }
    requires train { train < length layout.now.lists }
    ensures { OnOk result (cells.new.items ≡ cells.old.items
        ++ train_cells layout.now train (held_value case.now layout.now cut.now.platform cut.now.minute train) (list_size layout.now train)) }
{
    let size = layout.size(train);
    for place in 0..size {
        let column = number_of(layout, &Column::Weight(WeightAt { train, place }));
        let value = held_value(case, layout, train, place, cut);
        push_cell(cells, RowCell { column, value })?;
    }
    Ok(())
}

/// -1 where the pattern at that place of the train's list holds the platform of the cut at its minute, and 0 elsewhere.
fn held_value(case: &Case, layout: &Layout, train: usize, place: usize, cut: &CliqueCut) -> i128
    requires layout { IsLayoutOf case.now layout.now }
    requires train { train < length layout.now.lists }
    requires place { place < list_size layout.now train }
    ensures { result ≡ held_value case.now layout.now cut.now.platform cut.now.minute train place }
{
    let pattern = pattern_at(case, layout, train, place);
    if holds(case, &pattern, cut) { -1 } else { 0 }
}

/// The pattern at that place of the train's list.
fn pattern_at(case: &Case, layout: &Layout, train: usize, place: usize) -> Pattern
    requires layout { IsLayoutOf case.now layout.now }
    requires train { train < length layout.now.lists }
    requires place { place < list_size layout.now train }
    ensures value { result ≡ pattern_of case.now layout.now.lists train place }
    ensures sound { IsSound case.now.station result }
{
    // The patterns keep the limits of the case.
    let _station = case.station();
    listed(case, layout, train, place)
}

/// The same, with no word on the limits of the case.
fn listed(case: &Case, layout: &Layout, train: usize, place: usize) -> Pattern
    requires layout { IsLayoutOf case.now layout.now }
    requires train { train < length layout.now.lists }
    requires place { place < list_size layout.now train }
    ensures { result ≡ pattern_of case.now layout.now.lists train place }
{
    case.book().get(train, layout.number_at(train, place))
}

/// Whether the pattern holds the platform of the cut at its minute.
fn holds(case: &Case, pattern: &Pattern, cut: &CliqueCut) -> bool
    requires { IsSound case.now.station pattern.now }
    ensures { result ≡ holds_there case.now cut.now.platform cut.now.minute pattern.now }
{
    pattern.platform == cut.platform && is_inside(&held_platform(case.station(), pattern), cut)
}

/// Whether the minute of the cut is one of these.
fn is_inside(held: &Held, cut: &CliqueCut) -> bool
    ensures { result ≡ is_within held.now.start held.now.end cut.now.minute }
{
    held.start <= cut.minute && cut.minute < held.end
}

/// Adds a cell for leaving the train out, with the number in the other sign.
pub(crate) fn push_left(
    cells: &mut Vec<RowCell>,
    layout: &Layout,
    train: usize,
    number: &i128,
) -> Result<(), AllocError>
    requires train { train < length layout.now.lists }
    requires small { unsigned_abs number.now ≤ 1_000_000_000_000_000 }
    ensures { OnOk result (cells.new.items ≡ cells.old.items ++ cell_at layout.now (LeftOut train) (neg_ℤ number.now)) }
{
    let column = number_of(layout, &Column::LeftOut(train));
    let cell = RowCell {
        column,
        value: -*number,
    };
    push_cell(cells, cell)?;
    Ok(())
}
