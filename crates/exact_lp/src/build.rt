ghost use Rattle.std.specs.Prelude.{◌≡◌, ℕ, ◌≤◌, ◌+◌, ◌<◌, ◌++◌, ◌∷◌, [], List, map, pos, ◌≤ℤ◌, ◌<ℤ◌, ◌*ℤ◌, ◌-ℤ◌, length, true, IfOk, OnOk, OnErr, IsErrOf};
ghost use Rattle.ratio.specs.Cells.{cell_at};
ghost use Rattle.ratio.specs.Ledger.{Raised};
ghost use Rattle.exact_lp.specs.Places.{place_of};
ghost use Rattle.exact_lp.specs.Tables.{IsNewRow, IsNewSpare, IsPriceRow, IsTableOf, combination};

use crate::row::Row;
use crate::source::{Columns, LpFault};
use crate::stage::Swap;
use crate::table::{COST, Table, Variable, append, cell, clear, place, signed_least, signed_value};
use ratio::whole::{difference, product, sum};
use ratio::{IntRow, Left, Width};
use std::alloc::{AllocError, Global};

/// A table of the opening rows, each with its own column in the basis.
pub fn opened<C: Columns>(
    alloc: Global,
    columns: &C,
    rows: &[Row],
    own: &[u64],
    width: &mut Width,
) -> Result<Table, LpFault>
    ensures table { IfOk result IsTableOf }
    ensures ledger { width.old ≤ width.new }
    ensures left { IsErrOf result LpFault.Left → Raised width.old width.new }
{
    let mut table = Table {
        rows: Vec::new(alloc),
        cost: first_cost(alloc, columns, own, width)?,
        variables: opening_variables(alloc, own)?,
        basis: Vec::new(alloc),
        spares: Vec::new(alloc),
    };
    add_opening(alloc, &mut table, rows, own.len(), width)?;
    Ok(table)
}

/// The opening columns as variables.
fn opening_variables(alloc: Global, own: &[u64]) -> Result<Vec<Variable>, AllocError>
    ensures { IfOk result (λ variables. length variables.items ≡ length own.now) }
{
    own.iter()
        .map(|column| Variable::Column(*column))
        .collect(alloc)
}

/// The cost row with the prices of the opening columns.
fn first_cost<C: Columns>(
    alloc: Global,
    columns: &C,
    own: &[u64],
    width: &mut Width,
) -> Result<IntRow, LpFault>
    ensures prices { IfOk result (IsPriceRow (length own.now)) }
    ensures ledger { width.old ≤ width.new }
    ensures left { IsErrOf result LpFault.Left → Raised width.old width.new }
{
    let mut cells = Vec::new(alloc);
    cells.push(0i128)?;
    cells.push(1)?;
    for column in own {
        let price = price_of(columns, *column);
        let cell = difference(0, price, width)?;
        cells.push(cell)?;
    }
    Ok(IntRow::new(cells))
}

/// The price of a column, and 0 where it isn't there.
fn price_of<C: Columns>(columns: &C, column: u64) -> i128
    ensures { pos 0 ≤ℤ result }
{
    if column < columns.count() {
        i128::from(columns.price(column))
    } else {
        0
    }
}

/// Adds the rows, and makes the k-th variable basic in the k-th of the first so many.
fn add_opening(
    alloc: Global,
    table: &mut Table,
    rows: &[Row],
    opening: usize,
    width: &mut Width,
) -> Result<(), LpFault>
    requires { IsTableOf table.old }
    ensures table { OnOk result (IsTableOf table.new) }
    ensures ledger { width.old ≤ width.new }
    ensures left { IsErrOf result LpFault.Left → Raised width.old width.new }
{
    for (at, row) in rows.iter().enumerate() {
        add_row(alloc, table, row, width)?;
        make_own_basic(alloc, table, at, opening, width)?;
    }
    Ok(())
}

/// Makes the variable of the row's number basic in it, where the row is one of the first so many.
fn make_own_basic(
    alloc: Global,
    table: &mut Table,
    at: usize,
    opening: usize,
    width: &mut Width,
) -> Result<(), Left>
    requires { IsTableOf table.old }
    ensures table { OnOk result (IsTableOf table.new) }
    ensures ledger { width.old ≤ width.new }
    ensures left { OnErr result (Raised width.old width.new) }
{
    if at >= opening {
        return Ok(());
    }
    table.swap(alloc, Swap { at, variable: at }, width)
}

/// Adds a given row, with its spare variable in the basis.
pub fn add_row(
    alloc: Global,
    table: &mut Table,
    row: &Row,
    width: &mut Width,
) -> Result<(), LpFault>
    requires { IsTableOf table.old }
    ensures table { OnOk result (IsTableOf table.new) }
    ensures ledger { width.old ≤ width.new }
    ensures left { IsErrOf result LpFault.Left → Raised width.old width.new }
{
    let number = table.rows.len();
    let spare = table.add_spare(alloc, number)?;
    let line = cleared_line(alloc, table, row, spare, width)?;
    table.rows.push(line)?;
    table.basis.push(spare)?;
    Ok(())
}

/// A given row as a row of the table, taken out of the basic variables' columns.
fn cleared_line(
    alloc: Global,
    table: &Table,
    row: &Row,
    spare: usize,
    width: &mut Width,
) -> Result<IntRow, LpFault>
    requires table { IsTableOf table.now }
    requires spare { IsNewSpare table.now spare }
    ensures line { IfOk result (IsNewRow table.now.basis.items (length table.now.variables.items) spare (length table.now.rows.items)) }
    ensures ledger { width.old ≤ width.new }
    ensures left { IsErrOf result LpFault.Left → Raised width.old width.new }
{
    let mut line = IntRow::new(written(alloc, &table.variables, row, spare, width)?);
    for (at, other) in table.rows.iter().enumerate() {
        clear(&mut line, other, place(table.basic(at)), width)?;
    }
    Ok(line)
}

/// A given row as cells, with 1 at its own spare variable.
fn written(
    alloc: Global,
    variables: &[Variable],
    row: &Row,
    spare: usize,
    width: &mut Width,
) -> Result<Vec<i128>, LpFault>
    requires { spare < length variables.now }
    ensures size { IfOk result (λ cells. length cells.items ≡ length variables.now + 2) }
    ensures costless { IfOk result (λ cells. cell_at cells.items 1 ≡ pos 0) }
    ensures own { IfOk result (λ cells. cell_at cells.items (spare + 2) ≡ pos 1) }
    ensures ledger { width.old ≤ width.new }
    ensures left { IsErrOf result LpFault.Left → Raised width.old width.new }
{
    let mut cells = Vec::new(alloc);
    cells.push(signed_least(row, width)?)?;
    cells.push(0)?;
    for (at, variable) in variables.iter().enumerate() {
        cells.push(written_cell(row, variable, at == spare, width)?)?;
    }
    Ok(cells)
}

/// A given row's cell at a variable: 1 at its own spare variable, and 0 at another row's.
fn written_cell(
    row: &Row,
    variable: &Variable,
    is_own: bool,
    width: &mut Width,
) -> Result<i128, Left>
    ensures own { is_own ≡ true → IfOk result (λ value. value ≡ pos 1) }
    ensures ledger { width.old ≤ width.new }
    ensures left { OnErr result (Raised width.old width.new) }
{
    if is_own {
        return Ok(1);
    }
    match variable {
        Variable::Column(column) => signed_value(row, *column, width),
        Variable::Spare(_) => Ok(0),
    }
}

/// Adds a column of the source, with the cells that the pivots so far would have left in it.
pub fn add_column<C: Columns>(
    alloc: Global,
    table: &mut Table,
    columns: &C,
    rows: &[Row],
    column: u64,
    width: &mut Width,
) -> Result<usize, LpFault>
    requires { IsTableOf table.old }
    ensures table { OnOk result (IsTableOf table.new) }
    ensures at { IfOk result (λ at. at < length table.new.variables.items) }
    ensures ledger { width.old ≤ width.new }
    ensures left { IsErrOf result LpFault.Left → Raised width.old width.new }
{
    let values = column_values(alloc, rows, column, width)?;
    let price = price_of(columns, column);
    add_priced(alloc, table, column, &values, price, width)
}

/// Adds a column with the given rows' values and a price.
fn add_priced(
    alloc: Global,
    table: &mut Table,
    column: u64,
    values: &[i128],
    price: i128,
    width: &mut Width,
) -> Result<usize, LpFault>
    requires table { IsTableOf table.old }
    requires price { pos 0 ≤ℤ price }
    ensures table { OnOk result (IsTableOf table.new) }
    ensures at { IfOk result (λ at. at < length table.new.variables.items) }
    ensures ledger { width.old ≤ width.new }
    ensures left { IsErrOf result LpFault.Left → Raised width.old width.new }
{
    let at = table.variables.len();
    table.variables.push(Variable::Column(column))?;
    add_cells(alloc, &mut table.rows, &table.spares, values, width)?;
    let paid = combined(&table.cost, &table.spares, values, width)?;
    let full = product(cell(&table.cost, COST), price, width)?;
    let value = difference(paid, full, width)?;
    append(alloc, &mut table.cost, value)?;
    Ok(at)
}

/// Adds to each row its cell in a new column.
fn add_cells(
    alloc: Global,
    rows: &mut [IntRow],
    spares: &[usize],
    values: &[i128],
    width: &mut Width,
) -> Result<(), LpFault>
    ensures added { OnOk result (rows.new ≡ map (λ row. row ++ combination row spares.now values.now ∷ []) rows.old) }
    ensures ledger { width.old ≤ width.new }
    ensures left { IsErrOf result LpFault.Left → Raised width.old width.new }
{
    for row in rows.iter_mut() {
        let value = combined(row, spares, values, width)?;
        append(alloc, row, value)?;
    }
    Ok(())
}

/// The values of the given rows at a column, with their signs in the table.
fn column_values(
    alloc: Global,
    rows: &[Row],
    column: u64,
    width: &mut Width,
) -> Result<Vec<i128>, LpFault>
    ensures ledger { width.old ≤ width.new }
    ensures left { IsErrOf result LpFault.Left → Raised width.old width.new }
{
    let mut values = Vec::new(alloc);
    for row in rows {
        values.push(signed_value(row, column, width)?)?;
    }
    Ok(values)
}

/// The sum over the given rows of what the line has of each, which is its spare variable's cell, times its value.
fn combined(
    line: &IntRow,
    spares: &[usize],
    values: &[i128],
    width: &mut Width,
) -> Result<i128, Left>
    ensures value { IfOk result (λ total. total ≡ combination line.now spares.now values.now) }
    ensures ledger { width.old ≤ width.new }
    ensures left { OnErr result (Raised width.old width.new) }
{
    let mut total = 0i128;
    for (at, spare) in spares.iter().enumerate() {
        let value = value_or_zero(values, at);
        let part = share(line, *spare, value, width)?;
        total = sum(total, part, width)?;
    }
    Ok(total)
}

/// The value at a place, and 0 past the end.
fn value_or_zero(values: &[i128], at: usize) -> i128
    ensures { result ≡ cell_at values.now at }
{
    values.get(at).copied().unwrap_or(0)
}

/// The line's cell at a spare variable times a value.
fn share(line: &IntRow, spare: usize, value: i128, width: &mut Width) -> Result<i128, Left>
    ensures value { IfOk result (λ part. part ≡ cell_at line.now (place_of spare) *ℤ value) }
    ensures ledger { width.old ≤ width.new }
    ensures left { OnErr result (Raised width.old width.new) }
{
    if value == 0 {
        return Ok(0);
    }
    product(cell(line, place(spare)), value, width)
}
