ghost use Rattle.std.specs.Prelude.{◌≡◌, ℕ, ◌≤◌, ◌<◌, ◌+◌, ◌*◌, ◌^◌, All, pos, ◌<ℤ◌, ◌≤ℤ◌, length, IfOk, OnOk, IsTrue, OnErr, IsErrOf};
ghost use Rattle.ratio.specs.Cells.{cell_at};
ghost use Rattle.exact_lp.specs.Ends.{AheadIs, PlanIs, SettledIs};
ghost use Rattle.ratio.specs.Ledger.{Raised};
ghost use Rattle.exact_lp.specs.Places.{place_of};
ghost use Rattle.exact_lp.specs.Programs.{CostSame, Holds, IsWithin, reduced_price};
ghost use Rattle.exact_lp.specs.Tables.{IsTableOf};

use crate::answer::{Limits, WeakCause};
use crate::build::{add_column, opened};
use crate::certificate::{all_hold, all_within, same_cost};
use crate::choice::{Rule, entering, improving, leaving, negative};
use crate::duals::Duals;
use crate::listed::Listed;
use crate::point::Point;
use crate::reading::{as_duals, as_point, duals_ahead, read_duals, read_point};
use crate::row::Row;
use crate::source::{Columns, LpFault};
use crate::stage::{Ahead, Plan, Planned, Ready, Settled, Step, Swap};
use crate::table::{Table, Variable, cell, place};
use ratio::{Left, Width};
use std::alloc::Global;

/// The greatest scale of a point or of duals that a source is asked about.
const GREATEST_SCALE: i128 = 1_000_000_000_000_000_000_000_000;

/// Whether the point and the duals show each other least among the duals' rows.
fn passes<C: Columns>(
    columns: &C,
    point: &Point,
    duals: &Duals,
    width: &mut Width,
) -> Result<bool, Left>
    ensures within { IfOk result (λ so. IsTrue so → IsWithin (C.column_count columns.now) point.now.weights) }
    ensures hold { IfOk result (λ so. IsTrue so → All (λ row. Holds row point.now) duals.now.rows) }
    ensures cost { IfOk result (λ so. IsTrue so → CostSame (λ column. pos (C.column_price columns.now column)) point.now duals.now) }
    ensures ledger { width.old ≤ width.new }
    ensures left { OnErr result (Raised width.old width.new) }
{
    if !all_within(point.weights.as_slice(), columns.count()) {
        return Ok(false);
    }
    if !all_hold(duals.rows.as_slice(), point, width)? {
        return Ok(false);
    }
    same_cost(columns, point, duals, width)
}

/// How many cells a table of so many rows and columns has, held at the type's greatest number. There are no more columns
/// than the source has.
pub fn table_cells(rows: usize, columns: usize, count: u64) -> u64
    ensures { result ≤ (rows + 1) * (count + rows + 2) }
{
    let tall = (rows as u64).saturating_add(1);
    let wide = (columns as u64)
        .min(count)
        .saturating_add(rows as u64)
        .saturating_add(2);
    tall.saturating_mul(wide)
}

/// The pivot that brings in a variable with a negative reduced price. There always is one: as prices are at least 0, the cost
/// can't fall without end.
fn plan_in(table: &Table, variable: usize, rule: Rule) -> Step
    requires table { IsTableOf table.now }
    requires within { variable < length table.now.variables.items }
    requires improves { pos 0 <ℤ cell_at table.now.cost (place_of variable) }
{
    match leaving(table, variable, rule) {
        Some(at) => Step::Pivot(Swap { at, variable }),
        None => unreachable!(),
    }
}

/// The pivot that brings in a variable of which the source says that it improves. Where the table doesn't say so, it is out
/// of step.
fn plan_known(table: &Table, variable: usize, rule: Rule) -> Step
    requires table { IsTableOf table.now }
    requires within { variable < length table.now.variables.items }
{
    if cell(&table.cost, place(variable)) <= 0 {
        return Step::Restart;
    }
    plan_in(table, variable, rule)
}

/// How many cells the table has with one more column.
fn cells_with_column(table: &Table, rows: &[Row], count: u64) -> u64
    ensures { result ≤ (length rows.now + 1) * (count + length rows.now + 2) }
{
    table_cells(rows.len(), table.columns().saturating_add(1), count)
}

/// What the round does next: it brings up a negative basic value, then it takes in a variable of the table that
/// improves, then it asks the source for a column, and then it is at an end.
fn plan<C: Columns>(
    alloc: Global,
    columns: &C,
    limits: &Limits,
    table: &mut Table,
    rows: Listed<Row>,
    rule: Rule,
    width: &mut Width,
) -> Result<Plan, LpFault>
    requires table { IsTableOf table.old }
    ensures table { OnOk result (IsTableOf table.new) }
    ensures plan { IfOk result (λ plan. PlanIs (C.column_price columns.now) (C.column_count columns.now) limits.now rows width.old width.new plan) }
    ensures ledger { width.old ≤ width.new }
    ensures left { IsErrOf result LpFault.Left → Raised width.old width.new }
{
    if let Some(at) = negative(table, rule) {
        return plan_up(alloc, columns, limits, table, rows, at, rule, width);
    }
    if let Some(variable) = improving(table, rows.as_slice(), rule) {
        let step = plan_in(table, variable, rule);
        return Ok(Plan::Next(Planned { rows, step }));
    }
    let reading = read_duals(alloc, table, rows.as_slice(), width)?;
    if reading.scale > GREATEST_SCALE {
        return Ok(Plan::End(Settled::Given(WeakCause::Scale(reading.scale))));
    }
    match as_duals(reading, rows) {
        Ok(duals) => plan_priced(alloc, columns, limits, table, duals, rule, width),
        Err(rows) => Ok(Plan::Next(Planned {
            rows,
            step: Step::Restart,
        })),
    }
}

/// The pivot that brings the row's negative value up. Each column that would improve behind it comes into the table
/// first, and then the pivot is chosen anew, so no column improves behind the pivot that is made.
fn plan_up<C: Columns>(
    alloc: Global,
    columns: &C,
    limits: &Limits,
    table: &mut Table,
    rows: Listed<Row>,
    at: usize,
    rule: Rule,
    width: &mut Width,
) -> Result<Plan, LpFault>
    requires table { IsTableOf table.old }
    ensures table { OnOk result (IsTableOf table.new) }
    ensures plan { IfOk result (λ plan. PlanIs (C.column_price columns.now) (C.column_count columns.now) limits.now rows width.old width.new plan) }
    ensures ledger { width.old ≤ width.new }
    ensures left { IsErrOf result LpFault.Left → Raised width.old width.new }
{
    let mut rows = rows;
    // Each turn adds a column, and so at least a cell.
    for _entered in 0..limits.cells {
        let Some(variable) = entering(table, rows.as_slice(), at, rule) else {
            break;
        };
        let swap = Swap { at, variable };
        match look_ahead(alloc, columns, limits, table, rows, swap, width)? {
            Ahead::Clear(rows) => {
                return Ok(Plan::Next(Planned {
                    rows,
                    step: Step::Pivot(swap),
                }));
            }
            Ahead::Entered(back) => rows = back,
            Ahead::Stopped(cause) => return Ok(Plan::End(Settled::Given(cause))),
        }
    }
    Ok(Plan::Next(Planned {
        rows,
        step: Step::Restart,
    }))
}

/// Prices the columns under the duals that the pivot would leave, and adds one that improves there.
fn look_ahead<C: Columns>(
    alloc: Global,
    columns: &C,
    limits: &Limits,
    table: &mut Table,
    rows: Listed<Row>,
    swap: Swap,
    width: &mut Width,
) -> Result<Ahead, LpFault>
    requires table { IsTableOf table.old }
    ensures table { OnOk result (IsTableOf table.new) }
    ensures ahead { IfOk result (λ ahead. AheadIs (C.column_count columns.now) limits.now rows width.old width.new ahead) }
    ensures ledger { width.old ≤ width.new }
    ensures left { IsErrOf result LpFault.Left → Raised width.old width.new }
{
    let reading = duals_ahead(alloc, table, rows.as_slice(), swap, width)?;
    if reading.scale > GREATEST_SCALE {
        return Ok(Ahead::Stopped(WeakCause::Scale(reading.scale)));
    }
    let duals = match as_duals(reading, rows) {
        Ok(duals) => duals,
        Err(rows) => return Ok(Ahead::Clear(rows)),
    };
    let found = columns.improving(alloc, &duals, width)?;
    let Duals { rows, .. } = duals;
    let Some(column) = found else {
        return Ok(Ahead::Clear(rows));
    };
    if table.variable(Variable::Column(column)).is_some() {
        return Ok(Ahead::Clear(rows));
    }
    let cells = cells_with_column(table, rows.as_slice(), columns.count());
    if cells > limits.cells {
        return Ok(Ahead::Stopped(WeakCause::Cells(cells)));
    }
    add_column(alloc, table, columns, rows.as_slice(), column, width)?;
    Ok(Ahead::Entered(rows))
}

/// What the round does next, once no row and no variable of the table asks for a pivot.
fn plan_priced<C: Columns>(
    alloc: Global,
    columns: &C,
    limits: &Limits,
    table: &Table,
    duals: Duals,
    rule: Rule,
    width: &mut Width,
) -> Result<Plan, LpFault>
    requires scale { duals.scale ≤ℤ pos (10 ^ 24) }
    requires table { IsTableOf table.now }
    ensures plan { IfOk result (λ plan. PlanIs (C.column_price columns.now) (C.column_count columns.now) limits.now duals.rows width.old width.new plan) }
    ensures ledger { width.old ≤ width.new }
    ensures left { IsErrOf result LpFault.Left → Raised width.old width.new }
{
    match columns.improving(alloc, &duals, width)? {
        Some(column) => Ok(plan_column(columns, limits, table, duals, column, rule)),
        None => plan_end(alloc, columns, limits, table, duals, width),
    }
}

/// A pivot on the improving column, which may be new to the table.
fn plan_column<C: Columns>(
    columns: &C,
    limits: &Limits,
    table: &Table,
    duals: Duals,
    column: u64,
    rule: Rule,
) -> Plan
    requires { IsTableOf table.now }
    ensures { (old new : ℕ) → PlanIs (C.column_price columns.now) (C.column_count columns.now) limits.now duals.rows old new result }
{
    let Duals { rows, .. } = duals;
    if let Some(variable) = table.variable(Variable::Column(column)) {
        return Plan::Next(Planned {
            rows,
            step: plan_known(table, variable, rule),
        });
    }
    let cells = cells_with_column(table, rows.as_slice(), columns.count());
    if cells > limits.cells {
        return Plan::End(Settled::Given(WeakCause::Cells(cells)));
    }
    Plan::Next(Planned {
        rows,
        step: Step::Enter(column),
    })
}

/// The end of the round's pivoting, where the point and the duals pass.
fn plan_end<C: Columns>(
    alloc: Global,
    columns: &C,
    limits: &Limits,
    table: &Table,
    duals: Duals,
    width: &mut Width,
) -> Result<Plan, LpFault>
    requires scale { duals.scale ≤ℤ pos (10 ^ 24) }
    requires priced { (column : ℕ) → column < C.column_count columns.now → pos 0 ≤ℤ reduced_price (pos (C.column_price columns.now column)) duals column }
    ensures plan { IfOk result (λ plan. PlanIs (C.column_price columns.now) (C.column_count columns.now) limits.now duals.rows width.old width.new plan) }
    ensures ledger { width.old ≤ width.new }
    ensures left { IsErrOf result LpFault.Left → Raised width.old width.new }
{
    let reading = read_point(alloc, table, width)?;
    if reading.scale > GREATEST_SCALE {
        return Ok(Plan::End(Settled::Given(WeakCause::Scale(reading.scale))));
    }
    if let Some(point) = as_point(reading) {
        if passes(columns, &point, &duals, width)? {
            return Ok(Plan::End(Settled::Shown(Ready { point, duals })));
        }
    }
    let Duals { rows, .. } = duals;
    Ok(Plan::Next(Planned {
        rows,
        step: Step::Restart,
    }))
}

/// Makes the step.
fn make<C: Columns>(
    alloc: Global,
    columns: &C,
    own: &[u64],
    table: &mut Table,
    rows: &[Row],
    step: Step,
    rule: Rule,
    width: &mut Width,
) -> Result<(), LpFault>
    requires table { IsTableOf table.old }
    ensures table { OnOk result (IsTableOf table.new) }
    ensures ledger { width.old ≤ width.new }
    ensures left { IsErrOf result LpFault.Left → Raised width.old width.new }
{
    match step {
        Step::Pivot(swap) => table.swap(alloc, swap, width)?,
        Step::Enter(column) => {
            let variable = add_column(alloc, table, columns, rows, column, width)?;
            if let Some(at) = leaving(table, variable, rule) {
                table.swap(alloc, Swap { at, variable }, width)?;
            }
        }
        Step::Restart => *table = opened(alloc, columns, rows, own, width)?,
    }
    Ok(())
}

/// Pivots until no column improves.
pub fn settle<C: Columns>(
    alloc: Global,
    columns: &C,
    limits: &Limits,
    own: &[u64],
    table: &mut Table,
    rows: Listed<Row>,
    width: &mut Width,
) -> Result<Settled, LpFault>
    requires table { IsTableOf table.old }
    ensures table { OnOk result (IsTableOf table.new) }
    ensures settled { IfOk result (λ settled. SettledIs (C.column_price columns.now) (C.column_count columns.now) limits.now rows width.old width.new settled) }
    ensures ledger { width.old ≤ width.new }
    ensures left { IsErrOf result LpFault.Left → Raised width.old width.new }
{
    let mut rows = rows;
    for made in 0..u64::from(limits.pivots) + 1 {
        let rule = Rule::after(made);
        match plan(alloc, columns, limits, table, rows, rule, width)? {
            Plan::End(settled) => return Ok(settled),
            Plan::Next(next) => {
                if made == u64::from(limits.pivots) {
                    break;
                }
                make(
                    alloc,
                    columns,
                    own,
                    table,
                    next.rows.as_slice(),
                    next.step,
                    rule,
                    width,
                )?;
                rows = next.rows;
            }
        }
    }
    Ok(Settled::Given(WeakCause::Pivots(limits.pivots)))
}
