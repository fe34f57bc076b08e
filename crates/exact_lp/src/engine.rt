ghost use Rattle.std.specs.Prelude.{◌≡◌, ℕ, ◌≤◌, ◌+◌, ◌*◌, ◌↔◌, ◌++◌, ◌∷◌, [], All, pos, length, IfOk, IsErrOf};
ghost use Rattle.exact_lp.specs.Answers.{MayCause};
ghost use Rattle.exact_lp.specs.Outcomes.{AreScalesBounded, IfExact, IfWeak, NamesBelow};
ghost use Rattle.ratio.specs.Ledger.{Raised};
ghost use Rattle.exact_lp.specs.Programs.{IsLeast, ShowsLeast};
ghost use Rattle.exact_lp.specs.declared.row.Row.{Row};

use crate::answer::{Limits, Outcome, Solved, WeakCause};
use crate::build::{add_row, opened};
use crate::duals::Duals;
use crate::listed::Listed;
use crate::round::{settle, table_cells};
use crate::row::Row;
use crate::source::{Columns, Cuts, LpFault, Opening};
use crate::stage::{Ready, Settled};
use crate::table::Table;
use ratio::Width;
use std::alloc::{AllocError, Global};

/// The engine. docs/ALGORITHM.md says how it works.
pub struct Engine;

impl Engine {
    /// A least point over the columns under the opening rows and all rows that stand, with duals that show it.
    ///
    /// The condition is that all rows name columns below the count. `Exact` is least by the clause `least`. `Weak` says
    /// why there is no exact answer, and then nothing is known of a least point. The ledger counts each number that left
    /// 128 bits. The source of rows keeps both its meanings. The only error is want of memory.
    pub fn optimise<C: Columns, K: Cuts>(
        alloc: Global,
        columns: &C,
        cuts: &mut K,
        limits: &Limits,
        width: &mut Width,
    ) -> Result<Outcome, AllocError>
        requires opening { All (λ row. NamesBelow (C.column_count columns.now) row) (K.opening_rows cuts.old) }
        requires standing { (row : Row) → K.stands cuts.old row → NamesBelow (C.column_count columns.now) row }
        ensures exact { IfOk result (λ outcome. IfExact outcome (λ solved. ShowsLeast (λ column. pos (C.column_price columns.now column)) (C.column_count columns.now) (K.opening_rows cuts.old) (K.stands cuts.old) solved.point solved.duals)) }
        ensures least { IfOk result (λ outcome. IfExact outcome (λ solved. IsLeast (λ column. pos (C.column_price columns.now column)) (C.column_count columns.now) (K.opening_rows cuts.old) (K.stands cuts.old) solved.point)) }
        ensures scales { IfOk result (λ outcome. IfExact outcome AreScalesBounded) }
        ensures weak { IfOk result (λ outcome. IfWeak outcome (MayCause limits.now (length (K.opening_rows cuts.old) + limits.now.rounds) (C.column_count columns.now) width.old width.new)) }
        ensures same_opening { K.opening_rows cuts.new ≡ K.opening_rows cuts.old }
        ensures same_standing { (row : Row) → K.stands cuts.new row ↔ K.stands cuts.old row }
        ensures ledger { width.old ≤ width.new }
    {
        match search(alloc, columns, cuts, limits, width) {
            Ok(outcome) => Ok(outcome),
            Err(LpFault::Left) => Ok(Outcome::Weak(WeakCause::Left)),
            Err(LpFault::Memory) => Err(AllocError),
        }
    }
}

/// `Engine::optimise`, with want of memory and of width as faults.
fn search<C: Columns, K: Cuts>(
    alloc: Global,
    columns: &C,
    cuts: &mut K,
    limits: &Limits,
    width: &mut Width,
) -> Result<Outcome, LpFault>
    requires opening { All (λ row. NamesBelow (C.column_count columns.now) row) (K.opening_rows cuts.old) }
    requires standing { (row : Row) → K.stands cuts.old row → NamesBelow (C.column_count columns.now) row }
    ensures exact { IfOk result (λ outcome. IfExact outcome (λ solved. ShowsLeast (λ column. pos (C.column_price columns.now column)) (C.column_count columns.now) (K.opening_rows cuts.old) (K.stands cuts.old) solved.point solved.duals)) }
    ensures scales { IfOk result (λ outcome. IfExact outcome AreScalesBounded) }
    ensures weak { IfOk result (λ outcome. IfWeak outcome (MayCause limits.now (length (K.opening_rows cuts.old) + limits.now.rounds) (C.column_count columns.now) width.old width.new)) }
    ensures same_opening { K.opening_rows cuts.new ≡ K.opening_rows cuts.old }
    ensures same_standing { (row : Row) → K.stands cuts.new row ↔ K.stands cuts.old row }
    ensures ledger { width.old ≤ width.new }
    ensures left { IsErrOf result LpFault.Left → Raised width.old width.new }
{
    let Opening { rows, columns: own } = cuts.opening(alloc)?;
    let mut rows = rows;
    let first = table_cells(rows.as_slice().len(), own.as_slice().len(), columns.count());
    if first > limits.cells {
        return Ok(Outcome::Weak(WeakCause::Cells(first)));
    }
    let mut table = opened(alloc, columns, rows.as_slice(), own.as_slice(), width)?;
    for _round in 0..limits.rounds {
        let ready = match settle(
            alloc,
            columns,
            limits,
            own.as_slice(),
            &mut table,
            rows,
            width,
        )? {
            Settled::Shown(ready) => ready,
            Settled::Given(cause) => return Ok(Outcome::Weak(cause)),
        };
        let Ready { point, duals } = ready;
        let Some(row) = cuts.violated(alloc, &point, width)? else {
            return Ok(Outcome::Exact(Solved { point, duals }));
        };
        let cells = next_cells(&table, duals.rows.as_slice(), columns.count());
        if cells > limits.cells {
            return Ok(Outcome::Weak(WeakCause::Cells(cells)));
        }
        add_row(alloc, &mut table, &row, width)?;
        rows = with_row(duals, row)?;
    }
    Ok(Outcome::Weak(WeakCause::Rounds(limits.rounds)))
}

/// How many cells the table would have with one more row.
fn next_cells(table: &Table, rows: &[Row], count: u64) -> u64
    ensures { result ≤ (length rows.now + 2) * (count + length rows.now + 3) }
{
    table_cells(rows.len().saturating_add(1), table.columns(), count)
}

/// The rows of the duals, and one more.
fn with_row(duals: Duals, row: Row) -> Result<Listed<Row>, AllocError>
    ensures { IfOk result (λ rows. rows ≡ duals.rows ++ row ∷ []) }
{
    let Duals { rows, .. } = duals;
    let mut list = rows.into_vec();
    list.push(row)?;
    Ok(Listed::new(list))
}
