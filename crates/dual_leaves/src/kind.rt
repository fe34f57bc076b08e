ghost use Rattle.dual_leaves.specs.Kinds.{kind_at, IsKind, IsStationRow};
ghost use Rattle.exact_lp.specs.Outcomes.{NamesBelow};
ghost use Rattle.pair_prices.specs.Case.{CaseRecord};
ghost use Rattle.pattern_pricing.specs.Layout.{columns_of};
ghost use Rattle.std.specs.Prelude.{◌≡◌, length, IfSome, IfNone};

use exact_lp::Row;
use pattern_pricing::{Column, Layout, PairAt};

/// What a row of the bound holds to.
#[derive(Clone, Copy)]
pub(crate) enum RowKind {
    /// The weights of the train's choices are 1 in total.
    Train(usize),
    /// The platform's use is at most 1.
    Use(usize),
    /// The weights that hold the platform at some minute are at most its use.
    Clique(usize),
    /// The value of the two trains is at least what a cut on them is worth.
    Pair(PairAt),
}

/// What kind a column of the row tells by the row's value there.
fn kind_at(equal: bool, column: &Column, value: &i128) -> Option<RowKind>
    ensures { result ≡ kind_at equal column.now value.now }
{
    match column {
        Column::Weight(_) => None,
        Column::LeftOut(train) => {
            if equal && *value != 0 {
                Some(RowKind::Train(*train))
            } else {
                None
            }
        }
        Column::PlatformUse(platform) => {
            if *value > 0 {
                Some(RowKind::Clique(*platform))
            } else if *value < 0 {
                Some(RowKind::Use(*platform))
            } else {
                None
            }
        }
        Column::PairValue(at) => {
            if *value != 0 {
                Some(RowKind::Pair(*at))
            } else {
                None
            }
        }
    }
}

/// The kind of the row, by its columns. A row of the bound has one.
pub(crate) fn kind_of(layout: &Layout, row: &Row) -> Option<RowKind>
    requires { NamesBelow (length (columns_of layout.now)) row.now }
    ensures some { IfSome result (λ kind. (c : CaseRecord) → IsStationRow c layout.now row.now → IsKind c layout.now row.now kind) }
    ensures none { IfNone result ((c : CaseRecord) → IsStationRow c layout.now row.now → ⊥) }
{
    let cells = row.cells.as_slice();
    for cell in cells {
        let column = layout.column(cell.column);
        if let Some(kind) = kind_at(row.equal, &column, &cell.value) {
            return Some(kind);
        }
    }
    None
}
