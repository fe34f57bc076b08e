ghost use Rattle.std.specs.Prelude.{◌≡◌, ◌⊎◌, ◌<◌, [], pos, ◌<ℤ◌, ◌≤ℤ◌, Some, All, IfSome, IfNone, length, slice_index_or};
ghost use Rattle.ratio.specs.Cells.{cell_at};
ghost use Rattle.exact_lp.specs.Places.{place_of};

use crate::row::Row;
use crate::table::{SCALE, Table, Variable, cell, place};
use ratio::Ratio;
use std::cmp::Ordering;

/// Which pivot is made. Little is proved of it, since an exact end rests on its own tests alone.
#[derive(Clone, Copy, Debug, PartialEq, Eq)]
pub enum Rule {
    /// The greatest of what a pivot would bring. It is quick, but may go round in a circle.
    Greatest,
    /// The first in the order of the variables, which never comes back to a basis.
    First,
}

/// After so many pivots of a round the rule is `First`.
const PATIENCE: u64 = 1_000;

impl Rule {
    /// The rule for a round's next pivot.
    pub fn after(pivots: u64) -> Rule {
        if pivots < PATIENCE {
            Rule::Greatest
        } else {
            Rule::First
        }
    }
}

/// A fraction whose terms may have a divisor in common.
#[derive(Clone, Copy)]
struct Quotient {
    num: i128,
    den: i128,
    ghost positive: { pos 0 <ℤ den },
}

impl Quotient {
    /// Compares by cross products, and by lowest terms where they leave 128 bits.
    fn order(&self, other: &Quotient) -> Ordering {
        match (
            self.num.checked_mul(other.den),
            other.num.checked_mul(self.den),
        ) {
            (Some(own), Some(others)) => own.cmp(&others),
            _ => Ratio::new(self.num, self.den).cmp(&Ratio::new(other.num, other.den)),
        }
    }
}

/// A row or a variable with its ratio. Among equal ratios one of higher rank is taken.
#[derive(Clone, Copy)]
struct Candidate {
    at: usize,
    ratio: Quotient,
    rank: usize,
}

/// The better of the best so far and one more: that of greater ratio, then that of higher rank, then the first.
fn better(best: Option<Candidate>, next: Candidate) -> Candidate
    ensures { (result ≡ next) ⊎ (best ≡ Some result) }
{
    match best {
        None => next,
        Some(old) => match next.ratio.order(&old.ratio) {
            Ordering::Greater => next,
            Ordering::Equal if next.rank > old.rank => next,
            _ => old,
        },
    }
}

/// The row with the least basic value below 0, or the first by its basic variable.
pub fn negative(table: &Table, rule: Rule) -> Option<usize> {
    let mut best: Option<Candidate> = None;
    for (at, row) in table.rows.iter().enumerate() {
        let basic = table.basic(at);
        let den = cell(row, place(basic));
        if cell(row, SCALE) > 0 && den > 0 {
            let ratio = match rule {
                Rule::Greatest => Quotient {
                    num: cell(row, SCALE),
                    den,
                },
                Rule::First => Quotient { num: 0, den: 1 },
            };
            let rank = usize::MAX - basic;
            best = Some(better(best, Candidate { at, ratio, rank }));
        }
    }
    best.map(|b| b.at)
}

/// The row that the variable enters, so that no basic value falls below 0: of least ratio, and among these one whose
/// own scale the pivot is, or the first by its basic variable.
pub fn leaving(table: &Table, variable: usize, rule: Rule) -> Option<usize>
    ensures some { IfSome result (λ at. pos 0 <ℤ cell_at (slice_index_or table.now.rows.items at []) (place_of variable)) }
    ensures none { IfNone result (All (λ row. cell_at row (place_of variable) ≤ℤ pos 0) table.now.rows.items) }
{
    let mut best: Option<Candidate> = None;
    for (at, row) in table.rows.iter().enumerate() {
        let den = cell(row, place(variable));
        if den > 0 {
            let num = cell(row, SCALE);
            let basic = table.basic(at);
            let rank = match rule {
                Rule::Greatest => usize::from(cell(row, place(basic)) == den),
                Rule::First => usize::MAX - basic,
            };
            let ratio = Quotient { num, den };
            best = Some(better(best, Candidate { at, ratio, rank }));
        }
    }
    best.map(|b| b.at)
}

/// The variable that a row with a negative basic value takes in, so that no reduced price falls below 0: of least
/// ratio, and among these one whose pivot is the row's own scale, or the first.
pub fn entering(table: &Table, rows: &[Row], at: usize, rule: Rule) -> Option<usize> {
    let mut best: Option<Candidate> = None;
    let own = table.entry(at, table.basic(at));
    for (v, variable) in table.variables.iter().enumerate() {
        let entry = table.entry(at, v);
        if entry < 0 && entry != i128::MIN && may_enter(rows, variable) {
            let num = cell(&table.cost, place(v));
            let den = -entry;
            let rank = match rule {
                Rule::Greatest => usize::from(den == own),
                Rule::First => 0,
            };
            let ratio = Quotient { num, den };
            best = Some(better(best, Candidate { at: v, ratio, rank }));
        }
    }
    best.map(|b| b.at)
}

/// The variable of the table with the most negative reduced price, or the first with one. A reduced price of 0 is none.
pub fn improving(table: &Table, rows: &[Row], rule: Rule) -> Option<usize>
    ensures within { IfSome result (λ variable. variable < length table.now.variables.items) }
    ensures improves { IfSome result (λ variable. pos 0 <ℤ cell_at table.now.cost (place_of variable)) }
{
    let mut best: Option<Candidate> = None;
    for (v, variable) in table.variables.iter().enumerate() {
        let gain = cell(&table.cost, place(v));
        if gain > 0 && may_enter(rows, variable) {
            let num = match rule {
                Rule::Greatest => gain,
                Rule::First => 0,
            };
            let ratio = Quotient { num, den: 1 };
            best = Some(better(
                best,
                Candidate {
                    at: v,
                    ratio,
                    rank: 0,
                },
            ));
        }
    }
    best.map(|b| b.at)
}

/// The spare variable of an equal row stays 0.
fn may_enter(rows: &[Row], variable: &Variable) -> bool {
    match variable {
        Variable::Column(_) => true,
        Variable::Spare(row) => rows.get(*row).is_some_and(|r| !r.equal),
    }
}
