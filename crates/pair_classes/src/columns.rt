// The sealed prices of two trains' patterns.
ghost use Rattle.patterns.specs.Book.{offers_of};
ghost use Rattle.pair_classes.specs.Classes.{column, columns_of, picked_line, picked_lines};
ghost use Rattle.pair_classes.specs.Groups.{line_at};
ghost use Rattle.std.specs.Prelude.{◌≡◌, ◌≢◌, ◌<◌, ◌≤◌, length, flat_map, pos, slice_index_or, All, IfOk};

use pair_prices::Case;
use sequence::Sequence;
use std::alloc::{AllocError, Global};

/// For each pattern of the second train its prices beside all patterns of the first.
pub(crate) fn columns(
    alloc: Global,
    case: &Case,
    first: usize,
    second: usize,
) -> Result<Vec<Sequence<i64>>, AllocError>
    requires two { first ≢ second }
    requires first { first < length case.now.book }
    requires second { second < length case.now.book }
    ensures value { IfOk result (λ v. v.items ≡ columns_of case.now first second) }
    ensures most { IfOk result (λ v. length v.items ≤ 4096) }
{
    let mut columns = Vec::new(alloc);
    for number in 0..case.book().count(second) as u16 {
        columns.push(column(alloc, case, first, second, number)?)?;
    }
    Ok(columns)
}

fn column(
    alloc: Global,
    case: &Case,
    first: usize,
    second: usize,
    number: u16,
) -> Result<Sequence<i64>, AllocError>
    requires two { first ≢ second }
    requires first { first < length case.now.book }
    requires second { second < length case.now.book }
    requires number { number < length (offers_of case.now.book second) }
    ensures { IfOk result (λ s. s ≡ column case.now first second number) }
{
    let mut prices = Vec::new(alloc);
    for other in 0..case.book().count(first) as u16 {
        prices.push(case.sealed(first, other, second, number))?;
    }
    Ok(Sequence::from_vec(prices))
}

/// For each place below `count` the prices that the picked lines have there.
pub(crate) fn across(
    alloc: Global,
    lines: &[Sequence<i64>],
    picked: &[u16],
    count: usize,
) -> Result<Vec<Sequence<i64>>, AllocError>
    requires picked { All (λ h. h < length lines.now) picked.now }
    requires lines { All (λ line. length line ≡ count) lines.now }
    ensures { IfOk result (λ v. v.items ≡ picked_lines lines.now picked.now count) }
{
    let mut rows = Vec::new(alloc);
    for place in 0..count {
        rows.push(row_across(alloc, lines, picked, place)?)?;
    }
    Ok(rows)
}

fn row_across(
    alloc: Global,
    lines: &[Sequence<i64>],
    picked: &[u16],
    place: usize,
) -> Result<Sequence<i64>, AllocError>
    requires picked { All (λ h. h < length lines.now) picked.now }
    requires lines { All (λ line. place < length line) lines.now }
    ensures { IfOk result (λ s. s ≡ picked_line lines.now picked.now place) }
{
    let mut row = Vec::new(alloc);
    for line in picked {
        row.push(price_in(&lines[*line as usize], place))?;
    }
    Ok(Sequence::from_vec(row))
}

fn price_in(line: &Sequence<i64>, place: usize) -> i64
    requires { place < length line.now }
    ensures { result ≡ slice_index_or line.now place (pos 0) }
{
    line.as_slice()[place]
}

/// The picked lines, one behind the other.
pub(crate) fn joined(
    alloc: Global,
    lines: &[Sequence<i64>],
    picked: &[u16],
) -> Result<Vec<i64>, AllocError>
    requires { All (λ h. h < length lines.now) picked.now }
    ensures { IfOk result (λ v. v.items ≡ flat_map (line_at lines.now) picked.now) }
{
    let mut prices = Vec::new(alloc);
    for line in picked {
        prices.extend_from_slice(lines[*line as usize].as_slice())?;
    }
    Ok(prices)
}
