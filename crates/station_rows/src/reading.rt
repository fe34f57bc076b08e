ghost use Rattle.exact_lp.specs.Columns.{AreAscendingWeights};
ghost use Rattle.pattern_pricing.specs.Positions.{list_size, patterns_in, start_of};
ghost use Rattle.station_rows.specs.Points.{ArePointWeights, IsWeightOf, value_column, weight_at};
ghost use Rattle.station_rows.specs.Written.{AreWeights, train_part, train_parts};
ghost use Rattle.std.specs.List.{between};
ghost use Rattle.std.specs.Prelude.{◌≡◌, ℕ, ◌+◌, ◌<◌, ◌≤◌, ◌==◌, if◌then◌else◌, length, pos, replicate, slice_index_or, IfOk};

use exact_lp::{ColumnWeight, Point};
use pattern_pricing::{Column, Layout, PairAt};
use patterns::Weights;
use sequence::Sequence;
use std::alloc::{AllocError, Global};

/// The weights and uses that a point gives to the layout's columns, 0 where it lists none. It goes once over what the point lists.
///
/// # Errors
/// `AllocError` where the lists find no memory.
pub fn weights_of_point(
    alloc: Global,
    layout: &Layout,
    point: &Point,
) -> Result<Weights, AllocError>
    ensures { IfOk result (ArePointWeights layout.now point.now) }
{
    let trains = layout.trains();
    let platforms = layout.platforms();
    let lefts = layout.start(trains) as usize;
    let uses = lefts + trains;
    let all = weights_before(alloc, point.weights.as_slice(), uses + platforms)?;
    let weight = weights_by_train(alloc, layout, &all)?;
    let left = part(alloc, &all, lefts, trains)?;
    let used = part(alloc, &all, uses, platforms)?;
    Ok(Weights {
        scale: point.scale,
        weight: Sequence::from_vec(weight),
        left,
        uses: used,
    })
}

/// The point's value of two trains, 0 where it lists none. Found by halves.
pub fn pair_value_at(layout: &Layout, point: &Point, first: usize, second: usize) -> i128
    requires order { first < second }
    requires second { second < length layout.now.lists }
    ensures { IsWeightOf layout.now point.now (value_column first second) result }
{
    let number = layout.number(&Column::PairValue(PairAt { first, second }));
    weight_among(point.weights.as_slice(), number)
}

/// The weight of a column.
fn weight_among(weights: &[ColumnWeight], column: u64) -> i128
    requires { AreAscendingWeights weights.now }
    ensures { result ≡ weight_at weights.now column }
{
    match weights.binary_search_by_key(&column, |weight| weight.column) {
        Ok(at) => weights[at].weight,
        Err(_) => 0,
    }
}

/// The weights of the first so many columns.
fn weights_before(
    alloc: Global,
    weights: &[ColumnWeight],
    count: usize,
) -> Result<Vec<i128>, AllocError>
    ensures { IfOk result (λ v. AreWeights weights.now count v.items) }
{
    let mut all = zeros(alloc, count)?;
    write_all(&mut all, weights);
    Ok(all)
}

fn zeros(alloc: Global, count: usize) -> Result<Vec<i128>, AllocError>
    ensures { IfOk result (λ v. v.items ≡ replicate count (pos 0)) }
{
    Ok(vec![in alloc; 0i128; count]?)
}

/// Writes each weight at its column's number, where there is a place for it.
fn write_all(all: &mut [i128], weights: &[ColumnWeight])
    requires { (k : ℕ) → k < length all.old → slice_index_or all.old k (pos 0) ≡ pos 0 }
    ensures { (k : ℕ) → k < length all.old → slice_index_or all.new k (pos 0) ≡ weight_at weights.now k }
{
    for place in (0..weights.len()).rev() {
        write(all, &weights[place]);
    }
}

fn write(all: &mut [i128], weight: &ColumnWeight)
    ensures { (k : ℕ) → k < length all.old → slice_index_or all.new k (pos 0)
        ≡ (if weight.now.column == k then weight.now.weight else slice_index_or all.old k (pos 0)) }
{
    if weight.column < all.len() as u64 {
        all[weight.column as usize] = weight.weight;
    }
}

/// The weights of each train's patterns.
fn weights_by_train(
    alloc: Global,
    layout: &Layout,
    all: &[i128],
) -> Result<Vec<Sequence<i128>>, AllocError>
    requires { patterns_in layout.now ≤ length all.now }
    ensures { IfOk result (λ v. v.items ≡ train_parts layout.now all.now (length layout.now.lists)) }
{
    let mut lists = Vec::new(alloc);
    let trains = layout.trains();
    for train in 0..trains {
        let list = weights_of_train(alloc, layout, all, train)?;
        lists.push(list)?;
    }
    Ok(lists)
}

fn weights_of_train(
    alloc: Global,
    layout: &Layout,
    all: &[i128],
    train: usize,
) -> Result<Sequence<i128>, AllocError>
    requires train { train < length layout.now.lists }
    requires long { patterns_in layout.now ≤ length all.now }
    ensures { IfOk result (λ s. s ≡ train_part layout.now all.now train) }
{
    part(alloc, all, layout.start(train) as usize, layout.size(train))
}

/// So many weights from that place on.
fn part(
    alloc: Global,
    all: &[i128],
    from: usize,
    count: usize,
) -> Result<Sequence<i128>, AllocError>
    requires { from + count ≤ length all.now }
    ensures { IfOk result (λ s. s ≡ between from (from + count) all.now) }
{
    let weights = Vec::from_slice(alloc, &all[from..from + count])?;
    Ok(Sequence::from_vec(weights))
}
