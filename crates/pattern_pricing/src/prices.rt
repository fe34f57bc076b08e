ghost use Rattle.pattern_pricing.specs.Layout.{IsColumn, columns_of};
ghost use Rattle.pattern_pricing.specs.Positions.{list_size, patterns_in, start_of};
ghost use Rattle.pattern_pricing.specs.Prices.{IsLayoutOf, price_of_column, prices_of};
ghost use Rattle.pair_prices.specs.Plan.{platform_price};
ghost use Rattle.pair_prices.specs.Top.{top_of};
ghost use Rattle.patterns.specs.Allowed.{list_of};
ghost use Rattle.patterns.specs.Book.{price_at};
ghost use Rattle.std.specs.Prelude.{◌≡◌, ◌+◌, ◌<◌, ◌≤◌, length, slice_index};

use crate::column::Column;
use crate::layout::Layout;
use pair_prices::Case;

/// The column's price.
pub(crate) fn price_of(case: &Case, layout: &Layout, column: &Column) -> u64
    requires layout { IsLayoutOf case.now layout.now }
    requires column { IsColumn layout.now column.now }
    ensures { result ≡ price_of_column case.now layout.now column.now }
{
    match column {
        Column::Weight(at) => pattern_price(case, layout, at.train, at.place),
        Column::LeftOut(_) => top(case),
        Column::PlatformUse(platform) => use_price(case, *platform),
        Column::PairValue(_) => 1,
    }
}

/// The price of the train's pattern at that place.
pub(crate) fn pattern_price(case: &Case, layout: &Layout, train: usize, place: usize) -> u64
    requires layout { IsLayoutOf case.now layout.now }
    requires train { train < length layout.now.lists }
    requires place { place < list_size layout.now train }
    ensures { result ≡ price_at case.now.book train (slice_index (list_of layout.now.lists train) place) }
{
    let number = layout.number_at(train, place);
    case.book().price_of(train, number) as u64
}

/// TOP, the price of a left-out weight.
fn top(case: &Case) -> u64
    ensures { result ≡ top_of case.now }
{
    case.top() as u64
}

/// The platform's price.
fn use_price(case: &Case, platform: usize) -> u64
    ensures { result ≡ platform_price case.now platform }
{
    match case.station().platforms.get(platform) {
        Some(platform) => platform.price as u64,
        None => 0,
    }
}

/// The price of a column that is no pattern, by its number.
pub(crate) fn rest_price(case: &Case, layout: &Layout, number: u64) -> u64
    requires layout { IsLayoutOf case.now layout.now }
    requires rest { patterns_in layout.now ≤ number }
    requires inside { number < length (columns_of layout.now) }
    ensures { result ≡ slice_index (prices_of case.now layout.now) number }
{
    let uses = layout.lefts() + layout.trains() as u64;
    if number < uses {
        return top(case);
    }
    let pairs = uses + layout.platforms() as u64;
    if number < pairs {
        return use_price(case, (number - uses) as usize);
    }
    1
}
