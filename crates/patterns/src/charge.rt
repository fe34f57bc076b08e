ghost use Rattle.patterns.specs.Price.{off_price, path_price, price_for, rule_price, shifted_minutes, surcharge_price};
ghost use Rattle.station.specs.Shown.{record_of};
ghost use Rattle.station.specs.Station.{IsTrain};
ghost use Rattle.std.specs.List.{list_any};
ghost use Rattle.std.specs.Prelude.{◌≡◌, ◌<◌, ◌*◌, ◌^◌, ◌==◌, find, length, pos, slice_get};

use station::{Pattern, Station, Surcharge, Train};

/// What the pattern costs the train by the rules: `docs/RULES.md`, "The price of a pattern". It takes no memory.
pub fn price(station: &Station, train: usize, pattern: &Pattern) -> i64
    requires { train < length station.now.trains }
    ensures { result ≡ pos (price_for (record_of station.now) (slice_get station.now.trains train) pattern.now) }
{
    match station.trains.get(train) {
        Some(train) => train_price(station, train, pattern) as i64,
        None => 0,
    }
}

#[tactic(auto, unfolding(crate::specs::Price::rule_price))]
pub(crate) fn train_price(station: &Station, train: &Train, pattern: &Pattern) -> u64
    requires { IsTrain (record_of station.now) train.now }
    ensures value { result ≡ rule_price (record_of station.now) train.now pattern.now }
    ensures fits { result < 2 ^ 60 }
{
    let paths = price_of_path(station, pattern.path_in) + price_of_path(station, pattern.path_out);
    let platform = price_off(train, pattern.platform) + price_extra(train, pattern.platform);
    paths + platform + train.shift_price as u64 * shift(train, pattern)
}

fn price_of_path(station: &Station, path: Option<u16>) -> u64
    ensures value { result ≡ path_price (record_of station.now) path }
    ensures fits { result < 2 ^ 32 }
{
    match path {
        Some(number) => match station.paths.get(number as usize) {
            Some(path) => path.price as u64,
            None => 0,
        },
        None => 0,
    }
}

fn price_off(train: &Train, platform: u8) -> u64
    ensures value { result ≡ off_price train.now platform }
    ensures fits { result < 2 ^ 32 }
{
    if is_preferred(train, platform) {
        0
    } else {
        train.off_price as u64
    }
}

fn is_preferred(train: &Train, platform: u8) -> bool
    ensures { result ≡ list_any (λ p. p == platform) train.now.prefer }
{
    train.prefer.as_slice().iter().any(|p| *p == platform)
}

fn price_extra(train: &Train, platform: u8) -> u64
    ensures value { result ≡ surcharge_price train.now platform }
    ensures fits { result < 2 ^ 32 }
{
    match surcharge_on(train, platform) {
        Some(surcharge) => surcharge.price as u64,
        None => 0,
    }
}

fn surcharge_on(train: &Train, platform: u8) -> Option<Surcharge>
    ensures { result ≡ find (λ s. s.platform == platform) train.now.surcharges }
{
    train
        .surcharges
        .as_slice()
        .iter()
        .copied()
        .find(|s| s.platform == platform)
}

fn shift(train: &Train, pattern: &Pattern) -> u64
    ensures value { result ≡ shifted_minutes train.now pattern.now }
    ensures fits { result < 2 ^ 33 }
{
    pattern.arrive.abs_diff(train.arrive) as u64 + pattern.depart.abs_diff(train.depart) as u64
}
