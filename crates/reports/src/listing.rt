// The lines of all patterns of all trains.
ghost use Rattle.patterns.specs.Book.{offers_of, price_at};
ghost use Rattle.reports.specs.Text.{last_word, minutes, pattern_line, patterns_text, places, train_patterns};
ghost use Rattle.station.specs.Shown.{record_of};
ghost use Rattle.std.specs.Fmt.{decimal};
ghost use Rattle.std.specs.Prelude.{◌≡◌, ◌++◌, ◌<◌, length, IfOk, OnOk};

use crate::names::{path_word, platform_name, train_name};
use crate::words::{push_last, push_number, push_word};
use pair_prices::Case;
use station::{Pattern, Station};
use std::alloc::{AllocError, Global};

/// A line for each train and pattern: the train's name, the pattern's number, its platform, its arrival path and its
/// departure path (`*` for none), its minutes and its price (docs/FORMATS.md).
#[tactic(auto, unfolding(crate::specs::Text::patterns_text))]
pub fn patterns_report(alloc: Global, case: &Case) -> Result<Vec<u8>, AllocError>
    ensures { IfOk result (λ text. text.items ≡ patterns_text case.now) }
{
    let trains = case.book().trains();
    let mut text = Vec::new(alloc);
    for train in 0..trains {
        push_train(case, train, &mut text)?;
    }
    Ok(text)
}

fn push_train(case: &Case, train: usize, into: &mut Vec<u8>) -> Result<(), AllocError>
    requires { train < length case.now.book }
    ensures { OnOk result (into.new.items ≡ into.old.items ++ train_patterns case.now train) }
{
    let count = case.book().count(train);
    for number in 0..count {
        push_pattern(case, train, number as u16, into)?;
    }
    Ok(())
}

#[tactic(auto, unfolding(crate::specs::Text::pattern_line))]
fn push_pattern(
    case: &Case,
    train: usize,
    number: u16,
    into: &mut Vec<u8>,
) -> Result<(), AllocError>
    requires train { train < length case.now.book }
    requires number { number < length (offers_of case.now.book train) }
    ensures { OnOk result (into.new.items ≡ into.old.items ++ pattern_line case.now train number) }
{
    let pattern = case.book().get(train, number);
    push_word(train_name(case.station(), train), into)?;
    push_number(number, into)?;
    push_places(case.station(), &pattern, into)?;
    push_minutes(&pattern, into)?;
    push_price(case, train, number, into)?;
    Ok(())
}

fn push_places(station: &Station, x: &Pattern, into: &mut Vec<u8>) -> Result<(), AllocError>
    ensures { OnOk result (into.new.items ≡ into.old.items ++ places (record_of station.now) x.now) }
{
    push_word(platform_name(station, x.platform), into)?;
    push_word(path_word(station, x.path_in), into)?;
    push_word(path_word(station, x.path_out), into)?;
    Ok(())
}

fn push_minutes(x: &Pattern, into: &mut Vec<u8>) -> Result<(), AllocError>
    ensures { OnOk result (into.new.items ≡ into.old.items ++ minutes x.now) }
{
    push_number(x.arrive, into)?;
    push_number(x.depart, into)?;
    Ok(())
}

fn push_price(case: &Case, train: usize, number: u16, into: &mut Vec<u8>) -> Result<(), AllocError>
    requires train { train < length case.now.book }
    requires number { number < length (offers_of case.now.book train) }
    ensures { OnOk result (into.new.items ≡ into.old.items ++ last_word (decimal (price_at case.now.book train number))) }
{
    push_last(case.book().price_of(train, number), into)
}
