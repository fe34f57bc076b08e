ghost use Rattle.diagram.specs.Text.{line_of, timetable_text, train_line, times};
ghost use Rattle.pair_prices.specs.Plan.{Fits, IsFeasible, chosen};
ghost use Rattle.patterns.specs.Sound.{IsSound};
ghost use Rattle.station.specs.Shown.{record_of};
ghost use Rattle.std.specs.Prelude.{◌≡◌, ◌++◌, ◌<◌, length, IfOk, OnOk};

use crate::lines::push_word;
use crate::names::{path_word, platform_name, train_name};
use pair_prices::Case;
use plan_cost::Plan;
use station::{Pattern, Station};
use std::alloc::{AllocError, Global};

/// The pattern that the plan gives the train.
pub(crate) fn pattern_of(case: &Case, plan: &Plan, train: usize) -> Pattern
    requires fits { Fits case.now plan.now.choice }
    requires train { train < length case.now.book }
    ensures value { result ≡ chosen case.now plan.now.choice train }
    ensures sound { IsSound case.now.station result }
{
    // The station keeps the limits of the minutes.
    let _station = case.station();
    case.book().get(train, plan.choice.as_slice()[train])
}

/// A line for each train: its name, platform, paths (`*` for none) and minutes, with one space between.
///
/// # Errors
/// `AllocError` where the text finds no memory.
pub fn timetable(alloc: Global, case: &Case, plan: &Plan) -> Result<Vec<u8>, AllocError>
    requires { IsFeasible case.now plan.now.choice }
    ensures { IfOk result (λ t. t.items ≡ timetable_text case.now plan.now.choice) }
{
    let trains = case.book().trains();
    let mut text = Vec::new(alloc);
    for train in 0..trains {
        let pattern = pattern_of(case, plan, train);
        push_train(alloc, case.station(), train, &pattern, &mut text)?;
    }
    Ok(text)
}

fn push_train(
    alloc: Global,
    station: &Station,
    train: usize,
    x: &Pattern,
    into: &mut Vec<u8>,
) -> Result<(), AllocError>
    ensures { OnOk result (into.new.items ≡ into.old.items ++ line_of (record_of station.now) train x.now) }
{
    push_word(train_name(station, train), into)?;
    push_word(platform_name(station, x.platform as usize), into)?;
    push_word(path_word(station, x.path_in), into)?;
    push_word(path_word(station, x.path_out), into)?;
    push_times(alloc, x, into)?;
    Ok(())
}

fn push_times(alloc: Global, x: &Pattern, into: &mut Vec<u8>) -> Result<(), AllocError>
    ensures { OnOk result (into.new.items ≡ into.old.items ++ times x.now) }
{
    let text = format!(in alloc; "{} {}\n", x.arrive, x.depart)?;
    into.extend_from_slice(text.as_bytes())
}
