ghost use Rattle.diagram.specs.Signs.{ShowsEachTrain};
ghost use Rattle.diagram.specs.Text.{is_window, path_text, platform_text};
ghost use Rattle.pair_prices.specs.Plan.{Fits, IsFeasible};
ghost use Rattle.std.specs.Prelude.{◌≡◌, ◌↔◌, ◌<◌, ◌≤◌, ◌-◌, false, true, IfOk, IsErrOf};

use crate::lines::heading;
use crate::platforms::push_platform;
use crate::tracks::push_path;
use pair_prices::Case;
use plan_cost::Plan;
use std::alloc::{AllocError, Global};

/// Why there is no chart.
#[derive(Clone, Copy, PartialEq, Eq, Debug, Drop)]
pub enum ChartFault {
    /// No memory was found.
    Memory,
    /// A chart has 1 to 1,440 minutes, and this one wouldn't.
    Window,
}

/// The chart of the platforms from minute `from` up to `to`, which is left out: a line for each platform with `>` at an
/// arrival, `=` where a train stands, `+` in its headway and `.` where the platform is free.
///
/// # Errors
/// `Window` exactly where `to` isn't 1 to 1,440 above `from`, and `Memory` where none was found.
pub fn platform_chart(
    alloc: Global,
    case: &Case,
    plan: &Plan,
    from: u32,
    to: u32,
) -> Result<Vec<u8>, ChartFault>
    requires { IsFeasible case.now plan.now.choice }
    ensures text { IfOk result (λ t. t.items ≡ platform_text case.now plan.now.choice from to) }
    ensures window { IsErrOf result ChartFault.Window ↔ is_window from to ≡ false }
    // Wherever a train holds its platform, its sign stands there, whatever the other trains do.
    ensures each_train { ShowsEachTrain case.now plan.now.choice }
{
    // The station keeps the limits of the minutes.
    let _station = case.station();
    if !is_window(from, to) {
        return Err(ChartFault::Window);
    }
    platform_lines(alloc, case, plan, from, to).map_err(|_| ChartFault::Memory)
}

/// The chart of the paths from minute `from` up to `to`, which is left out: a line for each path with the number of uses that
/// hold it, `.` for none and `*` for ten or more.
///
/// # Errors
/// `Window` exactly where `to` isn't 1 to 1,440 above `from`, and `Memory` where none was found.
pub fn path_chart(
    alloc: Global,
    case: &Case,
    plan: &Plan,
    from: u32,
    to: u32,
) -> Result<Vec<u8>, ChartFault>
    requires { IsFeasible case.now plan.now.choice }
    ensures text { IfOk result (λ t. t.items ≡ path_text case.now plan.now.choice from to) }
    ensures window { IsErrOf result ChartFault.Window ↔ is_window from to ≡ false }
{
    if !is_window(from, to) {
        return Err(ChartFault::Window);
    }
    path_lines(alloc, case, plan, from, to).map_err(|_| ChartFault::Memory)
}

#[tactic(auto, unfolding(crate::specs::Text::is_window))]
fn is_window(from: u32, to: u32) -> bool
    ensures value { result ≡ is_window from to }
    ensures order { result ≡ true → from < to }
    ensures most { result ≡ true → to - from ≤ 1440 }
{
    from < to && to - from <= 1440
}

fn platform_lines(
    alloc: Global,
    case: &Case,
    plan: &Plan,
    from: u32,
    to: u32,
) -> Result<Vec<u8>, AllocError>
    requires fits { Fits case.now plan.now.choice }
    requires order { from < to }
    requires most { to - from ≤ 1440 }
    ensures { IfOk result (λ t. t.items ≡ platform_text case.now plan.now.choice from to) }
{
    let count = (to - from) as usize;
    let platforms = case.station().platforms.len();
    let mut text = heading(alloc, from, to)?;
    for platform in 0..platforms {
        push_platform(alloc, case, plan, platform, from, count, &mut text)?;
    }
    Ok(text)
}

fn path_lines(
    alloc: Global,
    case: &Case,
    plan: &Plan,
    from: u32,
    to: u32,
) -> Result<Vec<u8>, AllocError>
    requires fits { Fits case.now plan.now.choice }
    requires order { from < to }
    requires most { to - from ≤ 1440 }
    ensures { IfOk result (λ t. t.items ≡ path_text case.now plan.now.choice from to) }
{
    let count = (to - from) as usize;
    let paths = case.station().paths.len();
    let mut text = heading(alloc, from, to)?;
    for path in 0..paths {
        push_path(alloc, case, plan, path, from, count, &mut text)?;
    }
    Ok(text)
}
