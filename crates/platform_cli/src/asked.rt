// What a command asks of a plan.
ghost use Rattle.std.specs.Prelude.{◌≡◌};
ghost use Rattle.diagram.specs.Text.{is_window};
ghost use Rattle.platform_cli.specs.Asked.{bad_window, unless_drawn};

/// The minutes of a chart: from one minute up to but without another.
#[derive(Clone, Copy, Debug, PartialEq, Eq)]
pub(crate) struct Window {
    pub(crate) from: u32,
    pub(crate) to: u32,
}

/// What is reported of a feasible plan.
#[derive(Clone, Copy, Debug, PartialEq, Eq)]
pub(crate) enum Report {
    Cost,
    Platforms(Window),
    Paths(Window),
}

/// A report that is asked for, with the names of the instance and of the plan.
#[derive(Clone, Copy)]
pub(crate) struct Asked<'a> {
    pub(crate) instance: &'a str,
    pub(crate) plan: &'a str,
    pub(crate) report: Report,
}

/// The minutes that are asked for, where no chart has them.
pub(crate) fn bad_window(report: &Report) -> Option<Window>
    ensures { result ≡ bad_window report.now }
{
    match report {
        Report::Cost => None,
        Report::Platforms(window) | Report::Paths(window) => unless_drawn(window),
    }
}

fn unless_drawn(window: &Window) -> Option<Window>
    ensures { result ≡ unless_drawn window.now }
{
    if is_window(window) {
        None
    } else {
        Some(*window)
    }
}

// A chart has 1 to 1,440 minutes.
#[tactic(auto, unfolding(diagram::specs::Text::is_window))]
fn is_window(window: &Window) -> bool
    ensures { result ≡ is_window window.now.from window.now.to }
{
    window.from < window.to && window.to - window.from <= 1_440
}
