//! Charts and the timetable of a feasible plan: `docs/FORMATS.md`, "Charts" and "Reports".
#![tactic(auto)]

mod chart;
mod lines;
mod names;
mod paint;
mod platforms;
mod stage;
mod tracks;
mod trains;

pub use chart::{ChartFault, path_chart, platform_chart};
pub use trains::timetable;
