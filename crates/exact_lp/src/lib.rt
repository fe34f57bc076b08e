//! An engine for linear programs in whole numbers. A source of columns prices them by need, a source of rows finds
//! violated ones, and an exact answer has a point and duals that show each other least.
#![tactic(auto)]

pub mod answer;
mod build;
mod certificate;
mod choice;
pub mod duals;
pub mod engine;
mod laws;
pub mod listed;
pub mod point;
mod reading;
mod round;
pub mod row;
pub mod source;
mod stage;
mod table;

pub use answer::{Limits, Outcome, Solved, WeakCause};
pub use certificate::{all_within, holds, point_cost};
pub use duals::Duals;
pub use engine::Engine;
pub use laws::duals_bound_points;
pub use listed::Listed;
pub use point::{ColumnWeight, Point};
pub use row::{Row, RowCell};
pub use source::{Columns, Cuts, LpFault, Opening};
