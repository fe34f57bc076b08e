ghost use Rattle.station_rows.specs.Laws.{LeastPointsBoundPlans, PlansArePoints, PointsArePlans, TablesMakePlans};

/// A law: where the opening rows and all rows that stand hold at a point, its weights are those of a fractional plan, and no cut on
/// two trains is worth more than its value of the two.
pub fn points_are_plans()
    ensures { PointsArePlans }
{}

/// A law: a point's weights, with a table for each pair of trains that costs at most the point's value of the two, are a fractional
/// plan that costs at most what the point does.
pub fn tables_make_plans()
    ensures { TablesMakePlans }
{}

/// A law: each fractional plan gives a point of the same scale and cost at which all rows hold.
pub fn plans_are_points()
    ensures { PlansArePoints }
{}

/// A law: no fractional plan costs less than a least point.
pub fn least_points_bound_plans()
    ensures { LeastPointsBoundPlans }
{}
