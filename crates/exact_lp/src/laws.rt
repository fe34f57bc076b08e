ghost use Rattle.exact_lp.specs.Laws.{DualsBoundPoints};

/// Where no column has a negative reduced price, no point at which the duals' rows hold costs less than the duals.
pub fn duals_bound_points()
    ensures { DualsBoundPoints }
{}
