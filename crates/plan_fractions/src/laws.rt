ghost use Rattle.plan_fractions.specs.Laws.{PlanIsFractional, RootValueBounds, TopMeansNoPlan};

/// A law: a feasible plan gives a fractional plan of scale 1 over the full lists, with the same cost.
pub fn plan_is_fractional()
    ensures { PlanIsFractional }
{}

/// A law: no feasible plan costs less than the root value.
pub fn root_value_bounds()
    ensures { RootValueBounds }
{}

/// A law: where the root value is at least TOP, no plan is feasible.
pub fn top_means_no_plan()
    ensures { TopMeansNoPlan }
{}
