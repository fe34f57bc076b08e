ghost use Rattle.plan_cost.specs.PlanText.{TextsAreUnique};

/// Two plans with equal texts are equal.
pub fn texts_are_unique()
    ensures { TextsAreUnique }
{}
