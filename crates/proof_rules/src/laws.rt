ghost use Rattle.proof_rules.specs.Laws.{AcceptedExactly, RefusalsStay};

/// The bytes come to a bound exactly where they are the text of a tree that stands, and of that bound.
pub fn accepted_exactly()
    ensures { AcceptedExactly }
{}

/// What is refused stays refused, whatever bytes come behind: a checker needs to read no further.
pub fn refusals_stay()
    ensures { RefusalsStay }
{}
