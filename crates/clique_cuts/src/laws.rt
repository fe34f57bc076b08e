ghost use Rattle.clique_cuts.specs.Laws.{ArrivalsSuffice};

/// A law: if a platform is within its use at the arrival of each listed pattern, it is so at every minute. Weight comes to a platform only
/// at arrivals.
pub fn arrivals_suffice()
    ensures { ArrivalsSuffice }
{}
