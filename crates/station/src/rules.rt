// That the list of a train's patterns is what the rules allow.
ghost use Rattle.station.specs.Shown.{record_of};
ghost use Rattle.station.specs.Rules.{ListsAllowed, ListsAscend};

use crate::station::Station;

/// The law of the lists of patterns ("Allowed patterns" in docs/RULES.md): a pattern is in a train's
/// list exactly where the rules allow it, and the list is in its order. The call itself does nothing.
pub fn lists_allowed_patterns(station: &Station)
    ensures allowed { ListsAllowed (record_of station.now) }
    ensures ascending { ListsAscend (record_of station.now) }
{}
