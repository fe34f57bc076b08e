ghost use Rattle.std.specs.Prelude.{◌≡◌, []};

use crate::key::{MinuteKey, PairKey};
use std::alloc::Global;
use std::collections::BTreeMap;

/// What dual values add up to, over the scale of the duals. What isn't listed is 0.
#[derive(Drop)]
pub(crate) struct Account {
    /// What trains pay.
    pub u: BTreeMap<u16, i128>,
    /// The values of the rows that hold a platform's use to 1.
    pub uses: BTreeMap<u16, i128>,
    /// What is paid for a platform at a minute.
    pub v: BTreeMap<MinuteKey, i128>,
    /// What pairs are paid at patterns of their first trains.
    pub alpha: BTreeMap<PairKey, i128>,
    /// At patterns of their second trains.
    pub beta: BTreeMap<PairKey, i128>,
}

impl Account {
    pub fn new(alloc: Global) -> Account
        ensures u { result.u.entries ≡ [] }
        ensures uses { result.uses.entries ≡ [] }
        ensures v { result.v.entries ≡ [] }
        ensures alpha { result.alpha.entries ≡ [] }
        ensures beta { result.beta.entries ≡ [] }
    {
        Account {
            u: BTreeMap::new(alloc),
            uses: BTreeMap::new(alloc),
            v: BTreeMap::new(alloc),
            alpha: BTreeMap::new(alloc),
            beta: BTreeMap::new(alloc),
        }
    }
}
