ghost use Rattle.leaf_bounds.specs.Listed.{pair_key};
ghost use Rattle.proof_check.specs.Sums.{AreKeyed, AreListed, AreLists, IsAdded};
ghost use Rattle.proof_check.specs.Tables.{group_of};
ghost use Rattle.std.specs.BTreeMap.{insert_entry, IsOrdered};
ghost use Rattle.std.specs.Ordering.{nat_cmp};
ghost use Rattle.std.specs.Prelude.{◌≡◌, ◌<◌, [], ◌∷◌, ◌++◌, length, OnOk};

use crate::side::Side;
use crate::splits::Splits;
use crate::stop::Stop;
use crate::sums::{Sums, add_table, put};
use crate::table::Table;
use leaf_bounds::{PairValue, UseOf};
use std::alloc::{AllocError, Global};
use std::collections::BTreeMap;

/// The potentials of an open leaf on one side of its pairs.
#[derive(Drop)]
pub(crate) struct Potentials {
    /// What the leaf lists.
    pub listed: Vec<PairValue>,
    /// At each pattern that, and what its uses add.
    pub sums: Sums,
}

impl Potentials {
    pub(crate) fn new(alloc: Global) -> Potentials
        ensures listed { result.listed.items ≡ [] }
        ensures sums { result.sums.entries ≡ [] }
    {
        Potentials {
            listed: Vec::new(alloc),
            sums: BTreeMap::new(alloc),
        }
    }

    /// Lists an entry.
    pub(crate) fn push(&mut self, x: &PairValue) -> Result<(), AllocError>
        requires first { x.now.first < 200 }
        requires second { x.now.second < 200 }
        ensures listed { OnOk result (self.new.listed.items ≡ self.old.listed.items ++ x.now ∷ []) }
        ensures sums { OnOk result (self.new.sums.entries ≡ insert_entry nat_cmp self.old.sums.entries (pair_key x.now) x.now) }
        ensures ordered { OnOk result (IsOrdered nat_cmp self.new.sums) }
    {
        self.listed.push(*x)?;
        put(&mut self.sums, x)?;
        Ok(())
    }

    /// Adds a table's numbers, times the factor of the use, at the train's allowed numbers.
    pub(crate) fn add(
        &mut self,
        splits: &Splits,
        side: Side,
        table: &Table,
        used: &UseOf,
    ) -> Result<(), Stop>
        requires lists { AreLists splits.now.lists.lists }
        requires there { table.now.second < length splits.now.lists.lists }
        requires keyed { AreKeyed self.old.sums }
        requires listed { AreListed splits.now.lists.lists side self.old.sums }
        ensures added { IsAdded splits.now.lists.lists side (group_of table.now) used.now.factor self.old.sums self.new.sums result }
        ensures same { self.new.listed ≡ self.old.listed }
    {
        add_table(&mut self.sums, splits, side, table, used)
    }
}
