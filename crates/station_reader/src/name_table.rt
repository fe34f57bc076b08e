// The names that a list declares, for look-ups that would be too many for a search of the list.
ghost use Rattle.std.specs.Prelude.{◌≡◌, IfOk, map};
ghost use Rattle.serde_json.specs.View.{view};
ghost use Rattle.station_reader.specs.First.{occurs};
ghost use Rattle.station_reader.specs.Naming.{named};
ghost use Rattle.station_reader.specs.Reading.{number_of};
ghost use Rattle.station_reader.specs.Passes.{AllNew};

use crate::form::Naming;
use crate::names::name_in;
use indexmap::IndexSet;
use serde_json::Value;
use std::alloc::{AllocError, Global};
use std::marker::Model;

/// Names of which none stands again, each found by its hash. Contracts see it as the list of the names.
#[derive(Drop)]
pub(crate) struct NameTable<'v> {
    names: IndexSet<&'v str>,
}

impl<'v> Model for NameTable<'v> {
    ghost use Rattle.std.specs.Prelude.{List, ℕ, map};

    ghost Value = { List (List ℕ) };

    ghost view = { λ t. map (λ s. s.now) t.names.keys };
}

impl<'v> NameTable<'v> {
    /// The names of the entries, in their order.
    pub(crate) fn of(
        alloc: Global,
        naming: Naming,
        entries: &'v [Value],
    ) -> Result<NameTable<'v>, AllocError>
        requires { AllNew (map (named naming) (map view entries.now)) }
        ensures { IfOk result (λ t. t ≡ map (named naming) (map view entries.now)) }
    {
        let mut names = IndexSet::with_capacity(alloc, entries.len())?;
        for entry in entries {
            names.insert(name_in(naming, entry))?;
        }
        Ok(NameTable { names })
    }

    /// Whether the name is one of them.
    pub(crate) fn has(&self, name: &str) -> bool
        ensures { result ≡ occurs name.now self.now }
    {
        self.names.contains(name)
    }

    /// The place of the name, or 0 where it is none of them.
    pub(crate) fn number(&self, name: &str) -> usize
        ensures { result ≡ number_of self.now name.now }
    {
        self.names.get_index_of(name).unwrap_or(0)
    }
}
