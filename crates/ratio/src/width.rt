ghost use Rattle.std.specs.Prelude.{◌≡◌, ◌≤◌, ◌-◌, ◌^◌};
ghost use Rattle.ratio.specs.Ledger.{Rose};

use std::marker::Model;

/// A number would have left 128 bits.
#[derive(Clone, Copy, Debug, PartialEq, Eq)]
pub struct Left;

/// A ledger of the results that left 128 bits. It rises by one at each `Left` of this crate, or stands at the last value
/// of its type. Nothing else changes it.
#[derive(Drop)]
pub struct Width {
    count: u64,
}

impl Model for Width {
    ghost use Rattle.std.specs.Prelude.{ℕ, ◌<◌, ◌^◌};

    ghost Value = { ℕ };

    ghost view = { λ w. w.count };
}

impl Width {
    /// A ledger that has counted nothing.
    pub fn new() -> Width
        ensures { result ≡ 0 }
    {
        Width { count: 0 }
    }

    /// How often a result left 128 bits.
    pub fn left(&self) -> u64
        ensures { result ≡ self.now }
    {
        self.count
    }

    pub(crate) fn record_left(&mut self) -> Left
        ensures { Rose self.old self.new }
    {
        self.count = self.count.saturating_add(1);
        Left
    }
}
