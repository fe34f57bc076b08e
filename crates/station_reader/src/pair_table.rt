// Which pairs of paths are listed as incompatible.
ghost use Rattle.std.specs.Prelude.{◌≡◌, ◌||◌, length, IfOk};
ghost use Rattle.station.specs.declared.part.PathPair.{PathPair};
ghost use Rattle.station_reader.specs.Reading.{same_pair};
ghost use Rattle.station_reader.specs.Marked.{is_marked, AreUnmarked, IsNumbered};

use station::PathPair;
use std::alloc::{AllocError, Global};
use std::marker::Model;

/// How many numbers a path may have.
const PATHS: usize = 500;

/// A mark for each two numbers of paths, in either order. Contracts see it as the list of the marks,
/// row by row.
#[derive(Drop)]
pub(crate) struct PairTable {
    marks: Vec<bool>,
}

impl Model for PairTable {
    ghost use Rattle.std.specs.Prelude.{◌≡◌, List, Bool, length};

    ghost Value = { List Bool };

    ghost view = { λ t. t.marks.items };

    ghost invariant = { λ t. length t.marks.items ≡ 250_000 };
}

impl PairTable {
    /// A table without a mark.
    pub(crate) fn new(alloc: Global) -> Result<PairTable, AllocError>
        ensures { IfOk result AreUnmarked }
    {
        let marks = unmarked(alloc, PATHS * PATHS)?;
        Ok(PairTable { marks })
    }

    /// Marks the pair in both orders.
    pub(crate) fn mark(&mut self, pair: PathPair)
        requires { IsNumbered pair }
        ensures { (x : PathPair) → IsNumbered x → is_marked self.new x ≡ (same_pair x pair || is_marked self.old x) }
    {
        let first = usize::from(pair.first);
        let second = usize::from(pair.second);
        self.marks[PATHS * first + second] = true;
        self.marks[PATHS * second + first] = true;
    }

    pub(crate) fn is_marked(&self, pair: PathPair) -> bool
        requires { IsNumbered pair }
        ensures { result ≡ is_marked self.now pair }
    {
        self.marks[PATHS * usize::from(pair.first) + usize::from(pair.second)]
    }
}

fn unmarked(alloc: Global, count: usize) -> Result<Vec<bool>, AllocError>
    ensures length { IfOk result (λ v. length v.items ≡ count) }
    ensures unmarked { IfOk result (λ v. AreUnmarked v.items) }
{
    vec![in alloc; false; count]
}
