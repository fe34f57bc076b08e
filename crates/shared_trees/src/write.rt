ghost use Rattle.proof_file.specs.Accepted.{IsAccepted};
ghost use Rattle.shared_trees.specs.Written.{IsShownBy, IsWrittenOf};
ghost use Rattle.std.specs.Prelude.{IfOk};

use leaf_bounds::{Bound, Tree, share};
use pair_prices::Case;
use proof_file::write_shared;
use std::alloc::{AllocError, Global};

/// The proof file of a tree and its bound, in version 2 with shared potentials (`docs/FORMATS.md`).
///
/// # Errors
/// `AllocError` where tables and text find no memory.
pub fn written_proof(
    alloc: Global,
    case: &Case,
    tree: &Tree,
    bound: &Bound,
) -> Result<Vec<u8>, AllocError>
    requires { IsShownBy case.now tree.now.nodes bound.now }
    ensures accepted { IfOk result (λ text. IsAccepted case.now bound.now text.items) }

    // It is the text of the tree's sharing, and its leaves expand to those of the tree.
    ensures written { IfOk result (λ text. IsWrittenOf case.now tree.now.nodes bound.now text.items) }
{
    let _station = case.station();
    let trains = case.book().trains() as u16;
    let shared = share(alloc, tree)?;
    write_shared(alloc, trains, &shared, bound)
}
