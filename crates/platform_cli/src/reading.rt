// A file read whole, in pieces.
ghost use Rattle.std.specs.Prelude.{◌≡◌, ◌+◌, ◌-◌, ◌<◌, ◌≤◌, ◌∷◌, ◌++◌, List, length, take, drop, vec_len, IfOk, IfSome, OnOk, IsSome, IsTrue};
ghost use Rattle.shelf.specs.Outside.{Same, HasCause};
ghost use Rattle.platform_cli.specs.Instance.{IsInput};
ghost use Rattle.platform_cli.specs.Reading.{ReadStep};

use shelf::{Shelf, ShelfFault};
use std::alloc::{AllocError, Global};

/// How many bytes are asked for at once.
const PIECE: usize = 65_536;

/// The bytes of a file, at most so many.
pub(crate) fn read_whole<S: Shelf>(
    alloc: Global,
    shelf: &mut S,
    name: &str,
    most: usize,
) -> Result<Vec<u8>, ShelfFault>
    requires { 0 < most }
    ensures input { IfOk result (λ bytes. IsInput S.tells (S.held shelf.old) name.now most bytes.items) }
    ensures room { IfOk result (λ bytes. length bytes.items ≤ most) }
    ensures held { Same (S.held shelf.old) (S.held shelf.new) }
    ensures cause { HasCause name.now (S.read_faults shelf.old) (S.read_faults shelf.new) result }
    ensures writes { Same (S.write_faults shelf.old) (S.write_faults shelf.new) }
{
    let mut piece = zeros(alloc, PIECE)?;
    read_by_pieces(alloc, shelf, name, most, &mut piece)
}

// The length alone is said: a list of so many zeros would stand in each goal.
pub(crate) fn zeros(alloc: Global, count: usize) -> Result<Vec<u8>, AllocError>
    ensures { IfOk result (λ piece. length piece.items ≡ count) }
{
    vec![in alloc; 0u8; count]
}

fn read_by_pieces<S: Shelf>(
    alloc: Global,
    shelf: &mut S,
    name: &str,
    most: usize,
    piece: &mut [u8],
) -> Result<Vec<u8>, ShelfFault>
    requires room { 0 < length piece.old }
    requires some { 0 < most }
    ensures input { IfOk result (λ bytes. IsInput S.tells (S.held shelf.old) name.now most bytes.items) }
    ensures room { IfOk result (λ bytes. length bytes.items ≤ most) }
    ensures held { Same (S.held shelf.old) (S.held shelf.new) }
    ensures cause { HasCause name.now (S.read_faults shelf.old) (S.read_faults shelf.new) result }
    ensures writes { Same (S.write_faults shelf.old) (S.write_faults shelf.new) }
{
    let mut bytes = Vec::new(alloc);
    while bytes.len() < most {
        let room = piece.len().min(most - bytes.len());
        let count = read_piece(shelf, name, &mut piece[..room], &mut bytes)?;
        if count == 0 {
            return Ok(bytes);
        }
    }
    Ok(bytes)
}

// Reads once, and adds what was read at the end.
fn read_piece<S: Shelf>(
    shelf: &mut S,
    name: &str,
    piece: &mut [u8],
    bytes: &mut Vec<u8>,
) -> Result<usize, ShelfFault>
    requires { 0 < length piece.old }
    ensures more { IfOk result (λ count. IfSome (S.held shelf.old name.now) (λ whole. ReadStep whole bytes.old.items bytes.new.items count)) }
    ensures length { IfOk result (λ count. length bytes.new.items ≡ length bytes.old.items + count) }
    ensures room { IfOk result (λ count. count ≤ length piece.old) }
    ensures told { OnOk result (IsTrue S.tells → IsSome (S.held shelf.old name.now)) }
    ensures held { Same (S.held shelf.old) (S.held shelf.new) }
    ensures cause { HasCause name.now (S.read_faults shelf.old) (S.read_faults shelf.new) result }
    ensures writes { Same (S.write_faults shelf.old) (S.write_faults shelf.new) }
{
    let count = shelf.read(name, bytes.len() as u64, piece)?;
    bytes.extend_from_slice(&piece[..count])?;
    Ok(count)
}
