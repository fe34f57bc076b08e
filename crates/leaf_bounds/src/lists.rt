ghost use Rattle.patterns.specs.Allowed.{list_of};
ghost use Rattle.std.specs.Prelude.{◌≡◌, ◌<◌, length, IfOk};

use patterns::Allowed;
use sequence::Sequence;
use std::alloc::{AllocError, Global};

/// A list with the same elements.
pub(crate) fn copy_plain<T: Copy + Drop>(
    alloc: Global,
    items: &[T],
) -> Result<Sequence<T>, AllocError>
    ensures { IfOk result (λ s. s ≡ items.now) }
{
    Ok(Sequence::from_vec(Vec::from_slice(alloc, items)?))
}

/// The numbers that the train may still take.
pub(crate) fn numbers_in(allowed: &Allowed, train: u16) -> &[u16]
    requires { train < length allowed.now.lists }
    ensures { result.now ≡ list_of allowed.now.lists train }
{
    allowed.lists.as_slice()[train as usize].as_slice()
}
