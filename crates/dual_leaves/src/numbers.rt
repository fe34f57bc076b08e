ghost use Rattle.patterns.specs.Allowed.{list_of};
ghost use Rattle.std.specs.Prelude.{◌≡◌, ◌<◌, length};

use patterns::Allowed;

/// The numbers that the train may still take.
pub(crate) fn numbers_in(allowed: &Allowed, train: usize) -> &[u16]
    requires { train < length allowed.now.lists }
    ensures { result.now ≡ list_of allowed.now.lists train }
{
    allowed.lists.as_slice()[train].as_slice()
}
