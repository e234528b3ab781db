// Whether two names are the same.

ghost use Rattle.std.specs.Prelude.{◌≡◌, nat_eq};
ghost use Rattle.std.specs.Cmp.Lexicographic.{pointwise};

use lk_locks::Name;

/// Whether both names are the same. Most names that are as long differ in the last byte, so it looks there first.
pub(crate) fn is_same(one: &Name, other: &Name) -> bool
    ensures { result ≡ pointwise nat_eq one.now other.now }
{
    let one = one.as_slice();
    let other = other.as_slice();
    if one.len() != other.len() || one[one.len() - 1] != other[other.len() - 1] {
        return false;
    }
    one == other
}
