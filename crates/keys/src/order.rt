// The order of keys: byte by byte, and a proper beginning first. Any bytes compare, whether they are keys or not.
ghost use Rattle.std.specs.Prelude.{◌≡◌};
ghost use Rattle.rules.specs.Keys.{compare_bytes, ordering_number};
ghost use Rattle.keys.specs.Order.{number_of_ordering};

use std::cmp::Ordering;

// Compare two keys.
pub fn compare_keys(lhs: &[u8], rhs: &[u8]) -> Ordering
    ensures { number_of_ordering result ≡ ordering_number (compare_bytes lhs.now rhs.now) }
{
    lhs.cmp(rhs)
}
