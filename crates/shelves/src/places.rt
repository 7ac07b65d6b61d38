//! Where a key stands among entries in key order.
ghost use Rattle.shelves.specs.Places.{IsInKeyOrder, IsPlace};
ghost use Rattle.std.specs.Prelude.{◌≡◌};

use std::cmp::Ordering;

/// Finds the place of a key's entry, or the place where one would go, by halves.
pub(crate) fn search<K: Ord, V>(entries: &[(K, V)], key: &K) -> Result<usize, usize>
    requires { IsInKeyOrder K.cmp entries.now }
    ensures { IsPlace K.cmp key.now entries.now result }
{
    entries.binary_search_by(
        |entry: &(K, V)| -> Ordering
            ensures { result ≡ K.cmp entry.now.0 key.entry.now }
        { entry.0.cmp(key) },
    )
}
