//! Which files what is on the shelves names.
ghost use Rattle.org_shelves.specs.ShelfMoves as spec;
ghost use Rattle.shelves.specs.SortedMap.{map_of};
ghost use Rattle.std.specs.List.{list_any};
ghost use Rattle.std.specs.Prelude.{◌≡◌};

use crate::editions::Edition;
use crate::org_shelves::OrgShelves;
use doc_tree::Text;
use sandboxes::Checksum;
use shelves::SortedMap;

/// Whether a version of some cookbook or an artifact names a file of this checksum: one pass over what is kept typed. It
/// takes no memory.
pub fn is_named(shelves: &OrgShelves, sum: &Checksum) -> bool
    ensures { result ≡ spec.is_named shelves.now.shelved sum.now }
{
    any_names(shelves.cookbooks().shelves(), sum) || any_names(shelves.artifacts().shelves(), sum)
}

fn any_names<K: Ord>(shelves: &[(Text, SortedMap<K, Edition>)], sum: &Checksum) -> bool
    ensures { result ≡ list_any (λ entry. spec.shelf_names sum.now (map_of K.cmp entry.1)) shelves.now }
{
    shelves.iter().any(|(_, shelf)| shelf_names(shelf, sum))
}

// Whether a manifest on the shelf names a file of this checksum.
fn shelf_names<K: Ord>(shelf: &SortedMap<K, Edition>, sum: &Checksum) -> bool
    ensures { result ≡ spec.shelf_names sum.now (map_of K.cmp shelf.now) }
{
    shelf
        .entries()
        .iter()
        .any(|(_, edition)| edition.names(sum))
}
