//! Pairs, and their places in a table with an entry for each.
ghost use Rattle.std.specs.Prelude.{◌≡◌, ◌<◌, ◌+◌, ◌*◌, ◌^◌};
ghost use Rattle.notify_queue.specs.Linked as spec;

/// A resource, by its place in a plan, and an action, by its place among those of the resource's type.
#[derive(Clone, Copy, Debug, PartialEq, Eq, Drop)]
pub struct Pair {
    pub resource: usize,
    /// Below 4 where it is queued.
    pub action: u8,
}

/// How many actions a resource has at most.
pub(crate) const ACTIONS: usize = 4;

/// The place of a pair.
pub(crate) fn place_of(pair: Pair) -> usize
    requires action { pair.action < 4 }
    requires fits { 4 * pair.resource + 4 < 2 ^ 64 }
    ensures { result ≡ spec.place_of pair }
{
    ACTIONS * pair.resource + usize::from(pair.action)
}

/// The pair at a place.
pub(crate) fn pair_at(place: usize) -> Pair
    ensures { result ≡ spec.pair_at place }
{
    Pair {
        resource: place / ACTIONS,
        action: (place % ACTIONS) as u8,
    }
}
