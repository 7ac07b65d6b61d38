//! What items are compared with, where their order lies outside them.
ghost use Rattle.std.specs.Prelude.{◌≡◌};
ghost use Rattle.std.specs.declared.cmp.Ordering.{Ordering};

use std::cmp::Ordering;

/// What is looked for: it tells of each item whether it is below it, equal to it or above it.
pub trait Sought<T> {
    /// How an item stands to it.
    ghost standing: { Self → T → Ordering };

    /// How an item stands to it: below it, equal to it, or above it.
    fn standing_of(&self, item: &T) -> Ordering
        ensures { result ≡ standing self.now item.now };
}

/// An order of items, which may lie outside them, as that of numbers of texts which is the order of the texts.
pub trait Ranking<T> {
    /// How one item stands to another.
    ghost cmp: { Self → T → T → Ordering };

    /// How an item stands to the other: below it, equal to it, or above it.
    fn compare(&self, item: &T, other: &T) -> Ordering
        ensures { result ≡ cmp self.now item.now other.now };
}

/// An item that is looked for by its ranking.
#[derive(Drop)]
pub(crate) struct Ranked<'a, R, T> {
    pub(crate) ranking: &'a R,
    pub(crate) item: &'a T,
}

impl<'a, T, R: Ranking<T>> Sought<T> for Ranked<'a, R, T> {
    ghost standing = { λ w x. R.cmp w.ranking.now x w.item.now };

    fn standing_of(&self, item: &T) -> Ordering {
        self.ranking.compare(item, self.item)
    }
}
