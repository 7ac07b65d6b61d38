//! What keys are compared with.
ghost use Rattle.std.specs.Prelude.{◌≡◌};

use crate::sought::{Ranking, Sought};
use std::cmp::Ordering;

/// What keys are compared with in a look-up: a key of borrowed parts, so that nothing is copied to look it up.
pub trait Probe<K: Ord> {
    /// The key that it stands for.
    ghost sought: { Self → K };

    /// The order of a key to it: that of the key to the one that it stands for.
    fn order_of(&self, key: &K) -> Ordering
        ensures { result ≡ K.cmp key.now (sought self.now) };
}

/// A key as it is.
#[derive(Drop)]
pub struct Whole<'a, K>(pub &'a K);

impl<'a, K: Ord> Probe<K> for Whole<'a, K> {
    ghost sought = { λ w. w.0.now };

    fn order_of(&self, key: &K) -> Ordering {
        key.cmp(self.0)
    }
}

/// What a probe stands for, as what is looked for among keys.
#[derive(Drop)]
pub(crate) struct Near<'a, P>(pub(crate) &'a P);

impl<'a, K: Ord, P: Probe<K>> Sought<K> for Near<'a, P> {
    ghost standing = { λ w key. K.cmp key (P.sought w.0.now) };

    fn standing_of(&self, item: &K) -> Ordering {
        self.0.order_of(item)
    }
}

/// The order that keys have by themselves.
#[derive(Drop)]
pub(crate) struct Own;

impl<K: Ord> Ranking<K> for Own {
    ghost cmp = { λ _. K.cmp };

    fn compare(&self, item: &K, other: &K) -> Ordering {
        item.cmp(other)
    }
}
