//! The keys of objects and the numbers of terms, and keys of borrowed parts to look them up by.
ghost use Rattle.std.specs.Cmp.{eq_by_cmp_equiv, partial_equiv_from_equiv, partial_order_from_total};
ghost use Rattle.std.specs.Prelude.{◌≡◌, Some, refl};
ghost use Rattle.search_query.specs.Pair.{pair_cmp};
ghost use Rattle.search_index.specs.Terms.{term_at};
ghost use Rattle.search_index.specs.KeyOrder.{object_cmp, object_cmp_total, object_key, same_object, term_cmp};

use doc_tree::Text;
use ordered_keys::Probe;
use search_query::Pair;
use std::cmp::Ordering;

/// Scopes, terms and words have no more numbers than this, so that each fits into 32 bits and 2^32 - 1 is none.
pub(crate) const MOST_NUMBERS: usize = 0xFFFF_FFFE;

/// An object, by the number of its scope and its name.
#[derive(Drop)]
pub(crate) struct ObjectKey {
    pub(crate) scope: u32,
    pub(crate) name: Text,
}

/// A term by numbers: that of its scope, and those of the words of its field and of its value.
#[derive(Clone, Copy, Drop)]
pub(crate) struct TermNumbers {
    pub(crate) scope: u32,
    pub(crate) field: u32,
    pub(crate) value: u32,
}

impl PartialEq for ObjectKey {
    ghost eq = { same_object };

    ghost laws = { partial_equiv_from_equiv (eq_by_cmp_equiv object_cmp_total) };

    fn eq(&self, other: &Self) -> bool {
        self.cmp(other) == Ordering::Equal
    }
}

impl Eq for ObjectKey {
    ghost laws = { eq_by_cmp_equiv object_cmp_total };
}

impl PartialOrd for ObjectKey {
    ghost partial_cmp = { λ x y. Some (object_cmp x y) };

    ghost laws = { partial_order_from_total object_cmp_total };

    fn partial_cmp(&self, other: &Self) -> Option<Ordering> {
        Some(self.cmp(other))
    }
}

impl Ord for ObjectKey {
    ghost cmp = { object_cmp };

    ghost total = { object_cmp_total };

    ghost matches_partial_cmp = { λ x y. refl };

    ghost matches_eq = { λ x y. refl };

    fn cmp(&self, other: &Self) -> Ordering {
        self.scope
            .cmp(&other.scope)
            .then_with(|| self.name.cmp(&other.name))
    }
}

/// An object of borrowed parts.
#[derive(Drop)]
pub(crate) struct ObjectAt<'a> {
    pub(crate) scope: u32,
    pub(crate) name: &'a [u8],
}

impl<'a> Probe<ObjectKey> for ObjectAt<'a> {
    ghost sought = { λ o. object_key o.scope o.name.now };

    fn order_of(&self, key: &ObjectKey) -> Ordering {
        match key.scope.cmp(&self.scope) {
            Ordering::Less => Ordering::Less,
            Ordering::Equal => key.name.as_bytes().cmp(self.name),
            Ordering::Greater => Ordering::Greater,
        }
    }
}

/// A term of borrowed parts.
#[derive(Drop)]
pub(crate) struct TermAt<'a> {
    pub(crate) scope: u32,
    pub(crate) field: &'a [u8],
    pub(crate) value: &'a [u8],
}

impl<'a> TermAt<'a> {
    /// How it stands to another: by the scopes, then by the bytes of the fields, and then of the values.
    pub(crate) fn order_to(&self, other: &TermAt) -> Ordering
        ensures { result ≡ term_cmp (term_at self.now) (term_at other.now) }
    {
        match self.scope.cmp(&other.scope) {
            Ordering::Less => Ordering::Less,
            Ordering::Equal => self.pair_order_to(other),
            Ordering::Greater => Ordering::Greater,
        }
    }

    /// How its pair stands to another: by the bytes of the fields, and then of the values.
    pub(crate) fn order_to_pair(&self, pair: &Pair) -> Ordering
        ensures { result ≡ pair_cmp (term_at self.now).pair pair.now }
    {
        self.pair_order_to(&TermAt {
            scope: self.scope,
            field: pair.field(),
            value: pair.value(),
        })
    }

    fn pair_order_to(&self, other: &TermAt) -> Ordering
        ensures { result ≡ pair_cmp (term_at self.now).pair (term_at other.now).pair }
    {
        match self.field.cmp(other.field) {
            Ordering::Less => Ordering::Less,
            Ordering::Equal => self.value.cmp(other.value),
            Ordering::Greater => Ordering::Greater,
        }
    }
}
