//! A field with a value, and sets of them.
ghost use Rattle.search_query.specs.Pair.{IsRising, lists, pair, pair_cmp, pair_cmp_total, same_pair};
ghost use Rattle.search_query.specs.Pair as specs;
ghost use Rattle.std.specs.Cmp.{eq_by_cmp_equiv, partial_equiv_from_equiv, partial_order_from_total};
ghost use Rattle.std.specs.Prelude.{◌≡◌, IfOk, Some, refl};

use doc_tree::{NoMemory, Text};
use std::alloc::Global;
use std::cmp::Ordering;
use std::marker::Model;

/// A field and a value, by which an object is found: each a text of its own, so that an index that has the field or the
/// value already can share it. Pairs are in the order of the bytes of their fields, and then of their values.
#[derive(Drop)]
pub struct Pair {
    field: Text,
    value: Text,
}

impl Model for Pair {
    ghost use Rattle.search_query.specs.Pair as specs;

    ghost Value = { specs.Pair };

    ghost coded = { specs.pair_code };

    ghost view = { λ p. specs.pair p.field p.value };
}

impl Pair {
    /// This field with this value, copied.
    pub fn of(alloc: Global, field: &str, value: &str) -> Result<Pair, NoMemory>
        ensures { IfOk result (λ p. p ≡ pair field.now value.now) }
    {
        Ok(Pair {
            field: Text::from_str(alloc, field)?,
            value: Text::from_str(alloc, value)?,
        })
    }

    /// The bytes of the field, which are UTF-8.
    pub fn field(&self) -> &[u8]
        ensures { result.now ≡ self.now.field }
    {
        self.field.as_bytes()
    }

    /// The bytes of the value, which are UTF-8.
    pub fn value(&self) -> &[u8]
        ensures { result.now ≡ self.now.value }
    {
        self.value.as_bytes()
    }

    /// The field and the value, which are moved out.
    pub fn into_parts(self) -> (Text, Text)
        ensures field { result.0 ≡ self.field }
        ensures value { result.1 ≡ self.value }
    {
        let Pair { field, value } = self;
        (field, value)
    }
}

impl PartialEq for Pair {
    ghost eq = { same_pair };

    ghost laws = { partial_equiv_from_equiv (eq_by_cmp_equiv pair_cmp_total) };

    fn eq(&self, other: &Self) -> bool {
        self.cmp(other) == Ordering::Equal
    }
}

impl Eq for Pair {
    ghost laws = { eq_by_cmp_equiv pair_cmp_total };
}

impl PartialOrd for Pair {
    ghost partial_cmp = { λ x y. Some (pair_cmp x y) };

    ghost laws = { partial_order_from_total pair_cmp_total };

    fn partial_cmp(&self, other: &Self) -> Option<Ordering> {
        Some(self.cmp(other))
    }
}

impl Ord for Pair {
    ghost cmp = { pair_cmp };

    ghost total = { pair_cmp_total };

    ghost matches_partial_cmp = { λ x y. refl };

    ghost matches_eq = { λ x y. refl };

    fn cmp(&self, other: &Self) -> Ordering {
        self.field()
            .cmp(other.field())
            .then_with(|| self.value().cmp(other.value()))
    }
}

/// Pairs, in their order and each once: contracts see the list of them.
#[derive(Drop)]
pub struct Pairs {
    items: Vec<Pair>,
}

impl Model for Pairs {
    ghost use Rattle.std.specs.Prelude.{List};
    ghost use Rattle.std.specs.Coded.{coded_list};
    ghost use Rattle.search_query.specs.Pair as specs;
    ghost use Rattle.search_query.specs.Pair.{IsRising};

    ghost Value = { List specs.Pair };

    ghost coded = { coded_list specs.pair_code };

    ghost view = { λ p. p.items.items };

    ghost invariant = { λ p. IsRising p.items.items };
}

impl Pairs {
    /// Some pairs, in any order and with any repeats: they are put in order where they stand, which takes no memory.
    pub(crate) fn of(items: Vec<Pair>) -> Pairs
        ensures rising { IsRising result }
        ensures members { (p : specs.Pair) → lists result p ≡ lists items.items p }
    {
        let mut items = items;
        items.sort_unstable();
        items.dedup();
        items.shrink_to_fit();
        Pairs { items }
    }

    /// The pairs in their order, as a slice that borrows them.
    pub fn as_slice(&self) -> &[Pair]
        ensures value { result.now ≡ self.now }
        ensures rising { IsRising self.now }
    {
        self.items.as_slice()
    }

    /// The pairs in their order, which are moved out.
    pub fn into_vec(self) -> Vec<Pair>
        ensures value { result.items ≡ self }
        ensures rising { IsRising self }
    {
        let Pairs { items } = self;
        items
    }
}
