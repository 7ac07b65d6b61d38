//! The whole numbers that a document can hold.
ghost use Rattle.doc_tree.specs.Number.{IsWhole};
ghost use Rattle.std.specs.Cmp.Rules.{comparing};
ghost use Rattle.std.specs.Hash as fed;
ghost use Rattle.std.specs.Ordering.{int_cmp, int_eq};
ghost use Rattle.std.specs.Prelude.{◌≡◌, Some, SomeIff};
ghost use Rattle.std.proofs.Common.{rules};

use std::cmp::Ordering;
use std::fmt;
use std::hash::{Hash, Hasher};
use std::marker::Model;

/// A whole number from -2^63 to 2^64 - 1: those that are an `i64` or a `u64`.
///
/// It is kept in two words of 64 bits, since an `i128` would align each tree to 16 bytes.
#[derive(Clone, Copy, Drop)]
pub struct Number {
    // -1 for a number below 0, and 0 for another.
    high: i64,
    // The number itself, with 2^64 added where it is below 0.
    low: u64,
}

const LEAST: i128 = -0x8000_0000_0000_0000;

const GREATEST: i128 = 0xFFFF_FFFF_FFFF_FFFF;

// How far the lower word of a number below 0 is above it.
const ADDED: i128 = 0x1_0000_0000_0000_0000;

impl Model for Number {
    ghost use Rattle.std.specs.Prelude.{ℤ};

    ghost Value = { ℤ };

    ghost use Rattle.doc_tree.specs.Number.{AreWords, of_words, high_word, low_word, same_high, same_low};

    ghost view = { λ n. of_words n.high n.low };

    ghost invariant = { λ n. AreWords n.high n.low };

    ghost inverse = { λ z. record { high = high_word z; low = low_word z } };

    ghost inverse_ok = { λ n h i. record { high = same_high n.high n.low h i; low = same_low n.high n.low h i } };
}

impl Number {
    /// The number of this value, or `None` exactly outside the bounds.
    pub fn of(value: i128) -> Option<Number>
        ensures { SomeIff result (IsWhole value) value }
    {
        if LEAST <= value && value <= GREATEST {
            Some(Number::within(value))
        } else {
            None
        }
    }

    /// The number of a value within the bounds.
    fn within(value: i128) -> Number
        requires { IsWhole value }
        ensures { result ≡ value }
    {
        if value < 0 {
            Number {
                high: -1,
                low: (value + ADDED) as u64,
            }
        } else {
            Number {
                high: 0,
                low: value as u64,
            }
        }
    }

    /// Its value, from -2^63 to 2^64 - 1.
    pub fn value(&self) -> i128
        ensures value { result ≡ self.now }
        ensures whole { IsWhole self.now }
    {
        let low = i128::from(self.low);
        if self.high < 0 { low - ADDED } else { low }
    }
}

impl From<u64> for Number {
    ghost use Rattle.std.specs.Prelude.{◌≡◌, pos};

    ghost from_gives = { λ value number. number ≡ pos value };

    fn from(value: u64) -> Number {
        Number {
            high: 0,
            low: value,
        }
    }
}

impl From<i64> for Number {
    ghost use Rattle.std.specs.Prelude.{◌≡◌};

    ghost from_gives = { λ value number. number ≡ value };

    fn from(value: i64) -> Number {
        Number::within(i128::from(value))
    }
}

impl PartialEq for Number {
    ghost eq = { int_eq };

    ghost laws = { Prim.search (comparing, rules) };

    fn eq(&self, other: &Number) -> bool {
        self.value() == other.value()
    }
}

impl Eq for Number {
    ghost laws = { Prim.search (comparing, rules) };
}

impl PartialOrd for Number {
    ghost partial_cmp = { λ x y. Some (int_cmp x y) };

    ghost laws = { Prim.search (comparing, rules) };

    fn partial_cmp(&self, other: &Number) -> Option<Ordering> {
        Some(self.cmp(other))
    }
}

impl Ord for Number {
    ghost cmp = { int_cmp };

    ghost total = { Prim.search (comparing, rules) };

    ghost matches_partial_cmp = { Prim.search (comparing, rules) };

    ghost matches_eq = { Prim.search (comparing, rules) };

    fn cmp(&self, other: &Number) -> Ordering {
        self.value().cmp(&other.value())
    }
}

impl Hash for Number {
    ghost hash_input = { fed.i128 };

    ghost respects_eq = { Prim.search (comparing, rules) };

    fn hash<H: Hasher>(&self, state: &mut H) {
        self.value().hash(state);
    }
}

impl fmt::Debug for Number {
    fn fmt<W: fmt::Write>(&self, f: &mut fmt::Formatter<W>) -> fmt::Result {
        fmt::Debug::fmt(&self.value(), f)
    }
}
