//! What a file is named by.
ghost use Rattle.std.specs.Prelude.{◌≡◌, ◌==◌, IsTrue, IsUtf8, Some, refl};
ghost use Rattle.std.specs.Ordering.{nat_cmp};
ghost use Rattle.std.specs.Cmp.{partial_equiv_from_equiv};
ghost use Rattle.std.specs.Cmp.Lexicographic.{pointwise, slice_cmp, nat_list_eq_equiv, nat_list_cmp_total, texts_po, texts_ties};
ghost use Rattle.std.specs.Hash as fed;
ghost use Rattle.std.specs.List.{list_all};
ghost use Rattle.hex.specs.Hex.{encode_lower};
ghost use Rattle.sandboxes.specs.Checksums.{is_digit, is_checksum, checksum_in, checksum_of};

use doc_tree::Text;
use hex::encode_to_slice;
use md5::{Digest, Md5};
use std::cmp::Ordering;
use std::fmt;
use std::hash::{Hash, Hasher};
use std::marker::Model;

/// A checksum: 32 lower-case hexadecimal digits. Contracts see the list of them. Checksums compare
/// byte by byte.
#[derive(Clone, Copy)]
pub struct Checksum {
    digits: [u8; 32],
}

impl Model for Checksum {
    ghost use Rattle.std.specs.Prelude.{List, ℕ, IsTrue};
    ghost use Rattle.sandboxes.specs.Checksums.{is_checksum};

    ghost Value = { List ℕ };

    ghost view = { λ c. c.digits };

    ghost invariant = { λ c. IsTrue (is_checksum c.digits) };

    ghost inverse = { λ digits. record { digits = digits } };
}

/// The checksum that a text is, or `None` exactly where it isn't one.
pub fn read_checksum(text: &Text) -> Option<Checksum>
    ensures { result ≡ checksum_in text.now }
{
    let digits = <[u8; 32]>::try_from(text.as_bytes()).ok()?;
    if !are_digits(&digits) {
        return None;
    }
    Some(Checksum { digits })
}

fn are_digits(bytes: &[u8]) -> bool
    ensures { result ≡ list_all is_digit bytes.now }
{
    bytes.iter().all(|byte| is_digit(*byte))
}

fn is_digit(byte: u8) -> bool
    ensures { result ≡ is_digit byte }
{
    matches!(byte, b'0'..=b'9' | b'a'..=b'f')
}

impl Checksum {
    /// The checksum of some bytes: their MD5 as a text. It takes no memory.
    pub(crate) fn of(bytes: &[u8]) -> Checksum
        ensures { result ≡ checksum_of bytes.now }
    {
        Checksum::from_digest(Md5::digest(bytes))
    }

    /// The checksum that is the text of an MD5.
    pub(crate) fn from_digest(digest: [u8; 16]) -> Checksum
        ensures { result ≡ encode_lower digest }
    {
        let mut digits = [0; 32];
        encode_to_slice(digest, &mut digits).unwrap();
        Checksum { digits }
    }

    /// The checksum as a text that borrows it.
    pub fn as_str(&self) -> &str
        ensures value { result.now ≡ self.now }
        ensures form { IsTrue (is_checksum self.now) }
        ensures utf8 { IsUtf8 self.now }
    {
        str::from_utf8(&self.digits).unwrap()
    }
}

impl PartialEq for Checksum {
    ghost eq = { pointwise ◌==◌ };

    ghost laws = { partial_equiv_from_equiv nat_list_eq_equiv };

    fn eq(&self, other: &Self) -> bool {
        self.digits == other.digits
    }
}

impl Eq for Checksum {
    ghost laws = { nat_list_eq_equiv };
}

impl PartialOrd for Checksum {
    ghost partial_cmp = { λ x y. Some (slice_cmp nat_cmp x y) };

    ghost laws = { texts_po };

    fn partial_cmp(&self, other: &Self) -> Option<Ordering> {
        Some(self.cmp(other))
    }
}

impl Ord for Checksum {
    ghost cmp = { slice_cmp nat_cmp };

    ghost total = { nat_list_cmp_total };

    ghost matches_partial_cmp = { λ x y. refl };

    ghost matches_eq = { λ x y. texts_ties x y };

    fn cmp(&self, other: &Self) -> Ordering {
        self.digits.cmp(&other.digits)
    }
}

impl Hash for Checksum {
    ghost use Rattle.std.specs.Cmp.Rules.{hashing};
    ghost use Rattle.std.proofs.Common.{rules};

    ghost hash_input = { fed.slice fed.u8 };

    ghost respects_eq = { Prim.search (hashing, rules) };

    fn hash<H: Hasher>(&self, state: &mut H) {
        self.digits.hash(state);
    }
}

impl fmt::Display for Checksum {
    ghost output = { Some };

    fn fmt<W: fmt::Write>(&self, f: &mut fmt::Formatter<W>) -> fmt::Result {
        f.write_str(self.as_str())
    }
}

impl fmt::Debug for Checksum {
    fn fmt<W: fmt::Write>(&self, f: &mut fmt::Formatter<W>) -> fmt::Result {
        fmt::Debug::fmt(self.as_str(), f)
    }
}
