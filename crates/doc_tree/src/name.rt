//! Names of things, and of organisations.
ghost use Rattle.doc_tree.specs.Name.{is_name, is_name_byte, is_organisation_name, is_organisation_byte, is_lowercase_or_digit};
ghost use Rattle.std.specs.List.{list_all};
ghost use Rattle.std.specs.Prelude.{◌≡◌, ◌==◌, IfOk, IfErr, IsTrue, IsUtf8, is_ok, Some, refl};
ghost use Rattle.std.specs.Ordering.{nat_cmp};
ghost use Rattle.std.specs.Cmp.{partial_equiv_from_equiv};
ghost use Rattle.std.specs.Cmp.Lexicographic.{pointwise, slice_cmp, nat_list_eq_equiv, nat_list_cmp_total, texts_po, texts_ties};
ghost use Rattle.std.specs.Hash as fed;

use crate::no_memory::NoMemory;
use crate::text::Text;
use std::alloc::Global;
use std::cmp::Ordering;
use std::fmt;
use std::hash::{Hash, Hasher};
use std::marker::Model;

/// A name: a text of 1 to 255 bytes of ASCII letters, digits, `_`, `-`, `.` and `:`.
#[derive(Drop)]
pub struct Name {
    text: Text,
}

impl Model for Name {
    ghost use Rattle.std.specs.Prelude.{List, ℕ, IsTrue};
    ghost use Rattle.doc_tree.specs.Name.{is_name};

    ghost Value = { List ℕ };

    ghost view = { λ n. n.text };

    ghost invariant = { λ n. IsTrue (is_name n.text) };
}

/// Whether a text has the form of a name.
pub fn is_name(text: &str) -> bool
    ensures { result ≡ is_name text.now }
{
    let bytes = text.as_bytes();
    0 < bytes.len() && bytes.len() <= 255 && are_name_bytes(bytes)
}

fn are_name_bytes(bytes: &[u8]) -> bool
    ensures { result ≡ list_all is_name_byte bytes.now }
{
    bytes.iter().all(|byte| is_name_byte(*byte))
}

fn is_name_byte(byte: u8) -> bool
    ensures { result ≡ is_name_byte byte }
{
    byte.is_ascii_alphanumeric() || matches!(byte, b'_' | b'-' | b'.' | b':')
}

/// Whether a text has the form of an organisation's name: 1 to 255 lower-case ASCII letters, digits, `-` and `_`,
/// of which the first is a letter or a digit.
pub fn is_organisation_name(text: &str) -> bool
    ensures { result ≡ is_organisation_name text.now }
{
    match text.as_bytes() {
        [] => false,
        [first, rest @ ..] => {
            is_lowercase_or_digit(*first) && rest.len() <= 254 && are_organisation_bytes(rest)
        }
    }
}

fn are_organisation_bytes(bytes: &[u8]) -> bool
    ensures { result ≡ list_all is_organisation_byte bytes.now }
{
    bytes.iter().all(|byte| is_organisation_byte(*byte))
}

fn is_organisation_byte(byte: u8) -> bool
    ensures { result ≡ is_organisation_byte byte }
{
    is_lowercase_or_digit(byte) || matches!(byte, b'-' | b'_')
}

fn is_lowercase_or_digit(byte: u8) -> bool
    ensures { result ≡ is_lowercase_or_digit byte }
{
    byte.is_ascii_lowercase() || byte.is_ascii_digit()
}

impl Name {
    /// The name that a text is, or the text again where it has not the form of one.
    pub fn of(text: Text) -> Result<Name, Text>
        ensures test { is_ok result ≡ is_name text }
        ensures ok { IfOk result (λ name. name ≡ text) }
        ensures err { IfErr result (λ same. same ≡ text) }
    {
        if is_name(text.as_str()) {
            Ok(Name { text })
        } else {
            Err(text)
        }
    }

    /// The name as a `str` that borrows it.
    pub fn as_str(&self) -> &str
        ensures value { result.now ≡ self.now }
        ensures form { IsTrue (is_name self.now) }
        ensures utf8 { IsUtf8 self.now }
    {
        self.text.as_str()
    }

    /// The name as a text that borrows it.
    pub fn as_text(&self) -> &Text
        ensures value { result.now ≡ self.now }
        ensures form { IsTrue (is_name self.now) }
    {
        &self.text
    }

    /// An equal name of its own.
    pub fn copy(&self, alloc: Global) -> Result<Name, NoMemory>
        ensures { IfOk result (λ name. name ≡ self.now) }
    {
        Ok(Name {
            text: self.text.copy(alloc)?,
        })
    }

    /// The text, which is moved out.
    pub fn into_text(self) -> Text
        ensures value { result ≡ self }
        ensures form { IsTrue (is_name self) }
    {
        let Name { text } = self;
        text
    }
}

impl PartialEq for Name {
    ghost eq = { pointwise ◌==◌ };

    ghost laws = { partial_equiv_from_equiv nat_list_eq_equiv };

    fn eq(&self, other: &Self) -> bool {
        self.text == other.text
    }
}

impl Eq for Name {
    ghost laws = { nat_list_eq_equiv };
}

impl PartialOrd for Name {
    ghost partial_cmp = { λ x y. Some (slice_cmp nat_cmp x y) };

    ghost laws = { texts_po };

    fn partial_cmp(&self, other: &Self) -> Option<Ordering> {
        Some(self.cmp(other))
    }
}

impl Ord for Name {
    ghost cmp = { slice_cmp nat_cmp };

    ghost total = { nat_list_cmp_total };

    ghost matches_partial_cmp = { λ x y. refl };

    ghost matches_eq = { λ x y. texts_ties x y };

    fn cmp(&self, other: &Self) -> Ordering {
        self.text.cmp(&other.text)
    }
}

impl Hash for Name {
    ghost use Rattle.std.specs.Cmp.Rules.{hashing};
    ghost use Rattle.std.proofs.Common.{rules};

    ghost hash_input = { fed.str };

    ghost respects_eq = { Prim.search (hashing, rules) };

    fn hash<H: Hasher>(&self, state: &mut H) {
        self.text.hash(state);
    }
}

impl fmt::Display for Name {
    ghost output = { Some };

    fn fmt<W: fmt::Write>(&self, f: &mut fmt::Formatter<W>) -> fmt::Result {
        f.write_str(self.as_str())
    }
}

impl fmt::Debug for Name {
    fn fmt<W: fmt::Write>(&self, f: &mut fmt::Formatter<W>) -> fmt::Result {
        fmt::Debug::fmt(self.as_str(), f)
    }
}
