//! Constraints on versions: how they are read and printed.
ghost use Rattle.std.specs.Prelude.{◌≡◌, ◌↔◌, IsNone, IsTrue, Err, Some, length, take_while};
ghost use Rattle.version_rules.specs.Versions.{is_number};

use crate::fault::VersionFault;
use crate::versions::{Version, Written, is_number, read_written};
use doc_tree::Text;
use std::fmt;
use std::marker::Model;

/// How a version has to stand to the version of a constraint: `=`, `<`, `>`, `<=`, `>=` or `~>`.
#[derive(Clone, Copy, Debug, PartialEq, Eq, Hash)]
pub enum Sign {
    Equal,
    Less,
    Greater,
    AtMost,
    AtLeast,
    /// `~>`: at least the version, and equal to it in all parts that are written but the last.
    Close,
}

/// A constraint on versions: a sign and a version, of which 2 or 3 parts are written. With 2 the patch is 0.
#[derive(Clone, Copy, Debug, PartialEq, Eq)]
pub struct Constraint {
    pub sign: Sign,
    pub version: Version,
    pub parts: u8,
}

impl Model for Constraint {
    ghost use Rattle.version_rules.specs.Terms.{Terms, AreParts};

    ghost Value = { Terms };

    ghost view = { λ c. record { sign = c.sign; version = c.version; parts = c.parts } };

    ghost invariant = { λ c. AreParts c.version c.parts };

    ghost inverse = { λ t. record { sign = t.sign; version = t.version; parts = t.parts } };
}

ghost use Rattle.version_rules.specs.Laws.{FitsVersion};
ghost use Rattle.version_rules.specs.Terms.{AreParts};
ghost use Rattle.version_rules.specs.Constraints.{bare, behind_operator, constraint_of, constraint_text, is_operator_byte, operator_of, reads_constraint, sign_of, sign_text, without_front_spaces, without_last_spaces};

impl Constraint {
    /// Says what every constraint keeps: two or three parts are written, of two the patch is 0, and each part fits
    /// 64 bits. It does nothing.
    pub fn known(&self)
        ensures parts { AreParts self.now.version self.now.parts }
        ensures fits { FitsVersion self.now.version }
    {
        let Version {
            major: _major,
            minor: _minor,
            patch: _patch,
        } = self.version;
    }
}

/// Reads a constraint: an operator, maybe spaces, and a version, between maybe spaces. The operator is the longest
/// front of the bytes `=`, `<`, `>`, `~` and `!`, and no operator means `=`.
///
/// It is `NoSuchOperator` exactly where the operator is none of `=`, `<`, `>`, `<=`, `>=` and `~>`,
/// `PessimisticOnePart` exactly where it is `~>` and digits alone follow, and else what [`crate::read_version`] says.
pub fn read_constraint(text: &Text) -> Result<Constraint, VersionFault>
    ensures reads { result ≡ reads_constraint text.now }
    ensures no_such_operator { (result ≡ Err VersionFault.NoSuchOperator)
        ↔ IsNone (sign_of (operator_of (bare text.now))) }
    ensures pessimistic_one_part { (result ≡ Err VersionFault.PessimisticOnePart)
        ↔ ((sign_of (operator_of (bare text.now)) ≡ Some Sign.Close)
        × IsTrue (is_number (behind_operator (bare text.now)))) }
{
    parse_constraint(text.as_str())
}

/// Reads a constraint as [`read_constraint`] does, out of any text.
pub fn parse_constraint(text: &str) -> Result<Constraint, VersionFault>
    ensures { result ≡ reads_constraint text.now }
{
    let bare = without_last_spaces(without_front_spaces(text.as_bytes()));
    let operator_len = operator_len(bare);
    let behind = without_front_spaces(&bare[operator_len..]);
    match sign_of(&bare[..operator_len]) {
        Some(sign) => constraint_of(sign, behind),
        None => Err(VersionFault::NoSuchOperator),
    }
}

fn without_front_spaces(text: &[u8]) -> &[u8]
    ensures { result.now ≡ without_front_spaces text.now }
{
    let mut rest = text;
    while let [b' ', after @ ..] = rest {
        rest = after;
    }
    rest
}

fn without_last_spaces(text: &[u8]) -> &[u8]
    ensures { result.now ≡ without_last_spaces text.now }
{
    let mut rest = text;
    while let [before @ .., b' '] = rest {
        rest = before;
    }
    rest
}

fn operator_len(text: &[u8]) -> usize
    ensures { result ≡ length (operator_of text.now) }
{
    text.iter()
        .take_while(|byte| is_operator_byte(**byte))
        .count()
}

fn is_operator_byte(byte: u8) -> bool
    ensures { result ≡ is_operator_byte byte }
{
    matches!(byte, b'=' | b'<' | b'>' | b'~' | b'!')
}

fn sign_of(operator: &[u8]) -> Option<Sign>
    ensures { result ≡ sign_of operator.now }
{
    match operator {
        [] | b"=" => Some(Sign::Equal),
        b"<" => Some(Sign::Less),
        b">" => Some(Sign::Greater),
        b"<=" => Some(Sign::AtMost),
        b">=" => Some(Sign::AtLeast),
        b"~>" => Some(Sign::Close),
        _ => None,
    }
}

fn constraint_of(sign: Sign, behind: &[u8]) -> Result<Constraint, VersionFault>
    ensures { result ≡ constraint_of (Some sign) behind.now }
{
    if matches!(sign, Sign::Close) && is_number(behind) {
        return Err(VersionFault::PessimisticOnePart);
    }
    let Written { version, parts } = read_written(behind)?;
    Ok(Constraint {
        sign,
        version,
        parts,
    })
}

impl fmt::Display for Sign {
    ghost output = { λ sign. Some (sign_text sign) };

    fn fmt<W: fmt::Write>(&self, f: &mut fmt::Formatter<W>) -> fmt::Result {
        match self {
            Sign::Equal => f.write_str("="),
            Sign::Less => f.write_str("<"),
            Sign::Greater => f.write_str(">"),
            Sign::AtMost => f.write_str("<="),
            Sign::AtLeast => f.write_str(">="),
            Sign::Close => f.write_str("~>"),
        }
    }
}

impl fmt::Display for Constraint {
    ghost output = { λ c. Some (constraint_text c) };

    fn fmt<W: fmt::Write>(&self, f: &mut fmt::Formatter<W>) -> fmt::Result {
        let sign = self.sign;
        let version = self.version;
        let Version { major, minor, .. } = version;
        if self.parts == 2 {
            write!(f, "{sign} {major}.{minor}")
        } else {
            write!(f, "{sign} {version}")
        }
    }
}
