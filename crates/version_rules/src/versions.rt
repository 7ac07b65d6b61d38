//! Versions: how they are read, ordered and printed.
ghost use Rattle.std.specs.Prelude.{◌≡◌, ℕ, Err, IsFalse, ◌+◌, ◌-◌, ◌*◌, ◌^◌, ◌<◌, ◌≤◌, ◌↔◌, IfOk, IsTrue, Some, SomeIff, [], ◌∷◌, length};
ghost use Rattle.std.specs.Result.{result_map_both};
ghost use Rattle.std.specs.Char.{is_ascii_digit};
ghost use Rattle.std.specs.List.{list_all, list_any};
ghost use Rattle.version_rules.specs.Order.{IsBelow, version_cmp};
ghost use Rattle.version_rules.specs.Terms.{AreParts};
ghost use Rattle.version_rules.specs.Versions.{is_number, is_too_large, is_version, parts_of, parts_behind, reads_number, reads_version, version_of, version_text};

use crate::fault::VersionFault;
use doc_tree::Text;
use std::cmp::Ordering;
use std::fmt;

/// A version: three numbers, of which the first that differ decide which of two versions is the greater.
#[derive(Clone, Copy, Debug, PartialEq, Eq, PartialOrd, Ord, Hash)]
pub struct Version {
    pub major: u64,
    pub minor: u64,
    pub patch: u64,
}

/// A version that was read, and how many parts its text had.
#[derive(Clone, Copy)]
pub(crate) struct Written {
    pub(crate) version: Version,
    pub(crate) parts: u8,
}

/// Reads a version: two or three parts of decimal digits with dots between them. Of two parts the patch is 0.
///
/// It is `NotAVersion` exactly where the text has not that form, and `PartTooLarge` exactly where it has and a part
/// is past 18,446,744,073,709,551,615.
pub fn read_version(text: &Text) -> Result<Version, VersionFault>
    ensures reads { result ≡ reads_version text.now }
    ensures not_a_version { (result ≡ Err VersionFault.NotAVersion) ↔ IsFalse (is_version (parts_of text.now)) }
    ensures part_too_large { (result ≡ Err VersionFault.PartTooLarge)
        ↔ (IsTrue (is_version (parts_of text.now)) × IsTrue (list_any is_too_large (parts_of text.now))) }
{
    parse_version(text.as_str())
}

/// Reads a version as [`read_version`] does, out of any text.
pub fn parse_version(text: &str) -> Result<Version, VersionFault>
    ensures { result ≡ reads_version text.now }
{
    let written = read_written(text.as_bytes())?;
    Ok(written.version)
}

pub(crate) fn read_written(text: &[u8]) -> Result<Written, VersionFault>
    ensures version { result_map_both (λ w. w.version) (λ fault. fault) result ≡ reads_version text.now }
    ensures parts { IfOk result (λ w. w.parts ≡ length (parts_of text.now)) }
    ensures form { IfOk result (λ w. AreParts w.version w.parts) }
{
    let (major, rest) = cut_at_dot(text);
    let Some(rest) = rest else {
        return Err(VersionFault::NotAVersion);
    };
    let (minor, rest) = cut_at_dot(rest);
    let Some(rest) = rest else {
        return two_parts(major, minor);
    };
    let (patch, rest) = cut_at_dot(rest);
    if rest.is_some() {
        return Err(VersionFault::NotAVersion);
    }
    three_parts(major, minor, patch)
}

// The part before the first dot, and what follows that dot, where there is one.
fn cut_at_dot(text: &[u8]) -> (&[u8], Option<&[u8]>)
    ensures { parts_of text.now ≡ result.0.now ∷ parts_behind result.1 }
{
    match text.iter().position(|byte| *byte == b'.') {
        Some(dot) => (&text[..dot], Some(&text[dot + 1..])),
        None => (text, None),
    }
}

fn two_parts(major: &[u8], minor: &[u8]) -> Result<Written, VersionFault>
    ensures version { result_map_both (λ w. w.version) (λ fault. fault) result
        ≡ version_of (major.now ∷ minor.now ∷ []) }
    ensures parts { IfOk result (λ w. (w.parts ≡ 2) × (w.version.patch ≡ 0)) }
{
    if !is_number(major) || !is_number(minor) {
        return Err(VersionFault::NotAVersion);
    }
    let version = Version {
        major: number_of(major)?,
        minor: number_of(minor)?,
        patch: 0,
    };
    Ok(Written { version, parts: 2 })
}

fn three_parts(major: &[u8], minor: &[u8], patch: &[u8]) -> Result<Written, VersionFault>
    ensures version { result_map_both (λ w. w.version) (λ fault. fault) result
        ≡ version_of (major.now ∷ minor.now ∷ patch.now ∷ []) }
    ensures parts { IfOk result (λ w. w.parts ≡ 3) }
{
    if !is_number(major) || !is_number(minor) || !is_number(patch) {
        return Err(VersionFault::NotAVersion);
    }
    let version = Version {
        major: number_of(major)?,
        minor: number_of(minor)?,
        patch: number_of(patch)?,
    };
    Ok(Written { version, parts: 3 })
}

/// Whether a part is one or more decimal digits.
pub(crate) fn is_number(part: &[u8]) -> bool
    ensures { result ≡ is_number part.now }
{
    0 < part.len() && are_digits(part)
}

fn are_digits(bytes: &[u8]) -> bool
    ensures { result ≡ list_all is_ascii_digit bytes.now }
{
    bytes.iter().all(|byte| byte.is_ascii_digit())
}

fn number_of(digits: &[u8]) -> Result<u64, VersionFault>
    requires { IsTrue (is_number digits.now) }
    ensures { result ≡ reads_number digits.now }
{
    let mut number: u64 = 0;
    for digit in digits {
        number = with_digit(number, *digit).ok_or(VersionFault::PartTooLarge)?;
    }
    Ok(number)
}

// The number with one more digit at its end, or `None` where that is past 64 bits.
fn with_digit(number: u64, digit: u8) -> Option<u64>
    requires { 48 ≤ digit }
    ensures { let more = number * 10 + (digit - 48) in SomeIff result (more < 2 ^ 64) more }
{
    number.checked_mul(10)?.checked_add(u64::from(digit - b'0'))
}

/// Which of two versions is the greater: by the major parts, where they are equal by the minor parts, and where these
/// are equal too by the patches.
pub fn compare(one: &Version, other: &Version) -> Ordering
    ensures order { result ≡ version_cmp one.now other.now }
    ensures less { (result ≡ Ordering.Less) ↔ IsBelow one.now other.now }
    ensures equal { (result ≡ Ordering.Equal) ↔ (one.now ≡ other.now) }
    ensures greater { (result ≡ Ordering.Greater) ↔ IsBelow other.now one.now }
{
    one.cmp(other)
}

impl fmt::Display for Version {
    ghost output = { λ v. Some (version_text v) };

    fn fmt<W: fmt::Write>(&self, f: &mut fmt::Formatter<W>) -> fmt::Result {
        let Version {
            major,
            minor,
            patch,
        } = *self;
        write!(f, "{major}.{minor}.{patch}")
    }
}
