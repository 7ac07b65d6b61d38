//! Whether a value is what the signs of a word stand for.
ghost use Rattle.search_query.specs.Matching.{Fits, is_rest, one_off, without_rest};
ghost use Rattle.search_query.specs.Walk.{FitsBehind, stop_of, tail, walk};
ghost use Rattle.std.specs.Prelude.{◌≡◌, ◌↔◌, IsTrue, option_copied};

use query_text::Sign;

/// Where signs stop to fit.
pub(crate) enum Stop<'a> {
    /// At a `*`: the signs behind it, and what is left of the value.
    AtAny(&'a [Sign], &'a [u8]),
    /// At the end of both.
    Fit,
    /// Before.
    Misfit,
}

/// Whether a value is what signs stand for. What stands between two `*` is looked for from left to right, and where it
/// was found, it isn't looked for again: so the time is at most that of each sign at each byte.
pub(crate) fn fits(signs: &[Sign], value: &[u8]) -> bool
    ensures { IsTrue result ↔ Fits signs.now value.now }
{
    match walk(signs, value) {
        Stop::Fit => true,
        Stop::Misfit => false,
        Stop::AtAny(behind, rest) => fits_behind(behind, rest),
    }
}

// Whether some rest of a value is what signs stand for.
fn fits_behind(signs: &[Sign], value: &[u8]) -> bool
    ensures { IsTrue result ↔ FitsBehind signs.now value.now }
{
    let mut left = signs;
    let mut here = value;
    'positions: loop {
        match walk(left, here) {
            Stop::Fit => return true,
            Stop::AtAny(behind, rest) => {
                left = behind;
                here = rest;
            }
            Stop::Misfit => match tail(here) {
                Some(rest) => here = rest,
                None => return false,
            },
        }
    }
}

// What stands behind the first byte, if there is one.
fn tail(text: &[u8]) -> Option<&[u8]>
    ensures { option_copied result ≡ tail text.now }
{
    match text {
        [] => None,
        [_, rest @ ..] => Some(rest),
    }
}

// To the first `*`, or as far as the signs fit.
fn walk<'a>(signs: &'a [Sign], value: &'a [u8]) -> Stop<'a>
    ensures { stop_of result ≡ walk signs.now value.now }
{
    let mut left = signs;
    let mut here = value;
    while let [sign, behind @ ..] = left {
        if matches!(sign, Sign::Any) {
            return Stop::AtAny(behind, here);
        }
        match one_off(*sign, here) {
            Some(rest) => {
                left = behind;
                here = rest;
            }
            None => return Stop::Misfit,
        }
    }
    if here.is_empty() {
        Stop::Fit
    } else {
        Stop::Misfit
    }
}

// What stands behind one character, or behind this byte.
fn one_off(sign: Sign, value: &[u8]) -> Option<&[u8]>
    ensures { option_copied result ≡ one_off sign value.now }
{
    match value {
        [] => None,
        [first, rest @ ..] => match sign {
            Sign::Any => None,
            Sign::One => {
                if is_rest(*first) {
                    None
                } else {
                    Some(without_rest(rest))
                }
            }
            Sign::Byte(byte) => { if *first == byte { Some(rest) } else { None } }
        },
    }
}

fn is_rest(byte: u8) -> bool
    ensures { result ≡ is_rest byte }
{
    128 <= byte && byte < 192
}

fn without_rest(text: &[u8]) -> &[u8]
    ensures { result.now ≡ without_rest text.now }
{
    let mut here = text;
    while let [first, rest @ ..] = here {
        if !is_rest(*first) {
            return here;
        }
        here = rest;
    }
    here
}
