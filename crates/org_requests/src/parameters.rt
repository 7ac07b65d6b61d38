//! The parameters of a request's query.

ghost use Rattle.std.specs.Prelude.{◌≡◌, ◌+◌, ◌-◌, ◌*◌, option_map, true};
ghost use Rattle.std.specs.List.{list_all};
ghost use Rattle.std.specs.Char.{is_ascii_digit};
ghost use Rattle.std.specs.Str.Parse.{digits_value};
ghost use Rattle.version_rules.specs.Versions.{is_number as spec_is_number};
ghost use Rattle.org_requests.specs.Parameters as spec;

use crate::requests::Parameter;
use doc_tree::Text;

/// The value of the first parameter of this name, if there is one.
pub fn asked_for<'p>(name: &str, parameters: &'p [Parameter]) -> Option<&'p Text>
    ensures { option_map (λ t. t.now) result ≡ spec.asked_for name.now parameters.now }
{
    let parameter = parameters
        .iter()
        .find(|parameter| parameter.name.as_str() == name)?;
    Some(&parameter.value)
}

/// The number that one or more decimal digits write, and 18,446,744,073,709,551,615 where they write a
/// greater one. A sign, a space or no digit at all is no number.
pub fn number_in(text: &str) -> Option<u64>
    ensures { result ≡ spec.number_in text.now }
{
    if is_number(text) {
        Some(value_of(text.as_bytes()))
    } else {
        None
    }
}

fn is_number(text: &str) -> bool
    ensures { result ≡ spec_is_number text.now }
{
    0 < text.len() && are_digits(text.as_bytes())
}

fn are_digits(bytes: &[u8]) -> bool
    ensures { result ≡ list_all is_ascii_digit bytes.now }
{
    bytes.iter().all(|byte| byte.is_ascii_digit())
}

fn value_of(digits: &[u8]) -> u64
    requires { spec_is_number digits.now ≡ true }
    ensures { result ≡ spec.capped (digits_value 10 digits.now) }
{
    let mut number: u64 = 0;
    for digit in digits {
        number = with_digit(number, *digit);
    }
    number
}

// The number with one more digit at its end, or the largest.
fn with_digit(number: u64, digit: u8) -> u64
    ensures { result ≡ spec.capped (number * 10 + (digit - 48)) }
{
    number
        .saturating_mul(10)
        .saturating_add(u64::from(digit.saturating_sub(b'0')))
}
