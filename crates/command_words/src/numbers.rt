//! Numbers as words spell them.

ghost use Rattle.std.specs.Prelude.{◌≡◌};
ghost use Rattle.std.specs.Char.{is_ascii_digit};
ghost use Rattle.std.specs.List.{list_all};
ghost use Rattle.command_words.specs.Words as spec;

/// The size that a text writes: a number of 1 to 200.
pub(crate) fn size_in(text: &str) -> Option<u64>
    ensures { result ≡ spec.size_in text.now }
{
    match number_in(text) {
        Some(number) if 1 <= number && number <= 200 => Some(number),
        _ => None,
    }
}

/// The port that a text writes: a number of 1 to 65535.
pub(crate) fn port_in(text: &str) -> Option<u16>
    ensures { result ≡ spec.port_in text.now }
{
    match number_in(text) {
        Some(number) if 1 <= number && number <= 65535 => Some(number as u16),
        _ => None,
    }
}

// A number has 1 to 10 digits, so it is below 2^64.
fn number_in(text: &str) -> Option<u64>
    ensures { result ≡ spec.number_in text.now }
{
    if is_number(text.as_bytes()) {
        text.parse::<u64>().ok()
    } else {
        None
    }
}

fn is_number(text: &[u8]) -> bool
    ensures { result ≡ spec.is_number text.now }
{
    match text {
        [] => false,
        [digit] => digit.is_ascii_digit(),
        [first, _, digits @ ..] => *first != b'0' && digits.len() <= 8 && are_digits(text),
    }
}

fn are_digits(text: &[u8]) -> bool
    ensures { result ≡ list_all is_ascii_digit text.now }
{
    text.iter().all(|byte| byte.is_ascii_digit())
}
