//! The whole numbers of a document's text.
ghost use Rattle.compact_json.specs.Whole.{IsWholeText};
ghost use Rattle.std.specs.Fmt.{signed_decimal};
ghost use Rattle.std.specs.Prelude.{◌≡◌};

use doc_tree::Number;

/// The number of these digits.
pub(crate) fn whole_of(digits: &str) -> Number
    requires { IsWholeText digits.now }
    ensures { digits.now ≡ signed_decimal result }
{
    match digits.parse::<u64>() {
        Ok(whole) => Number::from(whole),
        Err(_) => match digits.parse::<i64>() {
            Ok(whole) => Number::from(whole),
            Err(_) => unreachable!(),
        },
    }
}
