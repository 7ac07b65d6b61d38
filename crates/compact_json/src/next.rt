//! The next tokens of a document's text.
ghost use Rattle.compact_json.specs.Next.{AtDoc, AtPairs, begins_value, begins_object};
ghost use Rattle.compact_json.specs.Compact.{first_doc};
ghost use Rattle.doc_tree.specs.Tokens.{doc_tokens};
ghost use Rattle.json.specs.Json.{read_key};
ghost use Rattle.json.specs.Reads.{token_of};
ghost use Rattle.json.specs.Token as seen;
ghost use Rattle.std.specs.Prelude.{◌≡◌, ◌≤◌, ◌∷◌, ◌++◌, IsTrue, Some, length, option_map};

use json::{Reader, Token};

/// The token that a document begins with.
pub(crate) fn next_token<'a>(reader: &mut Reader<'a>) -> Token<'a>
    requires { AtDoc reader.old }
    ensures value { reader.old ≡ token_of result ∷ reader.new }
    ensures begins { IsTrue (begins_value (token_of result)) }
{
    match reader.next() {
        Some(token) => token,
        None => unreachable!(),
    }
}

/// The next key of a dict, or `None` at its end.
pub(crate) fn next_key<'a>(reader: &mut Reader<'a>) -> Option<&'a str>
    requires { AtPairs reader.old }
    ensures { read_key reader.old ≡ Some (option_map (λ key. key.now) result, reader.new) }
{
    match reader.next_key() {
        Ok(key) => key,
        Err(_) => unreachable!(),
    }
}

/// Whether a dict is next, which is entered.
pub(crate) fn enters_dict(reader: &mut Reader<'_>) -> bool
    requires { AtDoc reader.old }
    ensures { (token : seen.Token) × (reader.old ≡ token ∷ reader.new)
        × (result ≡ begins_object token) }
{
    matches!(next_token(reader), Token::BeginObject)
}

/// Passes over a document that nests at most `depth` deep.
pub(crate) fn pass(reader: &mut Reader<'_>, depth: usize)
    requires at { AtDoc reader.old }
    requires depth { length reader.old ≤ depth }
    ensures { reader.old ≡ doc_tokens (first_doc reader.old) ++ reader.new }
{
    match reader.skip_value(depth) {
        Ok(()) => {}
        Err(_) => unreachable!(),
    }
}
