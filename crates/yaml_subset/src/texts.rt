//! Texts of bytes that are cut out of a text.
ghost use Rattle.std.specs.Prelude.{◌≡◌, IfOk};
ghost use Rattle.yaml_subset.specs.Quoted.{text_in};

use doc_tree::{NoMemory, Text};
use std::alloc::Global;

/// A text of its own with these bytes, where they are one.
pub(crate) fn text_from(alloc: Global, bytes: &[u8]) -> Result<Option<Text>, NoMemory>
    ensures { IfOk result (λ text. text ≡ text_in bytes.now) }
{
    match str::from_utf8(bytes) {
        Ok(text) => Ok(Some(Text::from_str(alloc, text)?)),
        Err(_) => Ok(None),
    }
}

/// The text of a vector's bytes, which is moved.
pub(crate) fn text_of(bytes: Vec<u8>) -> Option<Text>
    ensures { result ≡ text_in bytes.items }
{
    match String::from_utf8(bytes) {
        Ok(text) => Some(Text::of(text)),
        Err(_) => None,
    }
}
