//! Reading a query.
ghost use Rattle.query_text.specs.Grammar.{Spells};
ghost use Rattle.query_text.specs.Place.{IsFault};
ghost use Rattle.std.specs.Prelude.{IfOk, IfErr};

use crate::fault::QueryFault;
use crate::machine::{ending, start, step};
use crate::query::Query;
use doc_tree::Text;
use std::alloc::Global;

/// Reads the query that a text spells: terms, NOT, AND, OR and parentheses, which nest at most 100 deep, NOTs counted
/// with them.
///
/// It is `NotAQuery` exactly where the text spells none, and then `place` is the length in bytes of the longest front
/// of the text with which some query begins. It takes no recursion, and memory for what was read alone.
pub fn read_query(alloc: Global, text: &Text) -> Result<Query, QueryFault>
    ensures query { IfOk result (λ query. Spells text.now query) }
    ensures fault { IfErr result (λ fault. IsFault text.now fault) }
{
    let bytes = text.as_bytes();
    let mut config = start(alloc);
    for (index, byte) in bytes.iter().enumerate() {
        match step(alloc, config, *byte)? {
            Some(next) => config = next,
            None => return Err(QueryFault::NotAQuery { place: index }),
        }
    }
    match ending(config)? {
        Some(query) => Ok(query),
        None => Err(QueryFault::NotAQuery { place: bytes.len() }),
    }
}
