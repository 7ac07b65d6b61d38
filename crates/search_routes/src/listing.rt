//! The listing of the indexes.

ghost use Rattle.std.specs.Prelude.{◌≡◌, ◌++◌, IfOk, OnOk};
ghost use Rattle.doc_tree.specs.Valid.{InOrder};
ghost use Rattle.object_finder.specs.Indexes.{kinds_words};
ghost use Rattle.org_core.specs.Contexts.{seen};
ghost use Rattle.org_core.specs.Outcomes.{IsAsDecided};
ghost use Rattle.org_core.specs.States.{objects_of};
ghost use Rattle.search_routes.specs.Listing as spec;

use doc_tree::{Kind, NoMemory, Text, Texts};
use membership::TextSet;
use object_finder::indexed;
use org_core::{Context, Moves, Prepared};
use org_requests::{org_uri, shown_paths};
use std::alloc::Global;

/// The indexes are listed, each with its path.
pub(crate) fn list_indexes(alloc: Global, context: Context<'_>) -> Result<Prepared, NoMemory>
    ensures { IfOk result (λ p. IsAsDecided (Ok p) (spec.indexes_listed (seen context.entry)).answer) }
{
    let front = Text::joined(alloc, org_uri(alloc, context.org)?.as_str(), "/search/")?;
    let words = index_words(alloc, context)?;
    Ok(Prepared {
        reply: shown_paths(alloc, front.as_str(), words.as_slice())?,
        moves: Moves::new(alloc),
    })
}

// The words of all indexes, in the order of their bytes and each once.
fn index_words(alloc: Global, context: Context<'_>) -> Result<Texts, NoMemory>
    ensures value { IfOk result (λ words. words ≡ spec.index_words (objects_of (seen context.entry).state)) }
    ensures order { IfOk result InOrder }
{
    let mut words = context.state.names(alloc, Kind::Bag)?;
    add_kinds(alloc, &mut words)?;
    Ok(TextSet::of(words.into_vec()).into_texts())
}

// Adds the words of the indexes of the four kinds.
fn add_kinds(alloc: Global, words: &mut Texts) -> Result<(), NoMemory>
    ensures { OnOk result (words.new ≡ words.old ++ kinds_words) }
{
    for kind in indexed() {
        words.push(Text::from_str(alloc, kind.word())?)?;
    }
    Ok(())
}
