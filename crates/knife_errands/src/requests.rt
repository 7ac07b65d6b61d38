//! The requests that errands of one request make.

ghost use Rattle.std.specs.Prelude.{◌≡◌, ◌∷◌, [], IfOk};
ghost use Rattle.doc_tree.specs.Tree.{doc_of};
ghost use Rattle.knife_errands.specs.Kinds.{collection};
ghost use Rattle.knife_errands.specs.Requests as spec;
ghost use Rattle.knife_errands.specs.Targets as targets;

use crate::errands::{Kind, Step};
use crate::targets::{listing_target, raw_target, search_target, target, thing_target};
use doc_tree::{Bytes, Fields, NoMemory, Text, Tree, json_text};
use peer_wire::{Ask, Verb, Whom};
use std::alloc::Global;

/// The request that a step makes of the server.
pub fn request_of(alloc: Global, step: &Step, whom: &Whom) -> Result<Ask, NoMemory>
    // The one refusal is want of memory.
    ensures { IfOk result (λ ask. ask ≡ spec.request_of step.now whom.now) }
{
    match step {
        Step::List(listing) => Ok(bare(Verb::Get, listing_target(alloc, whom, listing)?)),
        Step::Show(thing) => Ok(bare(Verb::Get, thing_target(alloc, whom, thing)?)),
        Step::Create(kind, name) => creation(alloc, whom, *kind, name),
        Step::Delete(thing) => Ok(bare(Verb::Delete, thing_target(alloc, whom, thing)?)),
        Step::Search { index, query } => {
            let at = search_target(alloc, whom, index.as_str(), query.as_str())?;
            Ok(bare(Verb::Get, at))
        }
        Step::Raw(path) => Ok(bare(Verb::Get, raw_target(alloc, whom, path.as_str())?)),
    }
}

/// A request without a body.
pub(crate) fn bare(verb: Verb, target: Text) -> Ask
    ensures { result ≡ spec.bare verb target }
{
    Ask {
        verb,
        target,
        body: Bytes::constant(&[]),
    }
}

/// A request with a document.
pub(crate) fn sends(
    alloc: Global,
    verb: Verb,
    target: Text,
    document: &Tree,
) -> Result<Ask, NoMemory>
    ensures { IfOk result (λ ask. ask ≡ spec.sends verb target (doc_of document.now)) }
{
    let body = json_text(alloc, document)?;
    Ok(Ask { verb, target, body })
}

fn creation(alloc: Global, whom: &Whom, kind: Kind, name: &Text) -> Result<Ask, NoMemory>
    ensures { IfOk result (λ ask. ask ≡ spec.sends Verb.Post (targets.target whom.now (collection kind ∷ [])) (spec.named name.now)) }
{
    let at = target(alloc, whom, &[kind.collection()])?;
    let document = named(alloc, name)?;
    sends(alloc, Verb::Post, at, &document)
}

fn named(alloc: Global, name: &Text) -> Result<Tree, NoMemory>
    ensures { IfOk result (λ tree. doc_of tree ≡ spec.named name.now) }
{
    let mut fields = Fields::with_capacity(alloc, 1)?;
    let key = Text::from_str(alloc, "name")?;
    fields.put(key, Tree::Words(name.copy(alloc)?))?;
    Ok(Tree::Dict(fields))
}
