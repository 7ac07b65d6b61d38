//! Policies and their revisions in replies.

ghost use Rattle.std.specs.Prelude.{◌≡◌, IfOk, Ok};
ghost use Rattle.doc_tree.specs.Text.{text_cmp};
ghost use Rattle.doc_tree.specs.Tree.{doc_of};
ghost use Rattle.shelves.specs.Shelves.{shelf_of, shelves_of};
ghost use Rattle.shelves.specs.SortedMap.{map_of};
ghost use Rattle.org_core.specs.Contexts.{seen};
ghost use Rattle.org_core.specs.Outcomes.{IsAsDecided};
ghost use Rattle.org_requests.specs.Replies.{one_key};
ghost use Rattle.policy_routes.specs.Policies as spec;

use crate::moving::prepared;
use crate::trees::put;
use doc_tree::{Fields, Kind, NoMemory, Text, Tree};
use org_core::{Context, Move, Prepared, key_of, or_stop, prepared_showing, unmoved};
use org_requests::{Reply, Stop, org_uri, shown_key};
use org_shelves::{Policies, Revision, ShelfMove};
use shelves::SortedMap;
use std::alloc::Global;

/// The policies are listed.
pub(crate) fn list(alloc: Global, context: Context<'_>) -> Result<Prepared, Stop>
    ensures { IsAsDecided result (spec.policies_listed (seen context.entry)).answer }
{
    let tree = listing_tree(alloc, context.org, context.state.shelves().policies())?;
    or_stop(prepared_showing(alloc, tree))
}

fn listing_tree(alloc: Global, org: &Text, policies: &Policies) -> Result<Tree, NoMemory>
    ensures { IfOk result (λ tree. doc_of tree ≡ spec.policy_listing org.now (shelves_of text_cmp policies.now)) }
{
    let mut fields = Fields::new(alloc);
    for (name, shelf) in policies.shelves() {
        let copied = name.copy(alloc)?;
        fields.put(copied, listed_tree(alloc, org, name, shelf)?)?;
    }
    Ok(Tree::Dict(fields))
}

// A policy in a listing: its revisions and its path.
fn listed_tree(
    alloc: Global,
    org: &Text,
    name: &Text,
    shelf: &SortedMap<Text, Revision>,
) -> Result<Tree, NoMemory>
    ensures { IfOk result (λ tree. doc_of tree ≡ spec.listed_policy org.now name.now (map_of text_cmp shelf.now)) }
{
    let uri = policy_path(alloc, org, name)?;
    let mut fields = Fields::with_capacity(alloc, 2)?;
    let revisions = revisions_tree(alloc, shelf)?;
    put(alloc, &mut fields, "revisions", revisions)?;
    put(alloc, &mut fields, "uri", Tree::Words(uri))?;
    Ok(Tree::Dict(fields))
}

fn policy_path(alloc: Global, org: &Text, name: &Text) -> Result<Text, NoMemory>
    ensures { IfOk result (λ path. path ≡ spec.policy_path org.now name.now) }
{
    let front = Text::joined(alloc, org_uri(alloc, org)?.as_str(), "/policies/")?;
    Text::joined(alloc, front.as_str(), name.as_str())
}

fn revisions_tree(alloc: Global, shelf: &SortedMap<Text, Revision>) -> Result<Tree, NoMemory>
    ensures { IfOk result (λ tree. doc_of tree ≡ spec.revisions_doc (map_of text_cmp shelf.now)) }
{
    let mut fields = Fields::new(alloc);
    for (revision, _) in shelf.entries() {
        fields.put(revision.copy(alloc)?, Tree::Dict(Fields::new(alloc)))?;
    }
    Ok(Tree::Dict(fields))
}

/// A policy is shown.
pub(crate) fn show(alloc: Global, context: Context<'_>, policy: Text) -> Result<Prepared, Stop>
    ensures { IsAsDecided result (spec.policy_shown (seen context.entry) policy).answer }
{
    or_stop(unmoved(alloc, policy_reply(alloc, context, &policy)))
}

// 200 with the revisions of a policy.
fn policy_reply(alloc: Global, context: Context<'_>, policy: &Text) -> Result<Reply, NoMemory>
    ensures { IfOk result (λ reply. reply ≡ spec.policy_reply (seen context.entry) policy.now) }
{
    shown_key(alloc, "revisions", found_tree(alloc, context, policy)?)
}

// The revisions of a policy, of which one that isn't there has none.
fn found_tree(alloc: Global, context: Context<'_>, policy: &Text) -> Result<Tree, NoMemory>
    ensures { IfOk result (λ tree. doc_of tree ≡ spec.revisions_doc (shelf_of (spec.policies_of (seen context.entry)) policy.now)) }
{
    match context.state.shelves().policies().shelf(policy) {
        Some(shelf) => revisions_tree(alloc, shelf),
        None => revisions_tree(alloc, &SortedMap::new(alloc)),
    }
}

/// A policy goes, with its revisions, its assignments and its list.
pub(crate) fn remove(alloc: Global, context: Context<'_>, policy: Text) -> Result<Prepared, Stop>
    ensures { IsAsDecided result (spec.policy_removed (seen context.entry) policy).answer }
{
    let reply = policy_reply(alloc, context, &policy)?;
    let key = key_of(alloc, Kind::Policy, policy.as_str())?;
    let take = Move::OnShelves(ShelfMove::TakePolicy(policy));
    or_stop(prepared(alloc, reply, take, Some(Move::TakeList(key))))
}
