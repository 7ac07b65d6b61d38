//! The routes of artifacts.

ghost use Rattle.std.specs.Prelude.{◌≡◌, ◌∷◌, ◌&&◌, None, Some, Ok, IfOk, OnOk, is_some, not, cond, map, option_copied};
ghost use Rattle.doc_tree.specs.Text.{text_cmp};
ghost use Rattle.doc_tree.specs.Name.{is_name as spec_is_name};
ghost use Rattle.doc_tree.specs.Part.{with_pair};
ghost use Rattle.doc_tree.specs.Tree.{doc_of};
ghost use Rattle.shelves.specs.Shelves.{has_shelf, shelves_of};
ghost use Rattle.shelves.specs.SortedMap.{map_of};
ghost use Rattle.org_requests.specs.Documents as bodies;
ghost use Rattle.org_core.specs.Contexts.{seen};
ghost use Rattle.org_core.specs.Manifests.{files_front, shown_found as spec_shown_found};
ghost use Rattle.org_core.specs.Outcomes.{Looked, IsAsDecided};
ghost use Rattle.org_requests.specs.Refusals.{Tells};
ghost use Rattle.org_requests.specs.Replies.{with_body};
ghost use Rattle.org_shelves.specs.Showing.{shown_doc};
ghost use Rattle.policy_routes.specs.Artifacts as spec;
ghost use Rattle.policy_routes.specs.Moving.{if_there};
ghost use Rattle.policy_routes.specs.PolicyRules as rules;

use crate::moving::{list_of_first, prepared};
use crate::operations::PolicyOperation;
use crate::trees::put;
use access_lists::{Container, Perm};
use cookbook_meta::is_identifier;
use doc_tree::{Fields, Kind, Name, NoMemory, Steps, Text, Tree, Trees, is_name};
use org_core::{
    Context, Move, Need, Prepared, bad_manifest, key_of, listed_need, missing_sums, missing_told,
    or_stop, prepared_showing, reply_showing, shown_edition, shown_found, unmoved,
};
use org_requests::{Body, Refusal, Reply, Stop, Verb, absent, document_in, made, org_uri};
use org_shelves::{Artifacts, Edition, ShelfMove};
use shelves::SortedMap;
use std::alloc::Global;
use std::sync::ledger::Ledger;

/// What is asked of an artifact.
pub(crate) fn artifact_asked(
    alloc: Global,
    name: &Text,
    id: &Text,
    verb: Verb,
    body: &Body,
) -> Result<PolicyOperation, Stop>
    ensures { Tells result (rules.artifact_asked name.now id.now verb body.now) }
{
    match verb {
        Verb::Get => Ok(PolicyOperation::ShowArtifact(name.copy(alloc)?, id.copy(alloc)?)),
        Verb::Put => put_asked(alloc, name, id, body),
        Verb::Delete => Ok(PolicyOperation::RemoveArtifact(name.copy(alloc)?, id.copy(alloc)?)),
        Verb::Post | Verb::Other => Err(Stop::Refused(Refusal::NotAllowed)),
    }
}

// A PUT of an artifact, whose body is looked at in full where the path has the form of one's.
fn put_asked(alloc: Global, name: &Text, id: &Text, body: &Body) -> Result<PolicyOperation, Stop>
    ensures { Tells result (rules.put_artifact name.now id.now body.now) }
{
    match Name::of(name.copy(alloc)?) {
        Ok(name) if is_identifier(id.as_str()) => putting(alloc, name, id, body),
        _ => Err(Stop::Refused(absent(body))),
    }
}

fn putting(alloc: Global, name: Name, id: &Text, body: &Body) -> Result<PolicyOperation, Stop>
    ensures { Tells result (rules.putting_artifact name id.now (spec.artifact_said name id.now (bodies.document_in body.now))) }
{
    let copied = id.copy(alloc)?;
    let edition = edition_in(alloc, body, &name, id)?;
    Ok(PolicyOperation::PutArtifact(name.into_text(), copied, edition))
}

// What is stored of the artifact of this name and identifier that a body gives.
fn edition_in(alloc: Global, body: &Body, name: &Name, id: &Text) -> Result<Edition, Stop>
    ensures { Tells result (spec.artifact_said name.now id.now (bodies.document_in body.now)) }
{
    match document_in(body) {
        Ok(tree) => edition_of(alloc, tree, name, id),
        Err(refusal) => Err(Stop::Refused(refusal)),
    }
}

// What is stored of the artifact of this name and identifier that a tree gives.
fn edition_of(alloc: Global, tree: &Tree, name: &Name, id: &Text) -> Result<Edition, Stop>
    ensures { Tells result (spec.artifact_said name.now id.now (Ok (doc_of tree.now))) }
{
    match Edition::read_artifact(alloc, tree, name, id) {
        Ok(edition) => Ok(edition),
        Err(fault) => Err(bad_manifest(alloc, &fault)),
    }
}

/// What the organisation stores of this cookbook under this identifier, if it does. It takes no memory.
pub(crate) fn artifact_at<'c>(context: Context<'c>, name: &Text, id: &Text) -> Option<&'c Edition>
    ensures { option_copied result ≡ spec.artifact_at (seen context.entry) name.now id.now }
{
    context.state.shelves().artifacts().get(name, id)
}

/// Whether there is no such artifact, or its name and identifier haven't their forms.
pub(crate) fn lacks_artifact(context: Context<'_>, name: &Text, id: &Text) -> bool
    ensures { result ≡ spec.lacks_artifact (seen context.entry) name.now id.now }
{
    let is_artifact_name = is_name(name.as_str()) && is_identifier(id.as_str());
    !(is_artifact_name && artifact_at(context, name, id).is_some())
}

fn has_artifacts(context: Context<'_>, name: &Text) -> bool
    ensures { result ≡ has_shelf (spec.artifacts_of (seen context.entry)) name.now }
{
    context.state.shelves().artifacts().has(name)
}

/// The permission that a PUT of an artifact needs.
pub(crate) fn put_need(alloc: Global, context: Context<'_>, name: &Text) -> Result<Need, NoMemory>
    ensures { IfOk result (λ need. need ≡ spec.put_artifact_need (seen context.entry) name.now) }
{
    if has_artifacts(context, name) {
        listed_need(alloc, Perm::Update, Kind::Artifact, name.as_str())
    } else {
        listed_need(alloc, Perm::Create, Kind::Container, "cookbook_artifacts")
    }
}

/// Why an artifact isn't put: there is one under this identifier, or files are missing.
pub(crate) fn put_refusal(
    alloc: Global,
    context: Context<'_>,
    name: &Text,
    id: &Text,
    edition: &Edition,
) -> Result<Option<Refusal>, NoMemory>
    ensures { IfOk result (λ o. o ≡ spec.put_artifact_refusal (seen context.entry) name.now id.now edition.now) }
{
    if artifact_at(context, name, id).is_some() {
        return Ok(Some(Refusal::AlreadyExists));
    }
    Ok(missing_told(missing_sums(alloc, context, edition)?))
}

/// The artifacts are listed.
pub(crate) fn list(alloc: Global, context: Context<'_>) -> Result<Prepared, Stop>
    ensures { IsAsDecided result (spec.artifacts_listed (seen context.entry)).answer }
{
    let tree = listing_tree(alloc, context.org, context.state.shelves().artifacts())?;
    or_stop(prepared_showing(alloc, tree))
}

fn listing_tree(alloc: Global, org: &Text, artifacts: &Artifacts) -> Result<Tree, NoMemory>
    ensures { IfOk result (λ tree. doc_of tree ≡ spec.artifact_listing org.now (shelves_of text_cmp artifacts.now)) }
{
    let mut fields = Fields::new(alloc);
    for (name, shelf) in artifacts.shelves() {
        let copied = name.copy(alloc)?;
        fields.put(copied, artifacts_tree(alloc, org, name, shelf)?)?;
    }
    Ok(Tree::Dict(fields))
}

// The artifacts of a cookbook, with their path.
fn artifacts_tree(
    alloc: Global,
    org: &Text,
    name: &Text,
    shelf: &SortedMap<Text, Edition>,
) -> Result<Tree, NoMemory>
    ensures { IfOk result (λ tree. doc_of tree ≡ spec.artifacts_doc org.now name.now (map_of text_cmp shelf.now)) }
{
    let url = artifacts_path(alloc, org, name)?;
    let mut fields = Fields::with_capacity(alloc, 2)?;
    let artifacts = identifiers_tree(alloc, org, name, shelf.entries())?;
    put(alloc, &mut fields, "artifacts", artifacts)?;
    put(alloc, &mut fields, "url", Tree::Words(url))?;
    Ok(Tree::Dict(fields))
}

fn identifiers_tree(
    alloc: Global,
    org: &Text,
    name: &Text,
    entries: &[(Text, Edition)],
) -> Result<Tree, NoMemory>
    ensures { IfOk result (λ tree. doc_of tree ≡ spec.identifiers_doc org.now name.now entries.now) }
{
    let mut trees = Trees::new(alloc);
    for (id, _) in entries {
        trees.push(identifier_tree(alloc, org, name, id)?)?;
    }
    Ok(Tree::List(trees))
}

fn identifier_tree(alloc: Global, org: &Text, name: &Text, id: &Text) -> Result<Tree, NoMemory>
    ensures { IfOk result (λ tree. doc_of tree ≡ spec.artifact_doc org.now name.now id.now) }
{
    let copied = id.copy(alloc)?;
    let url = artifact_path(alloc, org, name, id)?;
    let mut fields = Fields::with_capacity(alloc, 2)?;
    put(alloc, &mut fields, "identifier", Tree::Words(copied))?;
    put(alloc, &mut fields, "url", Tree::Words(url))?;
    Ok(Tree::Dict(fields))
}

fn artifact_path(alloc: Global, org: &Text, name: &Text, id: &Text) -> Result<Text, NoMemory>
    ensures { IfOk result (λ path. path ≡ spec.artifact_path org.now name.now id.now) }
{
    let path = artifacts_path(alloc, org, name)?;
    let front = Text::joined(alloc, path.as_str(), "/")?;
    Text::joined(alloc, front.as_str(), id.as_str())
}

fn artifacts_path(alloc: Global, org: &Text, name: &Text) -> Result<Text, NoMemory>
    ensures { IfOk result (λ path. path ≡ spec.artifacts_path org.now name.now) }
{
    let front = Text::joined(alloc, org_uri(alloc, org)?.as_str(), "/cookbook_artifacts/")?;
    Text::joined(alloc, front.as_str(), name.as_str())
}

/// An artifact is shown.
pub(crate) fn show<L: Ledger>(
    alloc: Global,
    context: Context<'_>,
    name: Text,
    id: Text,
    steps: &mut Steps<L>,
) -> Result<Prepared, Stop>
    ensures done { IsAsDecided result (spec.artifact_shown (seen context.entry) name id).answer }
    ensures looked { Looked result (spec.artifact_shown (seen context.entry) name id).looks steps.old steps.new }
{
    steps.tick();
    or_stop(unmoved(alloc, artifact_reply(alloc, context, &name, &id)))
}

// 200 with the manifest of an artifact.
fn artifact_reply(
    alloc: Global,
    context: Context<'_>,
    name: &Text,
    id: &Text,
) -> Result<Reply, NoMemory>
    ensures { IfOk result (λ reply. reply ≡ with_body 200 (spec_shown_found (seen context.entry).org (spec.artifact_at (seen context.entry) name.now id.now))) }
{
    let tree = shown_found(alloc, context.org, artifact_at(context, name, id))?;
    reply_showing(alloc, tree)
}

/// An artifact is put.
pub(crate) fn put_artifact(
    alloc: Global,
    context: Context<'_>,
    name: Text,
    id: Text,
    edition: Edition,
) -> Result<Prepared, Stop>
    ensures { IsAsDecided result (spec.artifact_put (seen context.entry) name id edition).answer }
{
    match put_told(alloc, context, &name, &edition) {
        Ok((reply, list)) => {
            let put = ShelfMove::PutArtifact(name, id, edition);
            or_stop(prepared(alloc, reply, Move::OnShelves(put), list))
        }
        Err(fault) => {
            drop(edition);
            Err(Stop::from(fault))
        }
    }
}

// 201 with an artifact's manifest, and the list of the cookbook's artifacts where it is the first.
fn put_told(
    alloc: Global,
    context: Context<'_>,
    name: &Text,
    edition: &Edition,
) -> Result<(Reply, Option<Move>), NoMemory>
    ensures reply { IfOk result (λ p. p.0 ≡ with_body 201 (shown_doc (files_front (seen context.entry).org) edition.now)) }
    ensures list { IfOk result (λ p. if_there p.1 ≡ spec.first_artifact_list (seen context.entry) name.now) }
{
    let reply = made_reply(alloc, context, edition)?;
    let is_there = has_artifacts(context, name);
    let container = Container::CookbookArtifacts;
    let list = list_of_first(alloc, context, is_there, Kind::Artifact, name, container)?;
    Ok((reply, list))
}

// 201 with a manifest.
fn made_reply(alloc: Global, context: Context<'_>, edition: &Edition) -> Result<Reply, NoMemory>
    ensures { IfOk result (λ reply. reply ≡ with_body 201 (shown_doc (files_front (seen context.entry).org) edition.now)) }
{
    let tree = shown_edition(alloc, context.org, edition)?;
    let reply = made(alloc, &tree);
    drop(tree);
    reply
}

/// An artifact goes.
pub(crate) fn remove<L: Ledger>(
    alloc: Global,
    context: Context<'_>,
    name: Text,
    id: Text,
    steps: &mut Steps<L>,
) -> Result<Prepared, Stop>
    ensures done { IsAsDecided result (spec.artifact_removed (seen context.entry) name id).answer }
    ensures looked { Looked result (spec.artifact_removed (seen context.entry) name id).looks steps.old steps.new }
{
    steps.tick();
    or_stop(removed(alloc, context, name, id))
}

// 200 with an artifact's manifest as it was, and the moves that take it away.
fn removed(alloc: Global, context: Context<'_>, name: Text, id: Text) -> Result<Prepared, NoMemory>
    ensures { IfOk result (λ p. IsAsDecided (Ok p) (spec.artifact_removed (seen context.entry) name id).answer) }
{
    let reply = artifact_reply(alloc, context, &name, &id)?;
    let list = list_of_last(alloc, context, &name, &id)?;
    let take = ShelfMove::TakeArtifact(name, id);
    prepared(alloc, reply, Move::OnShelves(take), list)
}

// The list of the cookbook's artifacts goes with the last of them.
fn list_of_last(
    alloc: Global,
    context: Context<'_>,
    name: &Text,
    id: &Text,
) -> Result<Option<Move>, NoMemory>
    ensures { IfOk result (λ o. if_there o ≡ spec.last_artifact_list (spec.artifacts_of (seen context.entry)) name.now id.now) }
{
    if keeps_others(context, name, id) {
        return Ok(None);
    }
    let key = key_of(alloc, Kind::Artifact, name.as_str())?;
    Ok(Some(Move::TakeList(key)))
}

// Whether the cookbook has other artifacts once this one is gone.
fn keeps_others(context: Context<'_>, name: &Text, id: &Text) -> bool
    ensures { result ≡ spec.keeps_artifacts (spec.artifacts_of (seen context.entry)) name.now id.now }
{
    match context.state.shelves().artifacts().shelf(name) {
        Some(shelf) => shelf.len() > 1 || !shelf.contains(id),
        None => false,
    }
}
