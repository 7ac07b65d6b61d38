//! The routes of cookbook versions.

ghost use Rattle.std.specs.Prelude.{◌≡◌, ◌+◌, ◌∷◌, [], None, Some, Ok, IfOk, OnOk, codes, is_some, not, cond, option_map, option_copied};
ghost use Rattle.doc_tree.specs.Name.{is_name as spec_is_name};
ghost use Rattle.doc_tree.specs.Tree.{doc_of};
ghost use Rattle.shelves.specs.Shelves.{has_shelf};
ghost use Rattle.org_requests.specs.Documents as bodies;
ghost use Rattle.access_lists.specs.declared.starting.Container.TheVariants as container;
ghost use Rattle.org_core.specs.Contexts.{seen};
ghost use Rattle.org_core.specs.Creating.{created_list as spec_created_list};
ghost use Rattle.org_core.specs.Manifests as manifests;
ghost use Rattle.org_core.specs.Outcomes.{Looked, IsAsDecided};
ghost use Rattle.org_requests.specs.Refusals.{Tells};
ghost use Rattle.org_requests.specs.Replies.{with_body};
ghost use Rattle.org_core.specs.States.{cookbooks_of};
ghost use Rattle.cookbook_routes.specs.CookbookRules as rules;
ghost use Rattle.cookbook_routes.specs.Versions as spec;

use crate::operations::{CookbookOperation, Wanted};
use access_lists::{Container, Perm};
use doc_tree::{Kind, Name, NoMemory, Steps, Text, Tree, is_name};
use object_store::Key;
use org_core::{
    Context, Move, Moves, Need, Prepared, bad_manifest, created_list, key_of, listed_need,
    missing_sums, missing_told, one_move, or_stop, reply_showing, shown_edition, shown_found,
    with_moves,
};
use org_requests::{
    Body, Parameter, Refusal, Reply, Stop, Verb, absent, asked_for, document_in, made_or_shown,
};
use org_shelves::{Edition, ShelfMove};
use std::alloc::Global;
use std::sync::ledger::Ledger;
use version_rules::{Version, read_version};

/// What is asked of a version of a cookbook.
pub(crate) fn version_asked(
    alloc: Global,
    name: &Text,
    version: &Text,
    verb: Verb,
    parameters: &[Parameter],
    body: &Body,
) -> Result<CookbookOperation, Stop>
    ensures { Tells result (rules.version_asked name.now version.now verb parameters.now body.now) }
{
    match verb {
        Verb::Get => showing(alloc, name, wanted_in(version)),
        Verb::Put => put_asked(alloc, name, version_in(version), parameters, body),
        Verb::Delete => removing(alloc, name, version_in(version)),
        Verb::Post | Verb::Other => Err(Stop::Refused(Refusal::NotAllowed)),
    }
}

fn showing(alloc: Global, name: &Text, wanted: Option<Wanted>) -> Result<CookbookOperation, Stop>
    ensures { Tells result (rules.showing_version name.now wanted) }
{
    match wanted {
        Some(wanted) => Ok(CookbookOperation::ShowVersion(name.copy(alloc)?, wanted)),
        None => Err(Stop::Refused(Refusal::NotFound)),
    }
}

fn removing(alloc: Global, name: &Text, version: Option<Version>) -> Result<CookbookOperation, Stop>
    ensures { Tells result (rules.removing_version name.now version) }
{
    match version {
        Some(version) => Ok(CookbookOperation::RemoveVersion(name.copy(alloc)?, version)),
        None => Err(Stop::Refused(Refusal::NotFound)),
    }
}

// The version that a segment of a path asks for.
fn wanted_in(text: &Text) -> Option<Wanted>
    ensures { result ≡ spec.wanted_in text.now }
{
    if text.as_str() == "_latest" {
        return Some(Wanted::Latest);
    }
    version_in(text).map(Wanted::Exactly)
}

// The version that a text spells.
fn version_in(text: &Text) -> Option<Version>
    ensures { result ≡ spec.version_in text.now }
{
    match read_version(text) {
        Ok(version) => Some(version),
        Err(_) => None,
    }
}

// A PUT of a version, whose body is looked at in full where the path has the form of a version's.
fn put_asked(
    alloc: Global,
    name: &Text,
    version: Option<Version>,
    parameters: &[Parameter],
    body: &Body,
) -> Result<CookbookOperation, Stop>
    ensures { Tells result (rules.put_version (spec_is_name name.now) name.now version parameters.now body.now) }
{
    match (Name::of(name.copy(alloc)?), version) {
        (Ok(name), Some(version)) => putting(alloc, name, version, parameters, body),
        _ => Err(Stop::Refused(absent(body))),
    }
}

fn putting(
    alloc: Global,
    name: Name,
    version: Version,
    parameters: &[Parameter],
    body: &Body,
) -> Result<CookbookOperation, Stop>
    ensures { Tells result (rules.putting name version (spec.is_forced parameters.now) (spec.manifest_said name version (bodies.document_in body.now))) }
{
    let edition = edition_in(alloc, body, &name, &version)?;
    let forced = is_forced(parameters);
    Ok(CookbookOperation::PutVersion(name.into_text(), version, edition, forced))
}

// What is stored of the manifest of this name and version that a body gives.
fn edition_in(alloc: Global, body: &Body, name: &Name, version: &Version) -> Result<Edition, Stop>
    ensures { Tells result (spec.manifest_said name.now version.now (bodies.document_in body.now)) }
{
    match document_in(body) {
        Ok(tree) => edition_of(alloc, tree, name, version),
        Err(refusal) => Err(Stop::Refused(refusal)),
    }
}

// What is stored of the manifest of this name and version that a tree gives.
fn edition_of(alloc: Global, tree: &Tree, name: &Name, version: &Version) -> Result<Edition, Stop>
    ensures { Tells result (spec.manifest_said name.now version.now (Ok (doc_of tree.now))) }
{
    match Edition::read(alloc, tree, name, version) {
        Ok(edition) => Ok(edition),
        Err(fault) => Err(bad_manifest(alloc, &fault)),
    }
}

// Whether the parameter `force` is `true`.
fn is_forced(parameters: &[Parameter]) -> bool
    ensures { result ≡ spec.is_forced parameters.now }
{
    match asked_for("force", parameters) {
        Some(text) => text.as_str() == "true",
        None => false,
    }
}

/// The manifest that is wanted of a cookbook, if the organisation has it. It takes no memory.
pub(crate) fn wanted_of<'c>(
    context: Context<'c>,
    name: &Text,
    wanted: Wanted,
) -> Option<&'c Edition>
    ensures { option_copied result ≡ spec.wanted_of (seen context.entry) name.now wanted }
{
    match wanted {
        Wanted::Latest => latest_of(context, name),
        Wanted::Exactly(version) => stored_at(context, name, version),
    }
}

fn latest_of<'c>(context: Context<'c>, name: &Text) -> Option<&'c Edition>
    ensures { option_copied result ≡ spec.latest_of (cookbooks_of (seen context.entry).state) name.now }
{
    let (_, edition) = context.state.cookbooks().shelf(name)?.last()?;
    Some(edition)
}

/// What the organisation stores under a name and a version, if it does. It takes no memory.
pub(crate) fn stored_at<'c>(
    context: Context<'c>,
    name: &Text,
    version: Version,
) -> Option<&'c Edition>
    ensures { option_copied result ≡ spec.stored_at (seen context.entry) name.now version }
{
    context.state.cookbooks().get(name, &version)
}

/// Whether the organisation has no cookbook of this name, or it has no name's form.
pub(crate) fn lacks_cookbook(context: Context<'_>, name: &Text) -> bool
    ensures { result ≡ rules.lacks_cookbook (seen context.entry) name.now }
{
    !(is_name(name.as_str()) && has_cookbook(context, name))
}

/// Whether the cookbook has no version that is wanted.
pub(crate) fn lacks_wanted(context: Context<'_>, name: &Text, wanted: Wanted) -> bool
    ensures { result ≡ rules.lacks_wanted (seen context.entry) name.now wanted }
{
    !(is_name(name.as_str()) && wanted_of(context, name, wanted).is_some())
}

/// Whether the cookbook hasn't this version.
pub(crate) fn lacks_version(context: Context<'_>, name: &Text, version: Version) -> bool
    ensures { result ≡ rules.lacks_version (seen context.entry) name.now version }
{
    !(is_name(name.as_str()) && stored_at(context, name, version).is_some())
}

/// Whether the organisation has a cookbook of this name.
pub(crate) fn has_cookbook(context: Context<'_>, name: &Text) -> bool
    ensures { result ≡ has_shelf (cookbooks_of (seen context.entry).state) name.now }
{
    context.state.cookbooks().has(name)
}

/// The permission that a PUT of a version needs.
pub(crate) fn put_need(alloc: Global, context: Context<'_>, name: &Text) -> Result<Need, NoMemory>
    ensures { IfOk result (λ need. need ≡ spec.put_need (seen context.entry) name.now) }
{
    if has_cookbook(context, name) {
        listed_need(alloc, Perm::Update, Kind::Cookbook, name.as_str())
    } else {
        listed_need(alloc, Perm::Create, Kind::Container, "cookbooks")
    }
}

/// Why a version isn't put: the one in its place is frozen, or files are missing.
pub(crate) fn put_refusal(
    alloc: Global,
    context: Context<'_>,
    name: &Text,
    version: Version,
    edition: &Edition,
    forced: bool,
) -> Result<Option<Refusal>, NoMemory>
    ensures { IfOk result (λ o. o ≡ spec.put_refusal (seen context.entry) name.now version edition.now forced) }
{
    if is_frozen_at(context, name, version) && !forced {
        return Ok(Some(Refusal::Frozen));
    }
    Ok(missing_told(missing_sums(alloc, context, edition)?))
}

fn is_frozen_at(context: Context<'_>, name: &Text, version: Version) -> bool
    ensures { result ≡ spec.is_frozen_found (spec.stored_at (seen context.entry) name.now version) }
{
    match stored_at(context, name, version) {
        Some(edition) => edition.is_frozen(),
        None => false,
    }
}

/// A version is shown.
pub(crate) fn show<L: Ledger>(
    alloc: Global,
    context: Context<'_>,
    name: Text,
    wanted: Wanted,
    steps: &mut Steps<L>,
) -> Result<Prepared, Stop>
    ensures done { IsAsDecided result (spec.version_shown (seen context.entry) name wanted).answer }
    ensures looked { Looked result (spec.version_shown (seen context.entry) name wanted).looks steps.old steps.new }
{
    steps.tick();
    let reply = found_told(alloc, context.org, wanted_of(context, &name, wanted))?;
    Ok(Prepared {
        reply,
        moves: Moves::new(alloc),
    })
}

// 200 with the manifest that was found.
fn found_told(alloc: Global, org: &Text, found: Option<&Edition>) -> Result<Reply, NoMemory>
    ensures { IfOk result (λ reply. reply ≡ with_body 200 (manifests.shown_found org.now (option_copied found.entry))) }
{
    reply_showing(alloc, shown_found(alloc, org, found)?)
}

/// A version is put.
pub(crate) fn put<L: Ledger>(
    alloc: Global,
    context: Context<'_>,
    name: Text,
    version: Version,
    edition: Edition,
    steps: &mut Steps<L>,
) -> Result<Prepared, Stop>
    ensures done { IsAsDecided result (spec.version_put (seen context.entry) name version edition).answer }
    ensures looked { Looked result (spec.version_put (seen context.entry) name version edition).looks steps.old steps.new }
{
    let found = stored_at(context, &name, version);
    let is_new = found.is_none();
    if !is_new {
        steps.tick();
    }
    let stored = stored_over(alloc, found, edition)?;
    or_stop(put_stored(alloc, context, name, version, is_new, stored))
}

// What is stored is told and put.
fn put_stored(
    alloc: Global,
    context: Context<'_>,
    name: Text,
    version: Version,
    is_new: bool,
    stored: Edition,
) -> Result<Prepared, NoMemory>
    ensures reply { IfOk result (λ p. p.reply ≡ with_body (cond is_new 201 200) (manifests.shown_found (seen context.entry).org (Some stored))) }
    ensures moves { IfOk result (λ p. p.moves ≡ spec.put_moves (seen context.entry) name version stored) }
{
    let reply = stored_told(alloc, context.org, is_new, &stored);
    with_moves(reply, put_moves(alloc, context, name, version, stored))
}

// The reply to a PUT, with what is stored.
fn stored_told(alloc: Global, org: &Text, is_new: bool, stored: &Edition) -> Result<Reply, NoMemory>
    ensures { IfOk result (λ reply. reply ≡ with_body (cond is_new 201 200) (manifests.shown_found org.now (Some stored.now))) }
{
    let tree = shown_edition(alloc, org, stored)?;
    let reply = made_or_shown(alloc, is_new, &tree);
    drop(tree);
    reply
}

// What was frozen stays frozen.
fn stored_over(
    alloc: Global,
    found: Option<&Edition>,
    edition: Edition,
) -> Result<Edition, NoMemory>
    ensures { IfOk result (λ e. e ≡ spec.stored_over (option_copied found.entry) edition) }
{
    match found {
        Some(old) if old.is_frozen() => edition.with_frozen(alloc),
        _ => Ok(edition),
    }
}

fn put_moves(
    alloc: Global,
    context: Context<'_>,
    name: Text,
    version: Version,
    edition: Edition,
) -> Result<Moves, NoMemory>
    ensures { IfOk result (λ moves. moves ≡ spec.put_moves (seen context.entry) name version edition) }
{
    let is_first = !has_cookbook(context, &name);
    match key_of(alloc, Kind::Cookbook, name.as_str()) {
        Ok(key) => {
            let put = Move::OnShelves(ShelfMove::PutVersion(name, version, edition));
            let mut moves = Moves::new(alloc);
            add_put(alloc, context, is_first, key, put, &mut moves).and(Ok(moves))
        }
        Err(fault) => {
            drop(edition);
            Err(fault)
        }
    }
}

// Adds the move that puts a version, and where it is the first the access list of its cookbook, which has this key.
fn add_put(
    alloc: Global,
    context: Context<'_>,
    is_first: bool,
    key: Key,
    put: Move,
    moves: &mut Moves,
) -> Result<(), NoMemory>
    requires { moves.old ≡ [] }
    ensures { OnOk result (moves.new ≡ put ∷ cond is_first (Move.PutList key (spec_created_list container.Cookbooks (seen context.entry)) ∷ []) []) }
{
    moves.push(put)?;
    if is_first {
        let list = created_list(alloc, context, Container::Cookbooks)?;
        return moves.push(Move::PutList(key, list));
    }
    Ok(())
}

/// A version goes.
pub(crate) fn remove<L: Ledger>(
    alloc: Global,
    context: Context<'_>,
    name: Text,
    version: Version,
    steps: &mut Steps<L>,
) -> Result<Prepared, Stop>
    ensures done { IsAsDecided result (spec.version_removed (seen context.entry) name version).answer }
    ensures looked { Looked result (spec.version_removed (seen context.entry) name version).looks steps.old steps.new }
{
    steps.tick();
    let reply = found_told(alloc, context.org, stored_at(context, &name, version));
    or_stop(with_moves(reply, removal(alloc, context, name, version)))
}

fn removal(
    alloc: Global,
    context: Context<'_>,
    name: Text,
    version: Version,
) -> Result<Moves, NoMemory>
    ensures { IfOk result (λ moves. moves ≡ spec.removal (seen context.entry) name version) }
{
    let is_last = !keeps_others(context, &name, version);
    let key = key_of(alloc, Kind::Cookbook, name.as_str())?;
    let mut moves = one_move(
        alloc,
        Move::OnShelves(ShelfMove::TakeVersion(name, version)),
    )?;
    if is_last {
        moves.push(Move::TakeList(key))?;
    }
    Ok(moves)
}

// Whether the cookbook is still there once this version is gone.
fn keeps_others(context: Context<'_>, name: &Text, version: Version) -> bool
    ensures { result ≡ spec.keeps_others (cookbooks_of (seen context.entry).state) name.now version }
{
    match context.state.cookbooks().shelf(name) {
        Some(shelf) => shelf.len() > 1 || !shelf.contains(&version),
        None => false,
    }
}
