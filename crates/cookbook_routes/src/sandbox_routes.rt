//! The routes of sandboxes.

ghost use Rattle.std.specs.Prelude.{◌≡◌, [], None, Ok, IfOk, OnOk, not, codes, is_none, option_and_then, option_map, map};
ghost use Rattle.std.specs.FinMap as finite;
ghost use Rattle.std.specs.Map.{keys_of};
ghost use Rattle.doc_tree.specs.Doc as docs;
ghost use Rattle.doc_tree.specs.Part.{part_at};
ghost use Rattle.doc_tree.specs.Tree.{doc_of, pair_of};
ghost use Rattle.doc_tree.specs.Valid.{InOrder};
ghost use Rattle.sandboxes.specs.Files.{holding_of};
ghost use Rattle.sandboxes.specs.Sandboxes as holdings;
ghost use Rattle.sandboxes.specs.Sums.{IsRising};
ghost use Rattle.org_requests.specs.Documents as bodies;
ghost use Rattle.org_core.specs.Contexts.{seen};
ghost use Rattle.org_core.specs.Outcomes.{IsAsDecided};
ghost use Rattle.org_requests.specs.Refusals.{Tells, refuses};
ghost use Rattle.org_requests.specs.Replies.{with_body};
ghost use Rattle.cookbook_routes.specs.CookbookRules as rules;
ghost use Rattle.cookbook_routes.specs.Sandboxes as spec;

use crate::operations::CookbookOperation;
use crate::trees::{put, two};
use doc_tree::{Field, Fields, NoMemory, Text, Tree, Trees};
use org_core::{
    Context, FileMove, Move, Prepared, missing_told, one_move, or_stop, reply_showing, with_moves,
};
use org_requests::{Body, Refusal, Reply, Stop, Verb, document_in, made, org_uri};
use org_shelves::is_committed;
use sandboxes::{Checksum, Files, SandFault, Sums, read_checksum, sandbox_id};
use std::alloc::Global;

/// What is asked of all sandboxes.
pub(crate) fn sandboxes_asked(
    alloc: Global,
    verb: Verb,
    body: &Body,
) -> Result<CookbookOperation, Stop>
    ensures { Tells result (rules.sandboxes_asked verb body.now) }
{
    match verb {
        Verb::Post => Ok(CookbookOperation::BeginSandbox(sums_in(alloc, body)?)),
        Verb::Get | Verb::Put | Verb::Delete | Verb::Other => {
            Err(Stop::Refused(Refusal::NotAllowed))
        }
    }
}

/// What is asked of a sandbox. Its body is looked at in full, also where its id has no checksum's form.
pub(crate) fn sandbox_asked(
    alloc: Global,
    id: &Text,
    verb: Verb,
    body: &Body,
) -> Result<CookbookOperation, Stop>
    ensures { Tells result (rules.sandbox_asked id.now verb body.now) }
{
    match verb {
        Verb::Put => committing(read_checksum(id), completion_refusal(alloc, body)?),
        Verb::Get | Verb::Post | Verb::Delete | Verb::Other => {
            Err(Stop::Refused(Refusal::NotAllowed))
        }
    }
}

fn committing(id: Option<Checksum>, refusal: Option<Refusal>) -> Result<CookbookOperation, Stop>
    ensures { Tells result (rules.committing id refusal) }
{
    match (refusal, id) {
        (Some(refusal), _) => Err(Stop::Refused(refusal)),
        (None, Some(id)) => Ok(CookbookOperation::CommitSandbox(id)),
        (None, None) => Err(Stop::Refused(Refusal::NotFound)),
    }
}

// The checksums of the sandbox that a body asks for: the keys of the dict at its key `checksums`.
fn sums_in(alloc: Global, body: &Body) -> Result<Sums, Stop>
    ensures { Tells result (spec.sums_in (bodies.document_in body.now)) }
{
    match document_in(body) {
        Ok(tree) => sums_of(alloc, tree),
        Err(refusal) => Err(Stop::Refused(refusal)),
    }
}

fn sums_of(alloc: Global, tree: &Tree) -> Result<Sums, Stop>
    ensures { Tells result (spec.sums_in (Ok (doc_of tree.now))) }
{
    match sums_at(alloc, tree)? {
        Some(sums) => Ok(sums),
        None => Err(Stop::Refused(Refusal::BadField(Text::from_str(alloc, "checksums")?))),
    }
}

fn sums_at(alloc: Global, tree: &Tree) -> Result<Option<Sums>, NoMemory>
    ensures { IfOk result (λ o. o ≡ spec.sums_at (doc_of tree.now)) }
{
    match tree {
        Tree::Dict(fields) => sums_found(alloc, fields.get("checksums")),
        Tree::Null | Tree::Bool(_) | Tree::Whole(_) | Tree::Words(_) | Tree::List(_) => Ok(None),
    }
}

fn sums_found(alloc: Global, found: Option<&Tree>) -> Result<Option<Sums>, NoMemory>
    ensures { IfOk result (λ o. o ≡ option_and_then spec.all_checksums (option_and_then spec.dict_keys (option_map (λ t. doc_of t.now) found.entry))) }
{
    match found {
        Some(Tree::Dict(fields)) => all_checksums(alloc, fields.as_slice()),
        _ => Ok(None),
    }
}

// The keys of these fields, where each is a checksum.
fn all_checksums(alloc: Global, fields: &[Field]) -> Result<Option<Sums>, NoMemory>
    requires { InOrder (keys_of (map pair_of fields.now)) }
    ensures { IfOk result (λ o. o ≡ spec.all_checksums (keys_of (map pair_of fields.now))) }
{
    let mut sums = Vec::with_capacity(alloc, fields.len())?;
    for field in fields {
        match read_checksum(&field.key) {
            Some(sum) => sums.push(sum)?,
            None => return Ok(None),
        }
    }
    Ok(Some(Sums::in_order(sums)))
}

// Why a body doesn't say that the sandbox is completed.
fn completion_refusal(alloc: Global, body: &Body) -> Result<Option<Refusal>, NoMemory>
    ensures { IfOk result (λ o. o ≡ spec.completion_refusal (bodies.document_in body.now)) }
{
    match document_in(body) {
        Ok(tree) => incomplete(alloc, is_completed(tree)),
        Err(refusal) => Ok(Some(refusal)),
    }
}

fn incomplete(alloc: Global, is_completed: bool) -> Result<Option<Refusal>, NoMemory>
    ensures { IfOk result (λ o. o ≡ refuses (Refusal.BadField (codes "is_completed")) (not is_completed)) }
{
    if is_completed {
        return Ok(None);
    }
    Ok(Some(Refusal::BadField(Text::from_str(alloc, "is_completed")?)))
}

fn is_completed(tree: &Tree) -> bool
    ensures { result ≡ spec.is_true_part (part_at (codes "is_completed") (doc_of tree.now)) }
{
    match tree {
        Tree::Dict(fields) => is_true(fields.get("is_completed")),
        Tree::Null | Tree::Bool(_) | Tree::Whole(_) | Tree::Words(_) | Tree::List(_) => false,
    }
}

fn is_true(found: Option<&Tree>) -> bool
    ensures { result ≡ spec.is_true_part (option_map (λ t. doc_of t.now) found.entry) }
{
    matches!(found, Some(Tree::Bool(true)))
}

/// Whether the organisation has no sandbox of this id that isn't committed yet.
pub(crate) fn lacks_sandbox(context: Context<'_>, id: &Checksum) -> bool
    ensures { result ≡ is_none (finite.get (seen context.entry).files.sandboxes id.now) }
{
    context.files.listed(context.org, id).is_none()
}

/// 400 where files of a sandbox are missing, with their checksums.
pub(crate) fn missing_refusal(
    alloc: Global,
    context: Context<'_>,
    id: &Checksum,
) -> Result<Option<Refusal>, NoMemory>
    ensures { IfOk result (λ o. o ≡ spec.missing_refusal (seen context.entry).files id.now) }
{
    match context.files.missing(alloc, context.org, id) {
        Ok(sums) => Ok(missing_told(sums)),
        Err(SandFault::NoMemory) => Err(NoMemory),
        Err(_) => Ok(None),
    }
}

/// A sandbox begins. At the end of the organisation's count none does.
pub(crate) fn begin(alloc: Global, context: Context<'_>, sums: Sums) -> Result<Prepared, Stop>
    ensures { IsAsDecided result (spec.sandbox_begun (seen context.entry) sums).answer }
{
    match next_id(context) {
        Some(id) => Ok(begin_as(alloc, context, id, sums)?),
        None => Err(Stop::Refused(Refusal::SandboxesAtEnd)),
    }
}

// The id of the next sandbox, unless the count is at its end.
fn next_id(context: Context<'_>) -> Option<Checksum>
    ensures { result ≡ spec.id_of_next (seen context.entry).org (seen context.entry).files }
{
    match context.files.count(context.org).checked_add(1) {
        Some(count) => Some(sandbox_id(context.org, count)),
        None => None,
    }
}

fn begin_as(
    alloc: Global,
    context: Context<'_>,
    id: Checksum,
    sums: Sums,
) -> Result<Prepared, NoMemory>
    ensures { IfOk result (λ p. IsAsDecided (Ok p) (spec.begun_as (seen context.entry) id sums).answer) }
{
    let reply = begun_reply(alloc, context, &id, &sums);
    with_moves(reply, one_move(alloc, Move::OnFiles(FileMove::Begin(sums))))
}

// 201 with what is told of a new sandbox.
fn begun_reply(
    alloc: Global,
    context: Context<'_>,
    id: &Checksum,
    sums: &Sums,
) -> Result<Reply, NoMemory>
    ensures { IfOk result (λ reply. reply ≡ with_body 201 (spec.begun_doc (seen context.entry).org (seen context.entry).files id.now sums.now)) }
{
    let tree = begun_tree(alloc, context, id, sums)?;
    let reply = made(alloc, &tree);
    drop(tree);
    reply
}

fn begun_tree(
    alloc: Global,
    context: Context<'_>,
    id: &Checksum,
    sums: &Sums,
) -> Result<Tree, NoMemory>
    ensures { IfOk result (λ tree. doc_of tree ≡ spec.begun_doc (seen context.entry).org (seen context.entry).files id.now sums.now) }
{
    let mut fields = Fields::with_capacity(alloc, 3)?;
    put_begun(alloc, context, id, sums, &mut fields).and(Ok(Tree::Dict(fields)))
}

// Puts what is told of a new sandbox.
fn put_begun(
    alloc: Global,
    context: Context<'_>,
    id: &Checksum,
    sums: &Sums,
    fields: &mut Fields,
) -> Result<(), NoMemory>
    requires { fields.old ≡ [] }
    ensures { OnOk result (docs.dict (docs.pairs_of fields.new) ≡ spec.begun_doc (seen context.entry).org (seen context.entry).files id.now sums.now) }
{
    let uploads = uploads_tree(alloc, context.org, context.files, sums.as_slice())?;
    put(alloc, fields, "checksums", uploads)?;
    put(alloc, fields, "sandbox_id", words(alloc, id)?)?;
    let uri = sandbox_path(alloc, context.org, id)?;
    put(alloc, fields, "uri", Tree::Words(uri))
}

// What is still to be uploaded, by checksum.
fn uploads_tree(
    alloc: Global,
    org: &Text,
    files: &Files,
    sums: &[Checksum],
) -> Result<Tree, NoMemory>
    requires { IsRising sums.now }
    ensures { IfOk result (λ tree. doc_of tree ≡ spec.uploads_doc org.now (holding_of files.now org.now) sums.now) }
{
    let mut fields = Fields::new(alloc);
    for sum in sums {
        let upload = upload_tree(alloc, org, files, sum)?;
        fields.push(Text::from_str(alloc, sum.as_str())?, upload)?;
    }
    Ok(Tree::Dict(fields))
}

fn upload_tree(alloc: Global, org: &Text, files: &Files, sum: &Checksum) -> Result<Tree, NoMemory>
    ensures { IfOk result (λ tree. doc_of tree ≡ spec.upload_doc org.now (holding_of files.now org.now) sum.now) }
{
    let needs_upload = !is_committed(org, files, sum);
    let url = file_path(alloc, org, sum)?;
    two(
        alloc,
        "needs_upload",
        Tree::Bool(needs_upload),
        "url",
        Tree::Words(url),
    )
}

/// A sandbox is committed.
pub(crate) fn commit(alloc: Global, context: Context<'_>, id: Checksum) -> Result<Prepared, Stop>
    ensures { IsAsDecided result (spec.sandbox_committed (seen context.entry) id).answer }
{
    let reply = committed_reply(alloc, context, &id);
    let moves = one_move(alloc, Move::OnFiles(FileMove::Commit(id)));
    or_stop(with_moves(reply, moves))
}

// 200 with what is told of a sandbox that was committed.
fn committed_reply(alloc: Global, context: Context<'_>, id: &Checksum) -> Result<Reply, NoMemory>
    ensures { IfOk result (λ reply. reply ≡ with_body 200 (spec.committed_doc id.now (spec.sums_doc (holdings.sums_of (seen context.entry).files id.now)))) }
{
    let sums = listed_tree(alloc, context, id)?;
    reply_showing(alloc, committed_tree(alloc, id, sums)?)
}

// The checksums that a sandbox lists, of which one that isn't there lists none.
fn listed_tree(alloc: Global, context: Context<'_>, id: &Checksum) -> Result<Tree, NoMemory>
    ensures { IfOk result (λ tree. doc_of tree ≡ spec.sums_doc (holdings.sums_of (seen context.entry).files id.now)) }
{
    match context.files.listed(context.org, id) {
        Some(sums) => sums_tree(alloc, sums.as_slice()),
        None => Ok(Tree::List(Trees::new(alloc))),
    }
}

fn sums_tree(alloc: Global, sums: &[Checksum]) -> Result<Tree, NoMemory>
    ensures { IfOk result (λ tree. doc_of tree ≡ spec.sums_doc sums.now) }
{
    let mut trees = Trees::with_capacity(alloc, sums.len())?;
    for sum in sums {
        trees.push(words(alloc, sum)?)?;
    }
    Ok(Tree::List(trees))
}

fn committed_tree(alloc: Global, id: &Checksum, sums: Tree) -> Result<Tree, NoMemory>
    ensures { IfOk result (λ tree. doc_of tree ≡ spec.committed_doc id.now (doc_of sums)) }
{
    let mut fields = Fields::new(alloc);
    put_committed(alloc, id, sums, &mut fields).and(Ok(Tree::Dict(fields)))
}

// Puts what is told of a sandbox that was committed.
fn put_committed(
    alloc: Global,
    id: &Checksum,
    sums: Tree,
    fields: &mut Fields,
) -> Result<(), NoMemory>
    requires { fields.old ≡ [] }
    ensures { OnOk result (docs.dict (docs.pairs_of fields.new) ≡ spec.committed_doc id.now (doc_of sums)) }
{
    put(alloc, fields, "checksums", sums)?;
    put(alloc, fields, "guid", words(alloc, id)?)?;
    put(alloc, fields, "is_completed", Tree::Bool(true))?;
    put(alloc, fields, "name", words(alloc, id)?)
}

fn words(alloc: Global, sum: &Checksum) -> Result<Tree, NoMemory>
    ensures { IfOk result (λ tree. doc_of tree ≡ docs.words sum.now) }
{
    Ok(Tree::Words(Text::from_str(alloc, sum.as_str())?))
}

fn sandbox_path(alloc: Global, org: &Text, id: &Checksum) -> Result<Text, NoMemory>
    ensures { IfOk result (λ path. path ≡ spec.sandbox_path org.now id.now) }
{
    let front = Text::joined(alloc, org_uri(alloc, org)?.as_str(), "/sandboxes/")?;
    Text::joined(alloc, front.as_str(), id.as_str())
}

fn file_path(alloc: Global, org: &Text, sum: &Checksum) -> Result<Text, NoMemory>
    ensures { IfOk result (λ path. path ≡ spec.file_path org.now sum.now) }
{
    let front = Text::joined(alloc, org_uri(alloc, org)?.as_str(), "/files/")?;
    Text::joined(alloc, front.as_str(), sum.as_str())
}
