//! The routes of files.

ghost use Rattle.std.specs.Prelude.{◌≡◌, Ok, IfOk, not};
ghost use Rattle.std.specs.FinMap as finite;
ghost use Rattle.sandboxes.specs.Sandboxes.{awaits};
ghost use Rattle.org_core.specs.Contexts.{seen};
ghost use Rattle.org_shelves.specs.Files.{is_committed as spec_is_committed};
ghost use Rattle.org_core.specs.Outcomes.{IsAsDecided};
ghost use Rattle.org_requests.specs.Refusals.{Tells};
ghost use Rattle.cookbook_routes.specs.CookbookRules as rules;
ghost use Rattle.cookbook_routes.specs.Files as spec;

use crate::operations::CookbookOperation;
use doc_tree::{Bytes, Fields, NoMemory, Text, Tree};
use org_core::{
    Context, FileMove, Move, Moves, Prepared, one_move, or_stop, reply_showing, with_moves,
};
use org_requests::{Body, Refusal, Stop, Verb, given};
use org_shelves::is_committed;
use sandboxes::{Checksum, Hashed, read_checksum};
use std::alloc::Global;

/// What is asked of a file.
pub(crate) fn file_asked(
    alloc: Global,
    sum: &Text,
    verb: Verb,
    body: &Body,
) -> Result<CookbookOperation, Stop>
    ensures { Tells result (rules.file_asked sum.now verb body.now) }
{
    match verb {
        Verb::Get => showing(read_checksum(sum)),
        Verb::Put => uploading(alloc, read_checksum(sum), body),
        Verb::Post | Verb::Delete | Verb::Other => Err(Stop::Refused(Refusal::NotAllowed)),
    }
}

fn showing(sum: Option<Checksum>) -> Result<CookbookOperation, Stop>
    ensures { Tells result (rules.showing_file sum) }
{
    match sum {
        Some(sum) => Ok(CookbookOperation::ShowFile(sum)),
        None => Err(Stop::Refused(Refusal::NotFound)),
    }
}

fn uploading(alloc: Global, sum: Option<Checksum>, body: &Body) -> Result<CookbookOperation, Stop>
    ensures { Tells result (rules.put_file sum body.now) }
{
    match sum {
        Some(sum) => Ok(CookbookOperation::Upload(sum, file_in(alloc, body)?)),
        None => Err(Stop::Refused(Refusal::NotFound)),
    }
}

// A copy of the file that a body is: the empty file where there is no body.
fn file_in(alloc: Global, body: &Body) -> Result<Hashed, Stop>
    ensures { Tells result (spec.file_in body.now) }
{
    match body {
        Body::Raw(file) => Ok(file.copy(alloc)?),
        Body::Empty => Ok(Hashed::of(Bytes::constant(b""))),
        Body::Doc(_) | Body::Bad(_) => Err(Stop::Refused(Refusal::NotJson)),
        Body::TooLong => Err(Stop::Refused(Refusal::TooLarge)),
    }
}

/// Whether no sandbox of the organisation that isn't committed yet lists this checksum.
pub(crate) fn is_awaited_by_none(context: Context<'_>, sum: &Checksum) -> bool
    ensures { result ≡ not (awaits (seen context.entry).files sum.now) }
{
    !context.files.awaited(context.org, sum)
}

/// Whether the organisation has no committed file of this checksum.
pub(crate) fn lacks_file(context: Context<'_>, sum: &Checksum) -> bool
    ensures { result ≡ not (spec_is_committed (seen context.entry).files sum.now) }
{
    !is_committed(context.org, context.files, sum)
}

/// 400 where a file hasn't the checksum that was asked for.
pub(crate) fn digest_refusal(asked: &Checksum, file: &Hashed) -> Option<Refusal>
    ensures { result ≡ spec.digest_refusal asked.now file.now }
{
    let (asked, found) = (*asked, file.digest());
    if found == asked {
        return None;
    }
    Some(Refusal::DigestDiffers { found, asked })
}

/// A file is uploaded.
pub(crate) fn upload(alloc: Global, asked: Checksum, file: Hashed) -> Result<Prepared, Stop>
    ensures { IsAsDecided result (spec.file_uploaded asked file).answer }
{
    let reply = reply_showing(alloc, Tree::Dict(Fields::new(alloc)));
    let moves = one_move(alloc, Move::OnFiles(FileMove::Upload(asked, file)));
    or_stop(with_moves(reply, moves))
}

/// A file is shown.
pub(crate) fn show(alloc: Global, context: Context<'_>, sum: Checksum) -> Result<Prepared, Stop>
    ensures { IsAsDecided result (spec.file_shown (seen context.entry) sum).answer }
{
    let body = bytes_of(alloc, context, &sum)?;
    Ok(Prepared {
        reply: given(body),
        moves: Moves::new(alloc),
    })
}

// The bytes of a file, of which one that isn't there has none.
fn bytes_of(alloc: Global, context: Context<'_>, sum: &Checksum) -> Result<Bytes, NoMemory>
    ensures { IfOk result (λ bytes. bytes ≡ spec.bytes_of (finite.get (seen context.entry).files.files sum.now)) }
{
    match context.files.file(context.org, sum) {
        Some((file, _)) => Bytes::from_slice(alloc, file.as_slice()),
        None => Ok(Bytes::constant(b"")),
    }
}
