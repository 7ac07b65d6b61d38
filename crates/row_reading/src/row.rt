//! What a row says, or why it is bad.
ghost use Rattle.std.specs.Prelude.{◌≡◌, IfErr, IfOk, IfSome, Some, option_map};
ghost use Rattle.org_rows.specs.Places.{IsPlace};
ghost use Rattle.org_rows.specs.Reasons as reasons;
ghost use Rattle.outside_keeper.specs.Rows.{row_key};
ghost use Rattle.row_reading.specs.Outcomes.{ComesOf};
ghost use Rattle.row_reading.specs.Rows.{IsBadFor, IsSaying};
ghost use Rattle.row_reading.specs.Seen.{place_seen};

use crate::contents::read_body;
use crate::kinds::kind_named;
use crate::place::{Place, place_in};
use crate::said::Said;
use doc_tree::{Bytes, Kind, NoMemory, Text, is_organisation_name};
use org_rows::Reason;
use std::alloc::Global;
use std::hash::RandomState;

/// What a row says, read into what a state keeps of it, or the first reason of kind, name and body that it is bad for.
/// The body is let go: what is given has memory of its own, without spare room. Whether the row lies in the right shard,
/// has what it asks for and has the digest that its name says, isn't looked at.
pub fn read_row(
    alloc: Global,
    hasher: RandomState,
    org: &str,
    kind: &str,
    name: &str,
    body: Bytes,
) -> Result<Result<Said, Reason>, NoMemory>
    ensures said { IfOk result (λ read. IfOk read (IsSaying (row_key org.now kind.now name.now) body)) }
    ensures reason { IfOk result (λ read. IfErr read (IsBadFor (row_key org.now kind.now name.now) body)) }
{
    match kind_named(kind) {
        Some(kind) => read_named(alloc, hasher, org, kind, name, body),
        None => {
            drop(body);
            Ok(Err(Reason::Kind))
        }
    }
}

fn read_named(
    alloc: Global,
    hasher: RandomState,
    org: &str,
    kind: Kind,
    name: &str,
    body: Bytes,
) -> Result<Result<Said, Reason>, NoMemory>
    ensures { IfOk result (ComesOf (reasons.named_place org.now kind name.now) body) }
{
    match named_place(alloc, org, kind, name)? {
        Some(place) => read_placed(alloc, hasher, place, body),
        None => {
            drop(body);
            Ok(Err(Reason::Name))
        }
    }
}

/// What a row of this kind and name is of, in an organisation of this name.
fn named_place(alloc: Global, org: &str, kind: Kind, name: &str) -> Result<Option<Place>, NoMemory>
    ensures place { IfOk result (λ found. option_map place_seen found ≡ reasons.named_place org.now kind name.now) }
    ensures own { IfOk result (λ found. IfSome found (λ place. IsPlace (place_seen place))) }
{
    if !is_organisation_name(org) {
        return Ok(None);
    }
    let name = Text::from_str(alloc, name)?;
    place_in(alloc, kind, &name)
}

fn read_placed(
    alloc: Global,
    hasher: RandomState,
    place: Place,
    body: Bytes,
) -> Result<Result<Said, Reason>, NoMemory>
    requires { IsPlace (place_seen place) }
    ensures { IfOk result (ComesOf (Some (place_seen place)) body) }
{
    let read = read_body(alloc, hasher, place, body.as_slice());
    drop(body);
    match read? {
        Some(said) => Ok(Ok(said)),
        None => Ok(Err(Reason::Body)),
    }
}
