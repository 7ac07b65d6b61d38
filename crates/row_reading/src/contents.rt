//! What the body of a row says, by what the row is of.
ghost use Rattle.org_rows.specs.Bodies.{name_body};
ghost use Rattle.org_rows.specs.Places as spec;
ghost use Rattle.row_reading.specs.Rows.{Tells};
ghost use Rattle.row_reading.specs.Seen.{place_seen};
ghost use Rattle.row_reading.specs.declared.said.Said.{Said};
ghost use Rattle.std.specs.Prelude.{◌≡◌, ℕ, List, IfOk, bytes_eq};

use crate::assigned::read_assigned;
use crate::bodies::one_key;
use crate::checksums::read_sums;
use crate::counts::read_count;
use crate::editions::{read_artifact, read_version};
use crate::files::read_file;
use crate::group::read_group;
use crate::list::read_list;
use crate::objects::read_kept;
use crate::place::Place;
use crate::revisions::read_revision;
use crate::said::Said;
use doc_tree::{Name, NoMemory, Text, Tree, json_text};
use object_store::Key;
use sandboxes::{Checksum, Stored};
use std::alloc::Global;
use std::hash::RandomState;
use version_rules::Version;

/// What a body says at a place, or `None` exactly where it isn't a body of its kind.
pub(crate) fn read_body(
    alloc: Global,
    hasher: RandomState,
    place: Place,
    body: &[u8],
) -> Result<Option<Said>, NoMemory>
    requires { spec.IsPlace (place_seen place) }
    ensures { IfOk result (Tells (place_seen place) body.now) }
{
    match place {
        Place::Itself => count(alloc, body),
        Place::Object(key) => object(alloc, body, key),
        Place::User(name) => user(alloc, body, name),
        Place::Group(name) => group(alloc, hasher, body, name),
        Place::Container(name) => container(alloc, body, name),
        Place::Version(name, number) => version(alloc, body, name, number),
        Place::Artifact(name, id) => artifact(alloc, body, name, id),
        Place::Revision(policy, id) => revision(alloc, body, policy, id),
        Place::PolicyGroup(name) => policy_group(alloc, body, name),
        Place::Acl(key) => list(alloc, body, key),
        Place::Sandbox(id) => sandbox(alloc, body, id),
        Place::File(_) => file(alloc, body),
    }
}

fn count(alloc: Global, body: &[u8]) -> Result<Option<Said>, NoMemory>
    ensures { IfOk result (Tells spec.itself body.now) }
{
    match read_count(alloc, body)? {
        Some(count) => Ok(Some(Said::Count(count))),
        None => Ok(None),
    }
}

fn object(alloc: Global, body: &[u8], key: Key) -> Result<Option<Said>, NoMemory>
    requires { spec.IsPlace (spec.object key) }
    ensures { IfOk result (Tells (spec.object key) body.now) }
{
    match read_kept(alloc, body, &key)? {
        Some(document) => Ok(Some(Said::Object(key, document))),
        None => Ok(None),
    }
}

fn user(alloc: Global, body: &[u8], name: Name) -> Result<Option<Said>, NoMemory>
    ensures { IfOk result (Tells (spec.user name) body.now) }
{
    if is_name_body(alloc, body, name.as_str())? {
        Ok(Some(Said::User(name.into_text())))
    } else {
        Ok(None)
    }
}

fn container(alloc: Global, body: &[u8], name: Text) -> Result<Option<Said>, NoMemory>
    ensures { IfOk result (Tells (spec.container name) body.now) }
{
    if is_name_body(alloc, body, name.as_str())? {
        Ok(Some(Said::Container(name)))
    } else {
        Ok(None)
    }
}

/// Whether a body says nothing but this name.
fn is_name_body(alloc: Global, body: &[u8], name: &str) -> Result<bool, NoMemory>
    ensures { IfOk result (λ same. same ≡ bytes_eq body.now (name_body name.now)) }
{
    let tree = one_key(alloc, "name", Tree::Words(Text::from_str(alloc, name)?))?;
    let written = json_text(alloc, &tree);
    drop(tree);
    Ok(body == written?.as_slice())
}

fn group(
    alloc: Global,
    hasher: RandomState,
    body: &[u8],
    name: Name,
) -> Result<Option<Said>, NoMemory>
    ensures { IfOk result (Tells (spec.group name) body.now) }
{
    match read_group(alloc, hasher, body, &name)? {
        Some(group) => Ok(Some(Said::Group(name.into_text(), group))),
        None => Ok(None),
    }
}

fn version(
    alloc: Global,
    body: &[u8],
    name: Name,
    number: Version,
) -> Result<Option<Said>, NoMemory>
    ensures { IfOk result (Tells (spec.version name number) body.now) }
{
    match read_version(alloc, body, &name, &number)? {
        Some(edition) => Ok(Some(Said::Version(name.into_text(), number, edition))),
        None => Ok(None),
    }
}

fn artifact(alloc: Global, body: &[u8], name: Name, id: Text) -> Result<Option<Said>, NoMemory>
    ensures { IfOk result (Tells (spec.artifact name id) body.now) }
{
    match read_artifact(alloc, body, &name, &id)? {
        Some(edition) => Ok(Some(Said::Artifact(name.into_text(), id, edition))),
        None => Ok(None),
    }
}

fn revision(alloc: Global, body: &[u8], policy: Name, id: Name) -> Result<Option<Said>, NoMemory>
    ensures { IfOk result (Tells (spec.revision policy id) body.now) }
{
    match read_revision(alloc, body, &policy, &id)? {
        Some(lock) => Ok(Some(Said::Revision(policy.into_text(), id.into_text(), lock))),
        None => Ok(None),
    }
}

fn policy_group(alloc: Global, body: &[u8], name: Name) -> Result<Option<Said>, NoMemory>
    ensures { IfOk result (Tells (spec.policy_group name) body.now) }
{
    match read_assigned(alloc, body)? {
        Some(assigned) => Ok(Some(Said::PolicyGroup(name.into_text(), assigned))),
        None => Ok(None),
    }
}

fn list(alloc: Global, body: &[u8], key: Key) -> Result<Option<Said>, NoMemory>
    ensures { IfOk result (Tells (spec.acl key) body.now) }
{
    match read_list(alloc, body)? {
        Some(list) => Ok(Some(Said::List(key, list))),
        None => Ok(None),
    }
}

fn sandbox(alloc: Global, body: &[u8], id: Checksum) -> Result<Option<Said>, NoMemory>
    ensures { IfOk result (Tells (spec.sandbox id) body.now) }
{
    match read_sums(alloc, body)? {
        Some(sums) => Ok(Some(Said::Sandbox(id, sums))),
        None => Ok(None),
    }
}

// Of which name its row is doesn't count: whether that is its digest is seen by who has both.
fn file(alloc: Global, body: &[u8]) -> Result<Option<Said>, NoMemory>
    ensures { IfOk result (λ found. (sum : List ℕ) → Tells (spec.file sum) body.now found) }
{
    match read_file(alloc, body)? {
        Some(stored) => Ok(Some(said_of(stored))),
        None => Ok(None),
    }
}

fn said_of(stored: Stored) -> Said
    ensures { result ≡ Said.File stored.file stored.committed }
{
    let Stored { file, committed } = stored;
    Said::File(file, committed)
}
