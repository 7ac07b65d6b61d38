//! A manifest as it is stored.
ghost use Rattle.std.specs.Prelude.{◌≡◌, ◌∷◌, ◌++◌, [], IfOk, map, OnOk, option_map};
ghost use Rattle.std.specs.List.{list_any};
ghost use Rattle.std.specs.Map.{keys_of};
ghost use Rattle.doc_tree.specs.Doc.{pairs_of};
ghost use Rattle.doc_tree.specs.Part.{pair_at};
ghost use Rattle.doc_tree.specs.Tree.{doc_of, pair_of};
ghost use Rattle.doc_tree.specs.Valid.{InOrder};
ghost use Rattle.cookbook_meta.specs.Fields.{release_name};
ghost use Rattle.cookbook_meta.specs.Metadata.{stored_metadata};
ghost use Rattle.cookbook_meta.specs.Segments as nine;
ghost use Rattle.cookbook_meta.specs.Stored as spec;

use crate::entries::Entry;
use crate::metadata::stored_metadata;
use crate::put::{put_text, put_tree};
use crate::segments::{segment_trees, segments};
use doc_tree::{Field, Fields, Name, NoMemory, Tree};
use std::alloc::Global;
use version_rules::Version;

/// The keys of a manifest's fields before its segments.
static FIELDS: [&str; 7] = [
    "cookbook_name",
    "name",
    "version",
    "chef_type",
    "json_class",
    "frozen?",
    "metadata",
];

/// The keys that an artifact's body isn't kept at as it is, before its segments: those of the fields of an artifact, and
/// `cookbook_name`, which it has no more.
static ARTIFACT_FIELDS: [&str; 8] = [
    "identifier",
    "cookbook_name",
    "name",
    "version",
    "chef_type",
    "json_class",
    "frozen?",
    "metadata",
];

/// How many segments there are.
const SEGMENTS: usize = 9;

/// The stored object of a manifest whose body is this one.
pub(crate) fn whole_of(
    alloc: Global,
    name: &Name,
    version: Version,
    release: &str,
    frozen: bool,
    files: &[Entry],
    body: &Fields,
) -> Result<Fields, NoMemory>
    requires { release.now ≡ release_name name.now version }
    ensures { IfOk result (λ made. made ≡ spec.whole_of name.now version frozen files.now (pairs_of body.now)) }
{
    let mut made = beside(alloc, body, fields())?;
    put_told(alloc, &mut made, name, version, release)?;
    put_settled(alloc, &mut made, frozen, files, body)?;
    Ok(made)
}

/// The stored object of an artifact whose body is this one.
pub(crate) fn artifact_whole(
    alloc: Global,
    name: &Name,
    version: Version,
    id: &str,
    frozen: bool,
    files: &[Entry],
    body: &Fields,
) -> Result<Fields, NoMemory>
    ensures { IfOk result (λ made. made ≡ spec.artifact_whole name.now version id.now frozen files.now (pairs_of body.now)) }
{
    let mut made = beside(alloc, body, artifact_fields())?;
    put_artifact(alloc, &mut made, name, version, id)?;
    put_settled(alloc, &mut made, frozen, files, body)?;
    Ok(made)
}

/// What a body has beside the fields: these and the segments.
fn beside(alloc: Global, body: &Fields, keys: &[&str]) -> Result<Fields, NoMemory>
    ensures { IfOk result (λ made. made ≡ spec.beside (spec.is_field (map (λ s. s.now) keys.now)) body.now) }
{
    let mut made = Fields::with_capacity(alloc, room_for(body, keys))?;
    for field in body.as_slice() {
        if !is_field(field.key.as_str(), keys) {
            push_copy(alloc, &mut made, field)?;
        }
    }
    Ok(made)
}

/// Adds a copy of a field at the end, whose key is above those of the others.
fn push_copy(alloc: Global, made: &mut Fields, field: &Field) -> Result<(), NoMemory>
    requires { InOrder (keys_of made.old ++ field.now.key ∷ []) }
    ensures { OnOk result (made.new ≡ made.old ++ pair_of field.now ∷ []) }
{
    let key = field.key.copy(alloc)?;
    made.push(key, field.tree.copy(alloc)?)
}

/// The number of keys of the stored object: those of the fields, and those that a body has beside them.
fn room_for(body: &Fields, keys: &[&str]) -> usize {
    let beside = body.as_slice().iter();
    let unlisted = beside
        .filter(|field| !is_field(field.key.as_str(), keys))
        .count();
    unlisted.saturating_add(FIELDS.len() + SEGMENTS)
}

/// Whether a key is one of these or that of a segment.
fn is_field(key: &str, keys: &[&str]) -> bool
    ensures { result ≡ spec.is_field (map (λ s. s.now) keys.now) key.now }
{
    is_among(key, keys) || is_among(key, segments())
}

fn fields() -> &'static [&'static str]
    ensures { map (λ s. s.now) result.now ≡ spec.head_keys }
{
    &FIELDS
}

fn artifact_fields() -> &'static [&'static str]
    ensures { map (λ s. s.now) result.now ≡ spec.artifact_keys }
{
    &ARTIFACT_FIELDS
}

fn is_among(key: &str, keys: &[&str]) -> bool
    ensures { result ≡ spec.is_among key.now (map (λ s. s.now) keys.now) }
{
    keys.contains(&key)
}

/// Puts in the fields that tell which cookbook's version it is.
fn put_told(
    alloc: Global,
    made: &mut Fields,
    name: &Name,
    version: Version,
    release: &str,
) -> Result<(), NoMemory>
    requires { release.now ≡ release_name name.now version }
    ensures { OnOk result (made.new ≡ spec.with_pairs (spec.told_fields name.now version) made.old) }
{
    put_text(alloc, made, "cookbook_name", name.as_str())?;
    put_text(alloc, made, "name", release)?;
    put_text(alloc, made, "version", version.to_string(alloc)?.as_str())?;
    put_text(alloc, made, "chef_type", "cookbook_version")?;
    put_text(alloc, made, "json_class", "Chef::CookbookVersion")
}

/// Puts in the fields that tell which artifact it is.
fn put_artifact(
    alloc: Global,
    made: &mut Fields,
    name: &Name,
    version: Version,
    id: &str,
) -> Result<(), NoMemory>
    ensures { OnOk result (made.new ≡ spec.with_pairs (spec.told_artifact name.now version id.now) made.old) }
{
    put_text(alloc, made, "name", name.as_str())?;
    put_text(alloc, made, "version", version.to_string(alloc)?.as_str())?;
    put_text(alloc, made, "chef_type", "cookbook_version")?;
    put_text(alloc, made, "json_class", "Chef::CookbookVersion")?;
    put_text(alloc, made, "identifier", id)
}

/// Puts in whether it is frozen, its metadata and its segments.
fn put_settled(
    alloc: Global,
    made: &mut Fields,
    frozen: bool,
    files: &[Entry],
    body: &Fields,
) -> Result<(), NoMemory>
    ensures { OnOk result (made.new ≡ spec.with_pairs (spec.settled_fields frozen (stored_metadata (spec.metadata_sent (pair_at spec.metadata_key (pairs_of body.now)))) files.now) made.old) }
{
    put_tree(alloc, made, "frozen?", Tree::Bool(frozen))?;
    let metadata = metadata_sent(alloc, body)?;
    put_tree(alloc, made, "metadata", Tree::Dict(metadata))?;
    put_segments(alloc, made, files)?;
    Ok(())
}

/// The metadata of a body, as they are stored.
fn metadata_sent(alloc: Global, body: &Fields) -> Result<Fields, NoMemory>
    ensures { IfOk result (λ made. made ≡ stored_metadata (spec.metadata_sent (pair_at spec.metadata_key (pairs_of body.now)))) }
{
    match body.get("metadata") {
        Some(Tree::Dict(sent)) => stored_metadata(alloc, sent),
        _ => stored_metadata(alloc, &Fields::new(alloc)),
    }
}

/// Puts in the segments, each with its entries.
fn put_segments(alloc: Global, made: &mut Fields, files: &[Entry]) -> Result<(), NoMemory>
    ensures { OnOk result (made.new ≡ spec.with_pairs (spec.segment_fields nine.segments files.now) made.old) }
{
    for segment in segments() {
        let trees = segment_trees(alloc, segment, files)?;
        put_tree(alloc, made, segment, Tree::List(trees))?;
    }
    Ok(())
}
