//! What a row is of.
ghost use Rattle.std.specs.Prelude.{◌≡◌, ◌&&◌, IfOk, Ok, option_map};
ghost use Rattle.object_forms.specs.Forms as forms;
ghost use Rattle.cookbook_meta.specs.Parts as parts;
ghost use Rattle.doc_tree.specs.Name as names;
ghost use Rattle.object_store.specs.Keys.{key};
ghost use Rattle.org_rows.specs.Places as spec;
ghost use Rattle.row_reading.specs.Seen.{place_seen};
ghost use Rattle.version_rules.specs.Versions.{reads_version};

use crate::kinds::kind_named;
use crate::names::{is_actor_name, is_id, is_written, name_of, split_at_slash};
use access_lists::Container;
use cookbook_meta::is_identifier;
use doc_tree::{Kind, Name, NoMemory, Text, is_name};
use object_store::Key;
use sandboxes::{Checksum, read_checksum};
use std::alloc::Global;
use version_rules::{Version, parse_version};

/// What a row is of. Contracts see it by `place_seen`.
#[derive(Drop)]
pub enum Place {
    /// The organisation itself.
    Itself,
    /// An object that is kept as a document: a node, a role, an environment, a bag, a client or an item.
    Object(Key),
    /// A user.
    User(Name),
    /// A group.
    Group(Name),
    /// A container.
    Container(Text),
    /// A version of a cookbook.
    Version(Name, Version),
    /// An artifact of a cookbook, by its identifier.
    Artifact(Name, Text),
    /// A revision of a policy.
    Revision(Name, Name),
    /// A policy group.
    PolicyGroup(Name),
    /// The access list of an object.
    Acl(Key),
    /// A sandbox.
    Sandbox(Checksum),
    /// A file.
    File(Checksum),
}

/// What a row of this kind and name is of, or `None` exactly where the name hasn't the form that the kind asks for.
pub fn place_in(alloc: Global, kind: Kind, name: &Text) -> Result<Option<Place>, NoMemory>
    ensures { IfOk result (λ found. option_map place_seen found ≡ spec.place_in kind name.now) }
{
    match kind {
        Kind::Org => Ok(itself(name)),
        Kind::Node | Kind::Role | Kind::Environment | Kind::Bag => object(alloc, kind, name),
        Kind::Client => client(alloc, name),
        Kind::User => user(alloc, name),
        Kind::Group => group(alloc, name),
        Kind::Container => container(alloc, name),
        Kind::Item => item(alloc, name),
        Kind::Cookbook => version(alloc, name),
        Kind::Artifact => artifact(alloc, name),
        Kind::Policy => revision(alloc, name),
        Kind::PolicyGroup => policy_group(alloc, name),
        Kind::Acl => acl(alloc, name),
        Kind::Sandbox => Ok(sandbox(name)),
        Kind::File => Ok(file(name)),
    }
}

fn itself(name: &Text) -> Option<Place>
    ensures { option_map place_seen result ≡ spec.place_in Kind.Org name.now }
{
    if name.is_empty() {
        Some(Place::Itself)
    } else {
        None
    }
}

fn object(alloc: Global, kind: Kind, name: &Text) -> Result<Option<Place>, NoMemory>
    ensures { IfOk result (λ found. option_map place_seen found ≡ spec.where_ (names.is_name name.now) (spec.object (key kind name.now))) }
{
    if is_name(name.as_str()) {
        Ok(Some(Place::Object(key_of(alloc, kind, name)?)))
    } else {
        Ok(None)
    }
}

fn key_of(alloc: Global, kind: Kind, name: &Text) -> Result<Key, NoMemory>
    ensures { IfOk result (λ made. made ≡ key kind name.now) }
{
    let name = name.copy(alloc)?;
    Ok(Key { kind, name })
}

fn client(alloc: Global, name: &Text) -> Result<Option<Place>, NoMemory>
    ensures { IfOk result (λ found. option_map place_seen found ≡ spec.place_in Kind.Client name.now) }
{
    if is_actor_name(name.as_str()) {
        Ok(Some(Place::Object(key_of(alloc, Kind::Client, name)?)))
    } else {
        Ok(None)
    }
}

fn user(alloc: Global, name: &Text) -> Result<Option<Place>, NoMemory>
    ensures { IfOk result (λ found. option_map place_seen found ≡ spec.place_in Kind.User name.now) }
{
    if !is_actor_name(name.as_str()) {
        return Ok(None);
    }
    match name_of(alloc, name.as_str())? {
        Some(name) => Ok(Some(Place::User(name))),
        None => Ok(None),
    }
}

fn group(alloc: Global, name: &Text) -> Result<Option<Place>, NoMemory>
    ensures { IfOk result (λ found. option_map place_seen found ≡ spec.place_in Kind.Group name.now) }
{
    match name_of(alloc, name.as_str())? {
        Some(name) => Ok(Some(Place::Group(name))),
        None => Ok(None),
    }
}

fn container(alloc: Global, name: &Text) -> Result<Option<Place>, NoMemory>
    ensures { IfOk result (λ found. option_map place_seen found ≡ spec.place_in Kind.Container name.now) }
{
    if Container::named(name.as_str()).is_some() {
        Ok(Some(Place::Container(name.copy(alloc)?)))
    } else {
        Ok(None)
    }
}

fn item(alloc: Global, name: &Text) -> Result<Option<Place>, NoMemory>
    ensures { IfOk result (λ found. option_map place_seen found ≡ spec.place_in Kind.Item name.now) }
{
    match split_at_slash(name.as_str()) {
        Some((bag, id)) => item_of(alloc, name, bag, id),
        None => Ok(None),
    }
}

fn item_of(alloc: Global, name: &Text, bag: &str, id: &str) -> Result<Option<Place>, NoMemory>
    ensures { IfOk result (λ found. option_map place_seen found ≡ spec.where_ (names.is_name bag.now && forms.is_id id.now) (spec.object (key Kind.Item name.now))) }
{
    if is_name(bag) && is_id(id) {
        Ok(Some(Place::Object(key_of(alloc, Kind::Item, name)?)))
    } else {
        Ok(None)
    }
}

fn version(alloc: Global, name: &Text) -> Result<Option<Place>, NoMemory>
    ensures { IfOk result (λ found. option_map place_seen found ≡ spec.place_in Kind.Cookbook name.now) }
{
    match split_at_slash(name.as_str()) {
        Some((front, number)) => version_of(alloc, front, number),
        None => Ok(None),
    }
}

fn version_of(alloc: Global, front: &str, number: &str) -> Result<Option<Place>, NoMemory>
    ensures { IfOk result (λ found. option_map place_seen found ≡ spec.version_place front.now number.now (reads_version number.now)) }
{
    match parse_version(number) {
        Ok(version) => written_version(alloc, front, number, version),
        Err(_) => Ok(None),
    }
}

fn written_version(
    alloc: Global,
    front: &str,
    number: &str,
    version: Version,
) -> Result<Option<Place>, NoMemory>
    ensures { IfOk result (λ found. option_map place_seen found ≡ spec.version_place front.now number.now (Ok version)) }
{
    if !is_written(alloc, &version, number)? {
        return Ok(None);
    }
    match name_of(alloc, front)? {
        Some(name) => Ok(Some(Place::Version(name, version))),
        None => Ok(None),
    }
}

fn artifact(alloc: Global, name: &Text) -> Result<Option<Place>, NoMemory>
    ensures { IfOk result (λ found. option_map place_seen found ≡ spec.place_in Kind.Artifact name.now) }
{
    match split_at_slash(name.as_str()) {
        Some((front, id)) => artifact_of(alloc, front, id),
        None => Ok(None),
    }
}

fn artifact_of(alloc: Global, front: &str, id: &str) -> Result<Option<Place>, NoMemory>
    ensures { IfOk result (λ found. option_map place_seen found ≡ spec.where_ (names.is_name front.now && parts.is_identifier id.now) (spec.artifact front.now id.now)) }
{
    if !is_identifier(id) {
        return Ok(None);
    }
    let id = Text::from_str(alloc, id)?;
    match name_of(alloc, front)? {
        Some(name) => Ok(Some(Place::Artifact(name, id))),
        None => Ok(None),
    }
}

fn revision(alloc: Global, name: &Text) -> Result<Option<Place>, NoMemory>
    ensures { IfOk result (λ found. option_map place_seen found ≡ spec.place_in Kind.Policy name.now) }
{
    match split_at_slash(name.as_str()) {
        Some((front, id)) => revision_of(alloc, front, id),
        None => Ok(None),
    }
}

fn revision_of(alloc: Global, front: &str, id: &str) -> Result<Option<Place>, NoMemory>
    ensures { IfOk result (λ found. option_map place_seen found ≡ spec.where_ (names.is_name front.now && names.is_name id.now) (spec.revision front.now id.now)) }
{
    let Some(policy) = name_of(alloc, front)? else {
        return Ok(None);
    };
    match name_of(alloc, id)? {
        Some(id) => Ok(Some(Place::Revision(policy, id))),
        None => Ok(None),
    }
}

fn policy_group(alloc: Global, name: &Text) -> Result<Option<Place>, NoMemory>
    ensures { IfOk result (λ found. option_map place_seen found ≡ spec.place_in Kind.PolicyGroup name.now) }
{
    match name_of(alloc, name.as_str())? {
        Some(name) => Ok(Some(Place::PolicyGroup(name))),
        None => Ok(None),
    }
}

fn acl(alloc: Global, name: &Text) -> Result<Option<Place>, NoMemory>
    ensures { IfOk result (λ found. option_map place_seen found ≡ spec.place_in Kind.Acl name.now) }
{
    match split_at_slash(name.as_str()) {
        Some((word, back)) => acl_of(alloc, word, back),
        None => Ok(None),
    }
}

fn acl_of(alloc: Global, word: &str, back: &str) -> Result<Option<Place>, NoMemory>
    ensures { IfOk result (λ found. option_map place_seen found ≡ spec.acl_place back.now (spec.kind_named word.now)) }
{
    match kind_named(word) {
        Some(kind) => acl_named(alloc, kind, back),
        None => Ok(None),
    }
}

fn acl_named(alloc: Global, kind: Kind, name: &str) -> Result<Option<Place>, NoMemory>
    ensures { IfOk result (λ found. option_map place_seen found ≡ spec.where_ (names.is_name name.now) (spec.acl (key kind name.now))) }
{
    if is_name(name) {
        let name = Text::from_str(alloc, name)?;
        Ok(Some(Place::Acl(Key { kind, name })))
    } else {
        Ok(None)
    }
}

fn sandbox(name: &Text) -> Option<Place>
    ensures { option_map place_seen result ≡ spec.place_in Kind.Sandbox name.now }
{
    match read_checksum(name) {
        Some(id) => Some(Place::Sandbox(id)),
        None => None,
    }
}

fn file(name: &Text) -> Option<Place>
    ensures { option_map place_seen result ≡ spec.place_in Kind.File name.now }
{
    match read_checksum(name) {
        Some(sum) => Some(Place::File(sum)),
        None => None,
    }
}
