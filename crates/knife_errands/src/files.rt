//! What is sent of a file.

ghost use Rattle.std.specs.Prelude.{◌≡◌, IfOk, option_and_then, option_copied, option_map};
ghost use Rattle.doc_tree.specs.Tree.{doc_of};
ghost use Rattle.knife_errands.specs.Bodies as bodies;
ghost use Rattle.knife_errands.specs.Files as spec;
ghost use Rattle.knife_errands.specs.Outcomes.{TellsFile};
ghost use Rattle.knife_errands.specs.Targets as targets;

use crate::bodies::{document_in, text_at};
use crate::errands::{FileKind, Kind, Thing};
use crate::faults::FileFault;
use crate::printing::done_to;
use crate::requests::sends;
use crate::targets::{target, target_of_two, thing_target};
use doc_tree::{Bytes, NoMemory, Text, Tree, is_name};
use peer_wire::{Ask, Verb, Whom};
use std::alloc::Global;

/// What is sent of a file: it is put where it stands, and posted where it isn't there yet; the line tells that this was
/// done.
#[derive(Drop)]
pub struct Sent {
    pub put: Ask,
    pub post: Ask,
    pub line: Bytes,
}

/// What is sent of a file of this kind, by its bytes. It is `BadFile` only where these aren't JSON as `read_json` reads
/// it, of a Dict that has a Name at `name`, or at `id` where it is an item of a data bag.
pub fn sent_of(alloc: Global, kind: &FileKind, whom: &Whom, file: &Bytes) -> Result<Sent, FileFault>
    ensures { TellsFile result (spec.sent_of kind.now whom.now file.now) }
{
    match document_in(alloc, file.as_slice())? {
        Some(tree) => sent_by(alloc, kind, whom, &tree),
        None => Err(FileFault::BadFile),
    }
}

fn sent_by(alloc: Global, kind: &FileKind, whom: &Whom, tree: &Tree) -> Result<Sent, FileFault>
    ensures { TellsFile result (spec.sent_by kind.now whom.now (doc_of tree.now)) }
{
    match name_in(kind, tree) {
        Some(name) => Ok(sends_all(alloc, kind, whom, tree, name)?),
        None => Err(FileFault::BadFile),
    }
}

fn sends_all(
    alloc: Global,
    kind: &FileKind,
    whom: &Whom,
    tree: &Tree,
    name: &Text,
) -> Result<Sent, NoMemory>
    ensures { IfOk result (λ sent. sent ≡ spec.sends_all kind.now whom.now (doc_of tree.now) name.now) }
{
    let thing = thing_of(alloc, kind, name)?;
    let put = sends(alloc, Verb::Put, thing_target(alloc, whom, &thing)?, tree)?;
    let post = sends(alloc, Verb::Post, target_above(alloc, kind, whom)?, tree)?;
    let line = done_to(alloc, "Updated", &thing)?;
    Ok(Sent { put, post, line })
}

fn thing_of(alloc: Global, kind: &FileKind, name: &Text) -> Result<Thing, NoMemory>
    ensures { IfOk result (λ thing. thing ≡ spec.thing_of kind.now name.now) }
{
    let name = name.copy(alloc)?;
    match kind {
        FileKind::Object(kind) => Ok(Thing::Named(*kind, name)),
        FileKind::Item(bag) => {
            let bag = bag.copy(alloc)?;
            Ok(Thing::Item { bag, id: name })
        }
    }
}

fn target_above(alloc: Global, kind: &FileKind, whom: &Whom) -> Result<Text, NoMemory>
    ensures { IfOk result (λ target. target ≡ targets.target whom.now (spec.place_above kind.now)) }
{
    match kind {
        FileKind::Object(kind) => target(alloc, whom, &[kind.collection()]),
        FileKind::Item(bag) => target_of_two(alloc, whom, Kind::DataBag.collection(), bag.as_str()),
    }
}

fn name_in<'a>(kind: &FileKind, tree: &'a Tree) -> Option<&'a Text>
    ensures { option_copied result ≡ spec.name_in kind.now (doc_of tree.now) }
{
    match text_at(tree, key_of(kind)) {
        Some(text) => if_name(text),
        None => None,
    }
}

fn if_name(text: &Text) -> Option<&Text>
    ensures { option_copied result ≡ spec.if_name text.now }
{
    if is_name(text.as_str()) {
        Some(text)
    } else {
        None
    }
}

fn key_of(kind: &FileKind) -> &'static str
    ensures { result.now ≡ spec.key_of kind.now }
{
    match kind {
        FileKind::Object(_) => "name",
        FileKind::Item(_) => "id",
    }
}
