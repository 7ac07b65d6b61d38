//! What one row says, laid among the parts of a state.
ghost use Rattle.std.specs.Prelude.{◌≡◌, ◌≢◌, OnOk, cond};
ghost use Rattle.std.specs.FinMap as finite;
ghost use Rattle.doc_tree.specs.declared.kind.Kind.TheVariants as kinds;
ghost use Rattle.membership.specs.Changes.{with_client, with_groups, with_user};
ghost use Rattle.object_store.specs.Keys.{is_of};
ghost use Rattle.object_store.specs.Objects.{Store};
ghost use Rattle.sandboxes.specs.Files.{holding_of, OthersStay};
ghost use Rattle.sandboxes.specs.Sandboxes.{laid_count, laid_file, laid_sandbox};
ghost use Rattle.org_core.specs.States.{Organisation};
ghost use Rattle.row_laying.specs.Laying.{organisation_from, with_client_of, with_said, files_with_said};

use crate::shelving::shelve;
use access_lists::Acl;
use compact_json::CompactJson;
use doc_tree::{Kind, NoMemory, Text};
use membership::{Group, Groups};
use object_store::{Key, Objects};
use org_shelves::{OrgShelves, ShelfMove};
use row_reading::Said;
use sandboxes::{Checksum, Files, Hashed, Sums};
use std::alloc::Global;

/// Lays what one row says, in place of what is there of it.
pub fn lay(
    alloc: Global,
    org: &Text,
    objects: &mut Objects,
    groups: &mut Groups,
    shelves: &mut OrgShelves,
    files: &mut Files,
    one: Said,
) -> Result<(), NoMemory>
    ensures organisation { OnOk result (organisation_from objects.new groups.new shelves.new ≡ with_said one (organisation_from objects.old groups.old shelves.old)) }
    ensures files { OnOk result (holding_of files.new org.now ≡ files_with_said one (holding_of files.old org.now)) }
    ensures others { OthersStay org.now files.old files.new }
{
    match one {
        Said::Count(count) => lay_count(alloc, org, files, count),
        Said::Object(key, document) => lay_object(alloc, objects, groups, key, document),
        Said::User(name) => lay_user(groups, name),
        Said::Group(name, group) => lay_group(groups, name, group),
        Said::Container(_) => Ok(()),
        Said::Version(name, version, edition) => {
            shelve(
                alloc,
                org,
                shelves,
                ShelfMove::PutVersion(name, version, edition),
            )
        }
        Said::Artifact(name, id, edition) => {
            shelve(
                alloc,
                org,
                shelves,
                ShelfMove::PutArtifact(name, id, edition),
            )
        }
        Said::Revision(policy, id, lock) => {
            shelve(
                alloc,
                org,
                shelves,
                ShelfMove::PutRevision(policy, id, lock),
            )
        }
        Said::PolicyGroup(name, assigned) => {
            shelve(alloc, org, shelves, ShelfMove::PutGroup(name, assigned))
        }
        Said::List(key, list) => lay_list(objects, key, list),
        Said::Sandbox(id, sums) => lay_sandbox(alloc, org, files, id, sums),
        Said::File(file, committed) => lay_file(alloc, org, files, file, committed),
    }
}

#[tactic(auto, using(crate::proofs::PartLemmas::part_there))]
fn lay_count(alloc: Global, org: &Text, files: &mut Files, count: u64) -> Result<(), NoMemory>
    ensures files { OnOk result (holding_of files.new org.now ≡ laid_count count (holding_of files.old org.now)) }
    ensures others { OthersStay org.now files.old files.new }
{
    files.reserve(alloc, org, 1)?;
    files.lay_count(org, count);
    Ok(())
}

fn lay_sandbox(
    alloc: Global,
    org: &Text,
    files: &mut Files,
    id: Checksum,
    sums: Sums,
) -> Result<(), NoMemory>
    ensures files { OnOk result (holding_of files.new org.now ≡ laid_sandbox id sums (holding_of files.old org.now)) }
    ensures others { OthersStay org.now files.old files.new }
{
    files.reserve(alloc, org, 1)?;
    files.lay_sandbox(org, id, sums);
    Ok(())
}

fn lay_file(
    alloc: Global,
    org: &Text,
    files: &mut Files,
    file: Hashed,
    committed: bool,
) -> Result<(), NoMemory>
    ensures files { OnOk result (holding_of files.new org.now ≡ laid_file file committed (holding_of files.old org.now)) }
    ensures others { OthersStay org.now files.old files.new }
{
    files.reserve(alloc, org, 1)?;
    files.lay_file(org, file, committed);
    Ok(())
}

fn lay_list(objects: &mut Objects, key: Key, list: Acl) -> Result<(), NoMemory>
    ensures lists { OnOk result (objects.new.lists ≡ finite.insert objects.old.lists key list) }
    ensures objects { OnOk result (objects.new.objects ≡ objects.old.objects) }
{
    objects.reserve(1)?;
    objects.put_acl(key, list);
    Ok(())
}

// Lays an object; a client comes to the organisation with its own.
fn lay_object(
    alloc: Global,
    objects: &mut Objects,
    groups: &mut Groups,
    key: Key,
    document: CompactJson,
) -> Result<(), NoMemory>
    ensures objects { OnOk result (objects.new.objects ≡ finite.insert objects.old.objects key document) }
    ensures lists { OnOk result (objects.new.lists ≡ objects.old.lists) }
    ensures membership { OnOk result (groups.new.membership ≡ with_client_of key groups.old.membership) }
{
    objects.reserve(1)?;
    lay_client(alloc, groups, &key)?;
    drop(objects.put(key, document));
    Ok(())
}

// The client comes whose object has this key, if it is that of one.
fn lay_client(alloc: Global, groups: &mut Groups, key: &Key) -> Result<(), NoMemory>
    ensures { OnOk result (groups.new.membership ≡ with_client_of key.now groups.old.membership) }
{
    if !key.is_of(Kind::Client) {
        return Ok(());
    }
    let name = key.name.copy(alloc)?;
    groups.reserve(1)?;
    groups.add_client(name);
    Ok(())
}

fn lay_user(groups: &mut Groups, name: Text) -> Result<(), NoMemory>
    ensures { OnOk result (groups.new.membership ≡ with_user name groups.old.membership) }
{
    groups.reserve(1)?;
    groups.add_user(name);
    Ok(())
}

fn lay_group(groups: &mut Groups, name: Text, group: Group) -> Result<(), NoMemory>
    ensures { OnOk result (groups.new.membership ≡ with_groups (finite.insert groups.old.membership.groups name group.members) groups.old.membership) }
{
    groups.reserve(1)?;
    groups.put_group(name, group);
    Ok(())
}
