//! That the calls succeed with ample memory, and one life of an organisation's shelves. The file is the message `abc` of
//! RFC 1321, A.5, with its digest.

use doc_tree::{Bytes, Name, NoMemory, Text, Tree, read_json};
use org_shelves::{
    Assignments, Edition, OrgShelves, Revision, ShelfMove, is_named, make_on_shelves,
    named_files_stay, sound_moves_keep,
};
use policy_locks::{Lock, read_lock};
use sandboxes::{Checksum, Files, Hashed, Sums, read_checksum};
use std::alloc::Global;
use std::fmt::Write;
use std::test::Fail;
use version_rules::{Version, parse_version};

const SUM: &str = "900150983cd24fb0d6963f7d28e17f72";

const ID: &str = "0123456789abcdef0123456789abcdef01234567";

/// The version of a cookbook that names the file.
const VERSION: &str =
    r#"{"metadata":{"name":"web","version":"1.0.0"},"version":"1.0.0","files":[{"name":"a","path":"a","checksum":"900150983cd24fb0d6963f7d28e17f72"}]}"#;

/// The artifact that names the file.
const ARTIFACT: &str =
    r#"{"identifier":"0123456789abcdef0123456789abcdef01234567","metadata":{"name":"web","version":"1.0.0"},"version":"1.0.0","files":[{"name":"a","path":"a","checksum":"900150983cd24fb0d6963f7d28e17f72"}]}"#;

const LOCK: &str = r#"{"cookbook_locks":{},"name":"base","revision_id":"1","run_list":[]}"#;

/// Each move, and what is on the shelves and among the files after it.
const LIFE: &str = "nothing => cookbooks; artifacts; policies; groups; not named, there
put version => cookbooks web-1.0.0; artifacts; policies; groups; named, there
put artifact => cookbooks web-1.0.0; artifacts web/0123456789abcdef0123456789abcdef01234567; policies; groups; named, there
take version => cookbooks; artifacts web/0123456789abcdef0123456789abcdef01234567; policies; groups; named, there
put revision => cookbooks; artifacts web/0123456789abcdef0123456789abcdef01234567; policies base/1; groups; named, there
put group prod => cookbooks; artifacts web/0123456789abcdef0123456789abcdef01234567; policies base/1; groups prod base=1; named, there
put group dev => cookbooks; artifacts web/0123456789abcdef0123456789abcdef01234567; policies base/1; groups dev base=1 prod base=1; named, there
take artifact => cookbooks; artifacts; policies base/1; groups dev base=1 prod base=1; not named, gone
take group dev => cookbooks; artifacts; policies base/1; groups prod base=1; not named, gone
take policy => cookbooks; artifacts; policies; groups prod; not named, gone
";

/// What is kept of the organisation `acme`.
#[derive(Drop)]
struct Kept {
    shelves: OrgShelves,
    files: Files,
    org: Text,
    sum: Checksum,
}

fn text(alloc: Global, text: &str) -> Result<Text, NoMemory> {
    Text::from_str(alloc, text)
}

fn name(alloc: Global, name: &str) -> Result<Name, Fail> {
    Ok(Name::of(text(alloc, name)?).ok().ok_or("a name")?)
}

fn tree(alloc: Global, json: &str) -> Result<Tree, Fail> {
    Ok(read_json(alloc, json.as_bytes())?)
}

fn one_version() -> Result<Version, Fail> {
    Ok(parse_version("1.0.0").ok().ok_or("a version")?)
}

fn sandbox(alloc: Global, files: &mut Files, org: &Text, sum: Checksum) -> Result<Checksum, Fail> {
    files.reserve(alloc, org, 1)?;
    let sums = Sums::of(vec![in alloc; sum]?);
    Ok(files.begin(org, sums).ok().ok_or("a sandbox")?)
}

fn upload(alloc: Global, files: &mut Files, org: &Text, sum: Checksum) -> Result<(), Fail> {
    files.reserve(alloc, org, 1)?;
    let file = Hashed::of(Bytes::constant(b"abc"));
    Ok(files.upload(org, sum, file).ok().ok_or("an upload")?)
}

/// Commits a sandbox that misses nothing.
fn commit(alloc: Global, files: &mut Files, org: &Text, id: &Checksum) -> Option<()> {
    match files.missing(alloc, org, id) {
        Err(_) => None,
        Ok(missing) => {
            if missing.is_empty() {
                files.commit(org, id);
                return Some(());
            }
            None
        }
    }
}

/// The one file.
fn add_file(alloc: Global, files: &mut Files, org: &Text, sum: Checksum) -> Result<(), Fail> {
    let id = sandbox(alloc, files, org, sum)?;
    upload(alloc, files, org, sum)?;
    Ok(commit(alloc, files, org, &id).ok_or("a commit")?)
}

/// The one file, committed.
fn committed(alloc: Global, org: &Text, sum: Checksum) -> Result<Files, Fail> {
    let mut files = Files::none(alloc);
    add_file(alloc, &mut files, org, sum)?;
    Ok(files)
}

fn checksum(alloc: Global) -> Result<Checksum, Fail> {
    let text = text(alloc, SUM)?;
    Ok(read_checksum(&text).ok_or("a checksum")?)
}

/// Empty shelves, and the one file, committed.
fn begin(alloc: Global) -> Result<Kept, Fail> {
    let sum = checksum(alloc)?;
    let org = text(alloc, "acme")?;
    let files = committed(alloc, &org, sum)?;
    Ok(Kept {
        shelves: OrgShelves::none(alloc),
        files,
        org,
        sum,
    })
}

fn edition_in(alloc: Global, body: &Tree) -> Result<Edition, Fail> {
    let version = one_version()?;
    let name = name(alloc, "web")?;
    let read = Edition::read(alloc, body, &name, &version);
    Ok(read.ok().ok_or("an edition")?)
}

fn edition(alloc: Global) -> Result<Edition, Fail> {
    let body = tree(alloc, VERSION)?;
    edition_in(alloc, &body)
}

fn artifact_in(alloc: Global, body: &Tree) -> Result<Edition, Fail> {
    let name = name(alloc, "web")?;
    let id = text(alloc, ID)?;
    let read = Edition::read_artifact(alloc, body, &name, &id);
    Ok(read.ok().ok_or("an artifact")?)
}

fn artifact(alloc: Global) -> Result<Edition, Fail> {
    let body = tree(alloc, ARTIFACT)?;
    artifact_in(alloc, &body)
}

fn lock(alloc: Global) -> Result<Lock, Fail> {
    let body = tree(alloc, LOCK)?;
    Ok(read_lock(alloc, &body).ok().ok_or("a lock")?)
}

fn revision(alloc: Global) -> Result<Revision, Fail> {
    let revision = Revision::of(lock(alloc)?);
    Ok(revision.copy(alloc)?)
}

fn assigned(
    alloc: Global,
    before: &Assignments,
    policy: &str,
    revision: &str,
) -> Result<Assignments, NoMemory> {
    let policy = text(alloc, policy)?;
    let revision = text(alloc, revision)?;
    before.with(alloc, &policy, &revision)
}

fn other_assigned(alloc: Global) -> Result<Assignments, NoMemory> {
    let none = Assignments::none(alloc);
    assigned(alloc, &none, "other", "2")
}

fn both_assigned(alloc: Global) -> Result<Assignments, NoMemory> {
    let other = other_assigned(alloc)?;
    assigned(alloc, &other, "base", "1")
}

/// That `base` is assigned at its revision, and `other`, which was, isn't.
fn assignments(alloc: Global) -> Result<Assignments, NoMemory> {
    let other = text(alloc, "other")?;
    let both = both_assigned(alloc)?;
    both.without(alloc, &other)
}

fn put_version(alloc: Global) -> Result<ShelfMove, Fail> {
    let version = one_version()?;
    let name = text(alloc, "web")?;
    Ok(ShelfMove::PutVersion(name, version, edition(alloc)?))
}

fn take_version(alloc: Global) -> Result<ShelfMove, Fail> {
    let version = one_version()?;
    Ok(ShelfMove::TakeVersion(text(alloc, "web")?, version))
}

fn put_artifact(alloc: Global) -> Result<ShelfMove, Fail> {
    let name = text(alloc, "web")?;
    let id = text(alloc, ID)?;
    Ok(ShelfMove::PutArtifact(name, id, artifact(alloc)?))
}

fn take_artifact(alloc: Global) -> Result<ShelfMove, Fail> {
    let name = text(alloc, "web")?;
    Ok(ShelfMove::TakeArtifact(name, text(alloc, ID)?))
}

fn put_revision(alloc: Global) -> Result<ShelfMove, Fail> {
    let policy = text(alloc, "base")?;
    let id = text(alloc, "1")?;
    Ok(ShelfMove::PutRevision(policy, id, revision(alloc)?))
}

fn take_policy(alloc: Global) -> Result<ShelfMove, Fail> {
    Ok(ShelfMove::TakePolicy(text(alloc, "base")?))
}

fn put_group(alloc: Global, name: &str) -> Result<ShelfMove, Fail> {
    let name = text(alloc, name)?;
    Ok(ShelfMove::PutGroup(name, assignments(alloc)?))
}

fn take_group(alloc: Global, name: &str) -> Result<ShelfMove, Fail> {
    Ok(ShelfMove::TakeGroup(text(alloc, name)?))
}

/// The move that a line names. A move of its own in each function: what a function holds costs a proof at each `?`.
fn move_of(alloc: Global, line: &str) -> Result<ShelfMove, Fail> {
    match line {
        "put version" => put_version(alloc),
        "take version" => take_version(alloc),
        "put artifact" => put_artifact(alloc),
        "take artifact" => take_artifact(alloc),
        "put revision" => put_revision(alloc),
        "take policy" => take_policy(alloc),
        "put group prod" => put_group(alloc, "prod"),
        "put group dev" => put_group(alloc, "dev"),
        "take group dev" => take_group(alloc, "dev"),
        _ => Err(Fail::from("a move")),
    }
}

/// Makes the move that a line names.
fn make(alloc: Global, kept: &mut Kept, line: &str) -> Result<(), Fail> {
    kept.shelves.reserve(1)?;
    let one = move_of(alloc, line)?;
    make_on_shelves(&mut kept.shelves, &mut kept.files, &kept.org, one);
    Ok(())
}

fn tell_versions(told: &mut String, shelves: &OrgShelves) -> Result<(), Fail> {
    told.push_str("cookbooks")?;
    for (name, shelf) in shelves.cookbooks().shelves() {
        for (version, _) in shelf.entries() {
            write!(told, " {name}-{version}")?;
        }
    }
    Ok(())
}

fn tell_artifacts(told: &mut String, shelves: &OrgShelves) -> Result<(), Fail> {
    told.push_str("; artifacts")?;
    for (name, shelf) in shelves.artifacts().shelves() {
        for (id, _) in shelf.entries() {
            write!(told, " {name}/{id}")?;
        }
    }
    Ok(())
}

fn tell_policies(told: &mut String, shelves: &OrgShelves) -> Result<(), Fail> {
    told.push_str("; policies")?;
    for (name, shelf) in shelves.policies().shelves() {
        for (revision, _) in shelf.entries() {
            write!(told, " {name}/{revision}")?;
        }
    }
    Ok(())
}

fn tell_groups(told: &mut String, shelves: &OrgShelves) -> Result<(), Fail> {
    told.push_str("; groups")?;
    for (name, assignments) in shelves.groups().entries() {
        write!(told, " {name}")?;
        for (policy, revision) in assignments.entries() {
            write!(told, " {policy}={revision}")?;
        }
    }
    Ok(())
}

fn tell_shelves(told: &mut String, shelves: &OrgShelves) -> Result<(), Fail> {
    tell_versions(told, shelves)?;
    tell_artifacts(told, shelves)?;
    tell_policies(told, shelves)?;
    tell_groups(told, shelves)
}

/// What is on the shelves, and of the file.
fn tell(told: &mut String, kept: &Kept) -> Result<(), Fail> {
    tell_shelves(told, &kept.shelves)?;
    let named = match is_named(&kept.shelves, &kept.sum) {
        true => "named",
        false => "not named",
    };
    let there = match kept.files.file(&kept.org, &kept.sum) {
        Some(_) => "there",
        None => "gone",
    };
    Ok(write!(told, "; {named}, {there}\n")?)
}

/// Makes the move that a line names, where it names one, and tells what is kept then.
fn live(told: &mut String, kept: &mut Kept, alloc: Global, word: &str) -> Result<(), Fail> {
    if word != "nothing" {
        make(alloc, kept, word)?;
    }
    write!(told, "{word} => ")?;
    tell(told, kept)
}

fn tell_life(told: &mut String, kept: &mut Kept, alloc: Global) -> Result<(), Fail> {
    for line in LIFE.lines() {
        let (word, _) = line.split_once(" => ").unwrap_or((line, ""));
        live(told, kept, alloc, word)?;
    }
    Ok(())
}

/// One of each on the shelves.
fn stock(alloc: Global, kept: &mut Kept) -> Result<(), Fail> {
    make(alloc, kept, "put version")?;
    make(alloc, kept, "put artifact")?;
    make(alloc, kept, "put revision")?;
    make(alloc, kept, "put group prod")
}

fn tell_copy(told: &mut String, shelves: &OrgShelves, alloc: Global) -> Result<(), Fail> {
    let copy = shelves.copy(alloc)?;
    tell_shelves(told, &copy)
}

fn tell_stocked_copy(told: &mut String, kept: &mut Kept, alloc: Global) -> Result<(), Fail> {
    stock(alloc, kept)?;
    tell_copy(told, &kept.shelves, alloc)
}

/// The revision of a policy that a group assigns, where its lock is there.
fn tell_assigned(
    told: &mut String,
    shelves: &OrgShelves,
    group: &Text,
    policy: &Text,
) -> Result<(), Fail> {
    let assignments = shelves.groups().get(group).ok_or("a group")?;
    let revision = assignments.revision(policy).ok_or("a revision")?;
    let lock = shelves.policies().get(policy, revision).ok_or("a lock")?;
    match lock.tree() {
        Tree::Dict(_) => told.push_str(revision.as_str())?,
        _ => told.push_str("no lock")?,
    }
    Ok(())
}

fn tell_stocked_group(told: &mut String, kept: &mut Kept, alloc: Global) -> Result<(), Fail> {
    stock(alloc, kept)?;
    let group = text(alloc, "prod")?;
    let policy = text(alloc, "base")?;
    tell_assigned(told, &kept.shelves, &group, &policy)
}

/// What is told of an organisation.
#[derive(Clone, Copy)]
enum Telling {
    Life,
    StockedCopy,
    StockedGroup,
}

fn told_of(alloc: Global, kept: &mut Kept, telling: Telling) -> Result<String, Fail> {
    let mut told = String::new(alloc);
    match telling {
        Telling::Life => tell_life(&mut told, kept, alloc)?,
        Telling::StockedCopy => tell_stocked_copy(&mut told, kept, alloc)?,
        Telling::StockedGroup => tell_stocked_group(&mut told, kept, alloc)?,
    }
    Ok(told)
}

fn told(alloc: Global, telling: Telling) -> Result<String, Fail> {
    let mut kept = begin(alloc)?;
    told_of(alloc, &mut kept, telling)
}

#[test]
fn a_file_goes_with_the_last_manifest_and_a_policy_with_its_assignments(
    rt: HostRuntime,
) -> Result<(), Fail> {
    sound_moves_keep();
    named_files_stay();
    let told = told(rt.alloc(), Telling::Life)?;
    assert_eq!(rt; told.as_str(), LIFE);
    Ok(())
}

#[test]
fn a_copy_is_equal(rt: HostRuntime) -> Result<(), Fail> {
    let told = told(rt.alloc(), Telling::StockedCopy)?;
    let due =
        "cookbooks web-1.0.0; artifacts web/0123456789abcdef0123456789abcdef01234567; policies base/1; groups prod base=1";
    assert_eq!(rt; told.as_str(), due);
    Ok(())
}

#[test]
fn what_a_group_assigns_is_found(rt: HostRuntime) -> Result<(), Fail> {
    let told = told(rt.alloc(), Telling::StockedGroup)?;
    assert_eq!(rt; told.as_str(), "1");
    Ok(())
}
