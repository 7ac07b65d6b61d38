//! What no clause says: that the calls succeed, and that the definitions are those of the product. Each line has a body
//! under the name `web` and the version 1.0.0, or an identifier, and what its edition tells, or the fault.
use doc_tree::{Name, Text, Tree, json_text, read_json};
use org_shelves::{
    Edition, artifacts_are_stored, frozen_are_stored, manifests_are_kept, manifests_are_stored,
    shown, stored_manifests_say,
};
use sandboxes::{Checksum, read_checksum};
use std::alloc::Global;
use std::test::Fail;
use version_rules::{Needs, Version, parse_version};

/// Whether it is frozen, its needs, its checksums, whether the file of `abc` is among them, and its release.
const TOLD: &str =
    r#"{"metadata":{"name":"web","version":"1.0.0"},"version":"1.0.0"} => frozen false, needs [], sums [], abc false, release 1.0.0 []
{"frozen?":true,"metadata":{"name":"web","version":"1.0.0","dependencies":{"db":"~> 1.2","apt":"1.0.0"}},"version":"1.0.0","recipes":[{"name":"a","path":"a","checksum":"d41d8cd98f00b204e9800998ecf8427e"}],"files":[{"name":"b","path":"b","checksum":"d41d8cd98f00b204e9800998ecf8427e"}],"root_files":[{"name":"c","path":"c","checksum":"900150983cd24fb0d6963f7d28e17f72"}]} => frozen true, needs [apt = 1.0.0;db ~> 1.2;], sums [900150983cd24fb0d6963f7d28e17f72;d41d8cd98f00b204e9800998ecf8427e;], abc true, release 1.0.0 [apt = 1.0.0;db ~> 1.2;]
{"metadata":{"name":"web","version":"1.0.0"},"version":"1.0.0","all_files":[{"checksum":"900150983cd24fb0d6963f7d28e17f72"}],"providers":[{"name":"a","path":"a","checksum":"0cc175b9c0f1b6a831c399e269772661"}]} => frozen false, needs [], sums [0cc175b9c0f1b6a831c399e269772661;], abc false, release 1.0.0 []
[] => field cookbook_name hasn't its form
{"metadata":{"name":"db","version":"1.0.0"},"version":"1.0.0"} => field metadata tells another name or version
"#;

/// The manifest as a reply shows it.
const SHOWN: &str =
    r#"{"metadata":{"name":"web","recipes":[{"checksum":"900150983cd24fb0d6963f7d28e17f72"}],"version":"1.0.0"},"version":"1.0.0","recipes":[{"name":"a","path":"a","checksum":"d41d8cd98f00b204e9800998ecf8427e","url":"/a"},{"name":"b","path":"b","checksum":"900150983cd24fb0d6963f7d28e17f72"}],"root_files":[{"name":"c","path":"c","checksum":"0cc175b9c0f1b6a831c399e269772661"}],"all_files":[{"checksum":"900150983cd24fb0d6963f7d28e17f72"}]} => {"all_files":[{"checksum":"900150983cd24fb0d6963f7d28e17f72"}],"attributes":[],"chef_type":"cookbook_version","cookbook_name":"web","definitions":[],"files":[],"frozen?":false,"json_class":"Chef::CookbookVersion","libraries":[],"metadata":{"dependencies":{},"name":"web","recipes":[{"checksum":"900150983cd24fb0d6963f7d28e17f72"}],"version":"1.0.0"},"name":"web-1.0.0","providers":[],"recipes":[{"checksum":"d41d8cd98f00b204e9800998ecf8427e","name":"a","path":"a","specificity":"default","url":"/organizations/acme/files/d41d8cd98f00b204e9800998ecf8427e"},{"checksum":"900150983cd24fb0d6963f7d28e17f72","name":"b","path":"b","specificity":"default","url":"/organizations/acme/files/900150983cd24fb0d6963f7d28e17f72"}],"resources":[],"root_files":[{"checksum":"0cc175b9c0f1b6a831c399e269772661","name":"c","path":"c","specificity":"default","url":"/organizations/acme/files/0cc175b9c0f1b6a831c399e269772661"}],"templates":[],"version":"1.0.0"}
"#;

/// The manifest once it is frozen.
const FROZEN: &str =
    r#"{"metadata":{"name":"web","version":"1.0.0"},"version":"1.0.0"} => {"attributes":[],"chef_type":"cookbook_version","cookbook_name":"web","definitions":[],"files":[],"frozen?":true,"json_class":"Chef::CookbookVersion","libraries":[],"metadata":{"dependencies":{},"name":"web","version":"1.0.0"},"name":"web-1.0.0","providers":[],"recipes":[],"resources":[],"root_files":[],"templates":[],"version":"1.0.0"}
"#;

/// Its dependencies as stored.
const DEPENDENCIES: &str = r#"{"metadata":{"name":"web","version":"1.0.0"},"version":"1.0.0"} => {}
{"metadata":{"name":"web","version":"1.0.0","dependencies":{"db":"~>1.2","apt":" 1.0.0 "}},"version":"1.0.0"} => {"apt":" 1.0.0 ","db":"~>1.2"}
"#;

/// Artifacts under the name `web` and one identifier, and what each tells as a version does, or the fault.
const ARTIFACTS_TOLD: &str =
    r#"{"name":"web","version":"1.0.0","identifier":"0123456789abcdef0123456789abcdef01234567","metadata":{"name":"web","version":"1.0.0","dependencies":{"db":"~> 1.2"}},"recipes":[{"name":"a","path":"a","checksum":"900150983cd24fb0d6963f7d28e17f72"}]} => frozen false, needs [db ~> 1.2;], sums [900150983cd24fb0d6963f7d28e17f72;], abc true, release 1.0.0 [db ~> 1.2;]
{"cookbook_name":"db","frozen?":true,"version":"1.0.0","identifier":"0123456789abcdef0123456789abcdef01234567","metadata":{"name":"web","version":"1.0.0"}} => frozen true, needs [], sums [], abc false, release 1.0.0 []
{"name":"web","version":"1.0.0","identifier":"1123456789abcdef0123456789abcdef01234567","metadata":{"name":"web","version":"1.0.0"}} => field identifier tells another name or version
{"name":"web","version":"1.0.0","metadata":{"name":"web","version":"1.0.0"}} => field identifier is missing
{"name":"web-1.0.0","version":"1.0.0","identifier":"0123456789abcdef0123456789abcdef01234567","metadata":{"name":"web","version":"1.0.0"}} => field name tells another name or version
[] => field name hasn't its form
"#;

/// An artifact as a reply shows it: what is stored has no `cookbook_name`.
const ARTIFACTS_SHOWN: &str =
    r#"{"cookbook_name":"db","access":1,"version":"1.0.0","identifier":"0123456789abcdef0123456789abcdef01234567","metadata":{"name":"web","version":"1.0.0"},"recipes":[{"name":"a","path":"a","checksum":"900150983cd24fb0d6963f7d28e17f72"}]} => {"access":1,"attributes":[],"chef_type":"cookbook_version","definitions":[],"files":[],"frozen?":false,"identifier":"0123456789abcdef0123456789abcdef01234567","json_class":"Chef::CookbookVersion","libraries":[],"metadata":{"dependencies":{},"name":"web","version":"1.0.0"},"name":"web","providers":[],"recipes":[{"checksum":"900150983cd24fb0d6963f7d28e17f72","name":"a","path":"a","specificity":"default","url":"/organizations/acme/files/900150983cd24fb0d6963f7d28e17f72"}],"resources":[],"root_files":[],"templates":[],"version":"1.0.0"}
"#;

/// What a body is read as.
#[derive(Clone, Copy)]
enum Reading {
    Version,
    Artifact,
}

/// What is asked of an edition.
#[derive(Clone, Copy)]
enum Asked {
    Told,
    Shown,
    Frozen,
    Dependencies,
}

fn written(alloc: Global, tree: &Tree) -> Result<String, Fail> {
    let text = json_text(alloc, tree)?;
    Ok(String::from_utf8_lossy(alloc, text.as_slice())?)
}

fn abc(alloc: Global) -> Result<Checksum, Fail> {
    let text = Text::from_str(alloc, "900150983cd24fb0d6963f7d28e17f72")?;
    Ok(read_checksum(&text).ok_or("a checksum")?)
}

fn needs_told(alloc: Global, needs: &Needs) -> Result<String, Fail> {
    let mut told = String::new(alloc);
    for need in needs.as_slice() {
        let name = &need.name;
        let constraint = need.constraint;
        told.push_str(format!(in alloc; "{name} {constraint};")?.as_str())?;
    }
    Ok(told)
}

fn sums_told(alloc: Global, edition: &Edition) -> Result<String, Fail> {
    let mut told = String::new(alloc);
    for sum in edition.sums().as_slice() {
        told.push_str(sum.as_str())?;
        told.push_str(";")?;
    }
    Ok(told)
}

fn released(alloc: Global, edition: &Edition, version: Version) -> Result<String, Fail> {
    let release = edition.release(alloc, version)?;
    let version = release.version;
    let needs = needs_told(alloc, &release.needs)?;
    Ok(format!(in alloc; "{version} [{needs}]")?)
}

fn told(alloc: Global, edition: &Edition, version: Version) -> Result<String, Fail> {
    let frozen = edition.is_frozen();
    let needs = needs_told(alloc, edition.needs())?;
    let sums = sums_told(alloc, edition)?;
    let abc = edition.names(&abc(alloc)?);
    let release = released(alloc, edition, version)?;
    Ok(format!(in alloc;
        "frozen {frozen}, needs [{needs}], sums [{sums}], abc {abc}, release {release}"
    )?)
}

fn answer(
    alloc: Global,
    asked: Asked,
    edition: &Edition,
    version: Version,
) -> Result<String, Fail> {
    match asked {
        Asked::Told => told(alloc, edition, version),
        Asked::Shown => written(alloc, &shown(alloc, "/organizations/acme/files/", edition)?),
        Asked::Frozen => written(alloc, edition.copy(alloc)?.with_frozen(alloc)?.tree()),
        Asked::Dependencies => written(alloc, &edition.dependencies(alloc)?),
    }
}

/// What the edition of a body answers, or the fault.
fn answered(alloc: Global, reading: Reading, asked: Asked, body: &Tree) -> Result<String, Fail> {
    let name = Name::of(Text::from_str(alloc, "web")?)
        .ok()
        .ok_or("a name")?;
    let id = Text::from_str(alloc, "0123456789abcdef0123456789abcdef01234567")?;
    let version = parse_version("1.0.0").ok().ok_or("a version")?;
    let read = match reading {
        Reading::Version => Edition::read(alloc, body, &name, &version),
        Reading::Artifact => Edition::read_artifact(alloc, body, &name, &id),
    };
    match read {
        Ok(edition) => answer(alloc, asked, &edition, version),
        Err(fault) => Ok(fault.to_string(alloc)?),
    }
}

/// A line, as its body answers.
fn line_told(alloc: Global, reading: Reading, asked: Asked, line: &str) -> Result<String, Fail> {
    let (body, _) = line.split_once(" => ").unwrap_or((line, ""));
    let tree = read_json(alloc, body.as_bytes())?;
    let told = answered(alloc, reading, asked, &tree)?;
    Ok(format!(in alloc; "{body} => {told}")?)
}

/// The lines that are answered otherwise.
fn lines_otherwise(
    alloc: Global,
    reading: Reading,
    asked: Asked,
    lines: &str,
) -> Result<String, Fail> {
    let mut otherwise = String::new(alloc);
    for line in lines.lines() {
        let told = line_told(alloc, reading, asked, line)?;
        if told.as_str() != line {
            otherwise.push_str(told.as_str())?;
            otherwise.push_str("\n")?;
        }
    }
    Ok(otherwise)
}

#[test]
fn editions_answer_as_their_manifests(rt: HostRuntime) -> Result<(), Fail> {
    manifests_are_kept();
    manifests_are_stored();
    stored_manifests_say();
    frozen_are_stored();
    let told = lines_otherwise(rt.alloc(), Reading::Version, Asked::Told, TOLD)?;
    assert_eq!(rt; told.as_str(), "");
    let shown = lines_otherwise(rt.alloc(), Reading::Version, Asked::Shown, SHOWN)?;
    assert_eq!(rt; shown.as_str(), "");
    let frozen = lines_otherwise(rt.alloc(), Reading::Version, Asked::Frozen, FROZEN)?;
    assert_eq!(rt; frozen.as_str(), "");
    let dependencies = lines_otherwise(
        rt.alloc(),
        Reading::Version,
        Asked::Dependencies,
        DEPENDENCIES,
    )?;
    assert_eq!(rt; dependencies.as_str(), "");
    Ok(())
}

#[test]
fn artifacts_answer_as_their_manifests(rt: HostRuntime) -> Result<(), Fail> {
    artifacts_are_stored();
    let told = lines_otherwise(rt.alloc(), Reading::Artifact, Asked::Told, ARTIFACTS_TOLD)?;
    assert_eq!(rt; told.as_str(), "");
    let shown = lines_otherwise(rt.alloc(), Reading::Artifact, Asked::Shown, ARTIFACTS_SHOWN)?;
    assert_eq!(rt; shown.as_str(), "");
    Ok(())
}
