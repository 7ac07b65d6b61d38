//! What no clause says: that the calls succeed, and that the definitions are those of the product. Each line has a body
//! and what is read from it.
use cookbook_meta::{
    Manifest, MetaFault, Metadata, artifacts_read_back, identifier, manifests_read_back,
    read_artifact, read_manifest, read_metadata,
};
use doc_tree::{Name, Text, Tree, json_text, read_json};
use std::alloc::Global;
use std::test::Fail;
use version_rules::parse_version;

/// Bodies under the name `web` and the version 1.0.0, and the stored object or the fault.
const MANIFESTS: &str =
    r#"{"metadata":{"name":"web","version":"1.0.0"},"version":"1.0.0"} => {"attributes":[],"chef_type":"cookbook_version","cookbook_name":"web","definitions":[],"files":[],"frozen?":false,"json_class":"Chef::CookbookVersion","libraries":[],"metadata":{"dependencies":{},"name":"web","version":"1.0.0"},"name":"web-1.0.0","providers":[],"recipes":[],"resources":[],"root_files":[],"templates":[],"version":"1.0.0"}
{"metadata":{"name":"web","version":"1.0.0"},"version":"1.0.0","recipes":[{"name":"default.yml","path":"recipes/default.yml","checksum":"d41d8cd98f00b204e9800998ecf8427e"}]} => {"attributes":[],"chef_type":"cookbook_version","cookbook_name":"web","definitions":[],"files":[],"frozen?":false,"json_class":"Chef::CookbookVersion","libraries":[],"metadata":{"dependencies":{},"name":"web","version":"1.0.0"},"name":"web-1.0.0","providers":[],"recipes":[{"checksum":"d41d8cd98f00b204e9800998ecf8427e","name":"default.yml","path":"recipes/default.yml","specificity":"default"}],"resources":[],"root_files":[],"templates":[],"version":"1.0.0"}
{"metadata":{"name":"web","version":"1.0.0"},"version":"1.0.0","recipes":[{"name":"default.yml","path":"recipes/default.yml","checksum":"d41d8cd98f00b204e9800998ecf8427e"}],"frozen?":true} => {"attributes":[],"chef_type":"cookbook_version","cookbook_name":"web","definitions":[],"files":[],"frozen?":true,"json_class":"Chef::CookbookVersion","libraries":[],"metadata":{"dependencies":{},"name":"web","version":"1.0.0"},"name":"web-1.0.0","providers":[],"recipes":[{"checksum":"d41d8cd98f00b204e9800998ecf8427e","name":"default.yml","path":"recipes/default.yml","specificity":"default"}],"resources":[],"root_files":[],"templates":[],"version":"1.0.0"}
{"cookbook_name":"web","name":"web-1.0.0","version":"1.0","chef_type":"cookbook_version","json_class":"Chef::CookbookVersion","frozen?":false,"metadata":{"name":"web","version":"01.0","dependencies":{"db":"~>1.2","apt":" 1.0.0 "},"maintainer":null},"root_files":[{"name":"README","path":"README","checksum":"900150983cd24fb0d6963f7d28e17f72","specificity":"host-a","url":"/organizations/acme/files/900150983cd24fb0d6963f7d28e17f72","mode":1}],"access":{"read":true},"all_files":[1]} => {"access":{"read":true},"all_files":[1],"attributes":[],"chef_type":"cookbook_version","cookbook_name":"web","definitions":[],"files":[],"frozen?":false,"json_class":"Chef::CookbookVersion","libraries":[],"metadata":{"dependencies":{"apt":" 1.0.0 ","db":"~>1.2"},"maintainer":null,"name":"web","version":"01.0"},"name":"web-1.0.0","providers":[],"recipes":[],"resources":[],"root_files":[{"checksum":"900150983cd24fb0d6963f7d28e17f72","name":"README","path":"README","specificity":"host-a"}],"templates":[],"version":"1.0.0"}
[] => field cookbook_name hasn't its form
null => field cookbook_name hasn't its form
"web" => field cookbook_name hasn't its form
1 => field cookbook_name hasn't its form
{"cookbook_name":1,"metadata":{"name":"web","version":"1.0.0"},"version":"1.0.0"} => field cookbook_name hasn't its form
{"cookbook_name":null,"metadata":{"name":"web","version":"1.0.0"},"version":"1.0.0"} => field cookbook_name hasn't its form
{"cookbook_name":"db","metadata":{"name":"web","version":"1.0.0"},"version":"1.0.0"} => field cookbook_name tells another name or version
{"name":[],"metadata":{"name":"web","version":"1.0.0"},"version":"1.0.0"} => field name hasn't its form
{"name":"web","metadata":{"name":"web","version":"1.0.0"},"version":"1.0.0"} => field name tells another name or version
{"name":"web-1.0","metadata":{"name":"web","version":"1.0.0"},"version":"1.0.0"} => field name tells another name or version
{} => field version is missing
{"metadata":{"name":"web","version":"1.0.0"}} => field version is missing
{"metadata":{"name":"web","version":"1.0.0"},"version":1} => field version hasn't its form
{"metadata":{"name":"web","version":"1.0.0"},"version":"1"} => field version is no version
{"metadata":{"name":"web","version":"1.0.0"},"version":"1.0.18446744073709551616"} => field version is no version
{"metadata":{"name":"web","version":"1.0.0"},"version":"1.0.1"} => field version tells another name or version
{"chef_type":"role","metadata":{"name":"web","version":"1.0.0"},"version":"1.0.0"} => field chef_type hasn't its form
{"chef_type":null,"metadata":{"name":"web","version":"1.0.0"},"version":"1.0.0"} => field chef_type hasn't its form
{"json_class":"Chef::Role","metadata":{"name":"web","version":"1.0.0"},"version":"1.0.0"} => field json_class hasn't its form
{"frozen?":"true","metadata":{"name":"web","version":"1.0.0"},"version":"1.0.0"} => field frozen? hasn't its form
{"frozen?":null,"metadata":{"name":"web","version":"1.0.0"},"version":"1.0.0"} => field frozen? hasn't its form
{"version":"1.0.0"} => field metadata is missing
{"version":"1.0.0","metadata":[]} => field metadata hasn't its form
{"version":"1.0.0","metadata":null} => field metadata hasn't its form
{"version":"1.0.0","metadata":{}} => field metadata is missing
{"version":"1.0.0","metadata":{"name":1,"version":"1.0.0"}} => field metadata hasn't its form
{"version":"1.0.0","metadata":{"name":"a b","version":"1.0.0"}} => field metadata hasn't its form
{"version":"1.0.0","metadata":{"name":"web"}} => field metadata is missing
{"version":"1.0.0","metadata":{"name":"web","version":[]}} => field metadata hasn't its form
{"version":"1.0.0","metadata":{"name":"web","version":"1"}} => field metadata is no version
{"version":"1.0.0","metadata":{"name":"web","version":"1.0.0","dependencies":[]}} => field metadata hasn't its form
{"version":"1.0.0","metadata":{"name":"web","version":"1.0.0","dependencies":{"a b":"1.0"}}} => field metadata hasn't its form
{"version":"1.0.0","metadata":{"name":"web","version":"1.0.0","dependencies":{"db":1}}} => field metadata hasn't its form
{"version":"1.0.0","metadata":{"name":"web","version":"1.0.0","dependencies":{"db":"~> 1"}}} => field metadata is no version
{"version":"1.0.0","metadata":{"name":"db","version":"1.0.0"}} => field metadata tells another name or version
{"version":"1.0.0","metadata":{"name":"web","version":"1.0.1"}} => field metadata tells another name or version
{"metadata":{"name":"web","version":"1.0.0"},"version":"1.0.0","templates":{}} => field templates hasn't its form
{"metadata":{"name":"web","version":"1.0.0"},"version":"1.0.0","templates":null} => field templates hasn't its form
{"metadata":{"name":"web","version":"1.0.0"},"version":"1.0.0","templates":[1]} => field templates hasn't its form
{"metadata":{"name":"web","version":"1.0.0"},"version":"1.0.0","templates":[[]]} => field templates hasn't its form
{"metadata":{"name":"web","version":"1.0.0"},"version":"1.0.0","templates":[{}]} => field templates is missing
{"metadata":{"name":"web","version":"1.0.0"},"version":"1.0.0","templates":[{"path":"a","checksum":"d41d8cd98f00b204e9800998ecf8427e"}]} => field templates is missing
{"metadata":{"name":"web","version":"1.0.0"},"version":"1.0.0","templates":[{"name":1,"path":"a","checksum":"d41d8cd98f00b204e9800998ecf8427e"}]} => field templates hasn't its form
{"metadata":{"name":"web","version":"1.0.0"},"version":"1.0.0","templates":[{"name":"a","checksum":"d41d8cd98f00b204e9800998ecf8427e"}]} => field templates is missing
{"metadata":{"name":"web","version":"1.0.0"},"version":"1.0.0","templates":[{"name":"a","path":{},"checksum":"d41d8cd98f00b204e9800998ecf8427e"}]} => field templates hasn't its form
{"metadata":{"name":"web","version":"1.0.0"},"version":"1.0.0","templates":[{"name":"a","path":"a"}]} => field templates is missing
{"metadata":{"name":"web","version":"1.0.0"},"version":"1.0.0","templates":[{"name":"a","path":"a","checksum":1}]} => field templates hasn't its form
{"metadata":{"name":"web","version":"1.0.0"},"version":"1.0.0","templates":[{"name":"a","path":"a","checksum":"D41D8CD98F00B204E9800998ECF8427E"}]} => field templates is no checksum
{"metadata":{"name":"web","version":"1.0.0"},"version":"1.0.0","templates":[{"name":"a","path":"a","checksum":"d41d8cd98f00b204e9800998ecf8427"}]} => field templates is no checksum
{"metadata":{"name":"web","version":"1.0.0"},"version":"1.0.0","templates":[{"name":"a","path":"a","checksum":"d41d8cd98f00b204e9800998ecf8427e0"}]} => field templates is no checksum
{"metadata":{"name":"web","version":"1.0.0"},"version":"1.0.0","templates":[{"name":"a","path":"a","checksum":"d41d8cd98f00b204e9800998ecf8427g"}]} => field templates is no checksum
{"metadata":{"name":"web","version":"1.0.0"},"version":"1.0.0","templates":[{"name":"a","path":"a","checksum":""}]} => field templates is no checksum
{"metadata":{"name":"web","version":"1.0.0"},"version":"1.0.0","templates":[{"name":"a","path":"a","checksum":"d41d8cd98f00b204e9800998ecf8427e","specificity":null}]} => field templates hasn't its form
{"metadata":{"name":"web","version":"1.0.0"},"version":"1.0.0","templates":[{"name":"a","path":"a","checksum":"d41d8cd98f00b204e9800998ecf8427e"},{"name":"b","path":"a","checksum":"900150983cd24fb0d6963f7d28e17f72"}]} => field templates has a path twice
{"metadata":{"name":"web","version":"1.0.0"},"version":"1.0.0","recipes":[{"name":"a","path":"a","checksum":"d41d8cd98f00b204e9800998ecf8427e"}],"definitions":[{"name":"a","path":"a","checksum":"d41d8cd98f00b204e9800998ecf8427e"}]} => field definitions has a path twice
{"metadata":{"name":"web","version":"1.0.0"},"version":"1.0.0","recipes":[{"name":"a","path":"a","checksum":"d41d8cd98f00b204e9800998ecf8427e"}],"libraries":[{"name":"a","path":"a","checksum":"d41d8cd98f00b204e9800998ecf8427e"}]} => field libraries has a path twice
{"metadata":{"name":"web","version":"1.0.0"},"version":"1.0.0","recipes":[{"name":"a","path":"a","checksum":"d41d8cd98f00b204e9800998ecf8427e"}],"attributes":[{"name":"a","path":"a","checksum":"d41d8cd98f00b204e9800998ecf8427e"}]} => field attributes has a path twice
{"metadata":{"name":"web","version":"1.0.0"},"version":"1.0.0","recipes":[{"name":"a","path":"a","checksum":"d41d8cd98f00b204e9800998ecf8427e"}],"files":[{"name":"a","path":"a","checksum":"d41d8cd98f00b204e9800998ecf8427e"}]} => field files has a path twice
{"metadata":{"name":"web","version":"1.0.0"},"version":"1.0.0","recipes":[{"name":"a","path":"a","checksum":"d41d8cd98f00b204e9800998ecf8427e"}],"templates":[{"name":"a","path":"a","checksum":"d41d8cd98f00b204e9800998ecf8427e"}]} => field templates has a path twice
{"metadata":{"name":"web","version":"1.0.0"},"version":"1.0.0","recipes":[{"name":"a","path":"a","checksum":"d41d8cd98f00b204e9800998ecf8427e"}],"resources":[{"name":"a","path":"a","checksum":"d41d8cd98f00b204e9800998ecf8427e"}]} => field resources has a path twice
{"metadata":{"name":"web","version":"1.0.0"},"version":"1.0.0","recipes":[{"name":"a","path":"a","checksum":"d41d8cd98f00b204e9800998ecf8427e"}],"providers":[{"name":"a","path":"a","checksum":"d41d8cd98f00b204e9800998ecf8427e"}]} => field providers has a path twice
{"metadata":{"name":"web","version":"1.0.0"},"version":"1.0.0","recipes":[{"name":"a","path":"a","checksum":"d41d8cd98f00b204e9800998ecf8427e"}],"root_files":[{"name":"a","path":"a","checksum":"d41d8cd98f00b204e9800998ecf8427e"}]} => field root_files has a path twice
{"metadata":{"name":"web","version":"1.0.0"},"version":"1.0.0","recipes":[{"name":"a","path":"a","checksum":"d41d8cd98f00b204e9800998ecf8427e"}],"attributes":[{"name":"a","path":"a","checksum":"d41d8cd98f00b204e9800998ecf8427e"}],"definitions":0} => field definitions hasn't its form
{"metadata":{"name":"web","version":"1.0.0"},"version":"1.0.0","recipes":[{"name":"a","path":"a","checksum":"d41d8cd98f00b204e9800998ecf8427e"}],"libraries":[{"name":"a","path":"a","checksum":"d41d8cd98f00b204e9800998ecf8427e"}],"attributes":0} => field libraries has a path twice
{"metadata":{"name":"web","version":"1.0.0"},"version":"1.0.0","recipes":0,"metadata":0} => field metadata hasn't its form
{"metadata":0,"frozen?":0,"version":"1.0.0"} => field frozen? hasn't its form
{"frozen?":0,"json_class":0,"version":"1.0.0"} => field json_class hasn't its form
{"json_class":0,"chef_type":0,"version":"1.0.0"} => field chef_type hasn't its form
{"chef_type":0,"version":0} => field version hasn't its form
{"version":0,"name":0} => field name hasn't its form
{"name":0,"cookbook_name":0} => field cookbook_name hasn't its form
"#;

/// Bodies under the name `web` and an identifier, and the stored object or the fault.
const ARTIFACTS: &str =
    r#"{"identifier":"835740d5b5a679936fe7fb9e5d769bb2b0713ac5","metadata":{"name":"web","version":"1.0.0"},"version":"1.0.0"} => {"attributes":[],"chef_type":"cookbook_version","definitions":[],"files":[],"frozen?":false,"identifier":"835740d5b5a679936fe7fb9e5d769bb2b0713ac5","json_class":"Chef::CookbookVersion","libraries":[],"metadata":{"dependencies":{},"name":"web","version":"1.0.0"},"name":"web","providers":[],"recipes":[],"resources":[],"root_files":[],"templates":[],"version":"1.0.0"}
{"identifier":"835740d5b5a679936fe7fb9e5d769bb2b0713ac5","name":"web","cookbook_name":"db","frozen?":true,"access":1,"metadata":{"name":"web","version":"1.0.0"},"version":"1.0.0","recipes":[{"name":"default.yml","path":"recipes/default.yml","checksum":"d41d8cd98f00b204e9800998ecf8427e"}]} => {"access":1,"attributes":[],"chef_type":"cookbook_version","definitions":[],"files":[],"frozen?":true,"identifier":"835740d5b5a679936fe7fb9e5d769bb2b0713ac5","json_class":"Chef::CookbookVersion","libraries":[],"metadata":{"dependencies":{},"name":"web","version":"1.0.0"},"name":"web","providers":[],"recipes":[{"checksum":"d41d8cd98f00b204e9800998ecf8427e","name":"default.yml","path":"recipes/default.yml","specificity":"default"}],"resources":[],"root_files":[],"templates":[],"version":"1.0.0"}
[] => field name hasn't its form
{"name":"web-1.0.0","identifier":"835740d5b5a679936fe7fb9e5d769bb2b0713ac5","metadata":{"name":"web","version":"1.0.0"},"version":"1.0.0"} => field name tells another name or version
{"name":1,"identifier":"835740d5b5a679936fe7fb9e5d769bb2b0713ac5","metadata":{"name":"web","version":"1.0.0"},"version":"1.0.0"} => field name hasn't its form
{} => field version is missing
{"version":"1","identifier":"835740d5b5a679936fe7fb9e5d769bb2b0713ac5"} => field version is no version
{"chef_type":"role","identifier":"835740d5b5a679936fe7fb9e5d769bb2b0713ac5","metadata":{"name":"web","version":"1.0.0"},"version":"1.0.0"} => field chef_type hasn't its form
{"json_class":1,"identifier":"835740d5b5a679936fe7fb9e5d769bb2b0713ac5","metadata":{"name":"web","version":"1.0.0"},"version":"1.0.0"} => field json_class hasn't its form
{"frozen?":1,"identifier":"835740d5b5a679936fe7fb9e5d769bb2b0713ac5","metadata":{"name":"web","version":"1.0.0"},"version":"1.0.0"} => field frozen? hasn't its form
{"version":"1.0.0","identifier":"835740d5b5a679936fe7fb9e5d769bb2b0713ac5"} => field metadata is missing
{"version":"1.0.1","identifier":"835740d5b5a679936fe7fb9e5d769bb2b0713ac5","metadata":{"name":"web","version":"1.0.0"}} => field metadata tells another name or version
{"version":"1.0.0","identifier":"835740d5b5a679936fe7fb9e5d769bb2b0713ac5","metadata":{"name":"db","version":"1.0.0"}} => field metadata tells another name or version
{"identifier":"835740d5b5a679936fe7fb9e5d769bb2b0713ac5","metadata":{"name":"web","version":"1.0.0"},"version":"1.0.0","files":[1]} => field files hasn't its form
{"metadata":{"name":"web","version":"1.0.0"},"version":"1.0.0","root_files":1} => field root_files hasn't its form
{"metadata":{"name":"web","version":"1.0.0"},"version":"1.0.0"} => field identifier is missing
{"metadata":{"name":"web","version":"1.0.0"},"version":"1.0.0","identifier":1} => field identifier hasn't its form
{"metadata":{"name":"web","version":"1.0.0"},"version":"1.0.0","identifier":"835740D5B5A679936FE7FB9E5D769BB2B0713AC5"} => field identifier hasn't its form
{"metadata":{"name":"web","version":"1.0.0"},"version":"1.0.0","identifier":"835740d5b5a679936fe7fb9e5d769bb2b0713ac"} => field identifier hasn't its form
{"metadata":{"name":"web","version":"1.0.0"},"version":"1.0.0","identifier":"0000000000000000000000000000000000000000"} => field identifier tells another name or version
"#;

/// Metadata, and what they tell or the fault.
const METADATA: &str = r#"{"name":"web","version":"1.2"} => web 1.2.0
{"version":"01.2.3","name":"web","dependencies":{"db":"~> 1.2","apt":"1.0.0"},"maintainer":[]} => web 1.2.3, apt = 1.0.0, db ~> 1.2
[] => field name hasn't its form
{} => field name is missing
{"name":"","version":"1.0"} => field name hasn't its form
{"name":"web"} => field version is missing
{"name":"web","version":1} => field version hasn't its form
{"name":"web","version":"1.0.x","dependencies":0} => field version is no version
{"name":"web","version":"1.0","dependencies":null} => field dependencies hasn't its form
{"name":"web","version":"1.0","dependencies":{"":"1.0"}} => field dependencies hasn't its form
{"name":"web","version":"1.0","dependencies":{"db":"!= 1.0"}} => field dependencies is no version
{"version":0,"name":0} => field name hasn't its form
"#;

/// Bodies under the same name and version, and the identifier of the manifest with the checksums that it names.
const SUMS: &str =
    r#"{"metadata":{"name":"web","version":"1.0.0"},"version":"1.0.0"} => da39a3ee5e6b4b0d3255bfef95601890afd80709
{"metadata":{"name":"web","version":"1.0.0"},"version":"1.0.0","recipes":[{"name":"default.yml","path":"recipes/default.yml","checksum":"d41d8cd98f00b204e9800998ecf8427e"}]} => 835740d5b5a679936fe7fb9e5d769bb2b0713ac5 d41d8cd98f00b204e9800998ecf8427e
{"metadata":{"name":"web","version":"1.0.0"},"version":"1.0.0","recipes":[{"name":"default.yml","path":"recipes/default.yml","checksum":"d41d8cd98f00b204e9800998ecf8427e"}],"root_files":[{"name":"README.md","path":"README.md","checksum":"900150983cd24fb0d6963f7d28e17f72"}],"files":[{"name":"a","path":"a","checksum":"d41d8cd98f00b204e9800998ecf8427e"},{"name":"a-b","path":"a-b","checksum":"0cc175b9c0f1b6a831c399e269772661"}]} => 42116949ee27bcdd67f2eda96939f95e7791eb78 0cc175b9c0f1b6a831c399e269772661 900150983cd24fb0d6963f7d28e17f72 d41d8cd98f00b204e9800998ecf8427e
"#;

/// What is read from a body.
#[derive(Clone, Copy)]
enum Reading {
    Stored,
    Artifact,
    Metadata,
    Sums,
}

fn written(alloc: Global, tree: &Tree) -> Result<String, Fail> {
    let text = json_text(alloc, tree)?;
    Ok(String::from_utf8_lossy(alloc, text.as_slice())?)
}

fn manifest(alloc: Global, tree: &Tree) -> Result<Result<Manifest, MetaFault>, Fail> {
    let name = Name::of(Text::from_str(alloc, "web")?)
        .ok()
        .ok_or("a name")?;
    let version = parse_version("1.0.0").ok().ok_or("a version")?;
    Ok(read_manifest(alloc, tree, &name, &version))
}

fn artifact(alloc: Global, tree: &Tree) -> Result<Result<Manifest, MetaFault>, Fail> {
    let name = Name::of(Text::from_str(alloc, "web")?)
        .ok()
        .ok_or("a name")?;
    let id = Text::from_str(alloc, "835740d5b5a679936fe7fb9e5d769bb2b0713ac5")?;
    Ok(read_artifact(alloc, tree, &name, &id))
}

/// The stored object or the fault.
fn stored(alloc: Global, read: Result<Manifest, MetaFault>) -> Result<String, Fail> {
    match read {
        Ok(manifest) => written(alloc, &manifest.whole),
        Err(fault) => Ok(fault.to_string(alloc)?),
    }
}

/// The identifier and the checksums.
fn named(alloc: Global, manifest: &Manifest) -> Result<String, Fail> {
    let mut told = identifier(alloc, manifest)?.into_string();
    let sums = manifest.checksums(alloc)?;
    for sum in sums.as_slice() {
        told.push_str(" ")?;
        told.push_str(sum.as_str())?;
    }
    Ok(told)
}

/// The identifier and the checksums, or the fault.
fn sums(alloc: Global, read: Result<Manifest, MetaFault>) -> Result<String, Fail> {
    match read {
        Ok(manifest) => named(alloc, &manifest),
        Err(fault) => Ok(fault.to_string(alloc)?),
    }
}

fn shown(alloc: Global, metadata: &Metadata) -> Result<String, Fail> {
    let name = &metadata.name;
    let version = metadata.version;
    let mut told = format!(in alloc; "{name} {version}")?;
    for need in metadata.needs.as_slice() {
        let name = &need.name;
        let constraint = need.constraint;
        told.push_str(format!(in alloc; ", {name} {constraint}")?.as_str())?;
    }
    Ok(told)
}

/// What metadata tell, or the fault.
fn metadata_told(alloc: Global, read: Result<Metadata, MetaFault>) -> Result<String, Fail> {
    match read {
        Ok(metadata) => shown(alloc, &metadata),
        Err(fault) => Ok(fault.to_string(alloc)?),
    }
}

fn told(alloc: Global, reading: Reading, tree: &Tree) -> Result<String, Fail> {
    match reading {
        Reading::Stored => stored(alloc, manifest(alloc, tree)?),
        Reading::Artifact => stored(alloc, artifact(alloc, tree)?),
        Reading::Metadata => metadata_told(alloc, read_metadata(alloc, tree)),
        Reading::Sums => sums(alloc, manifest(alloc, tree)?),
    }
}

/// A line, as reading its body tells it.
fn line_told(alloc: Global, reading: Reading, line: &str) -> Result<String, Fail> {
    let (body, _) = line.split_once(" => ").unwrap_or((line, ""));
    let tree = read_json(alloc, body.as_bytes())?;
    let told = told(alloc, reading, &tree)?;
    Ok(format!(in alloc; "{body} => {told}")?)
}

/// The lines that reading tells otherwise.
fn lines_otherwise(alloc: Global, reading: Reading, lines: &str) -> Result<String, Fail> {
    let mut otherwise = String::new(alloc);
    for line in lines.lines() {
        let told = line_told(alloc, reading, line)?;
        if told.as_str() != line {
            otherwise.push_str(told.as_str())?;
            otherwise.push_str("\n")?;
        }
    }
    Ok(otherwise)
}

#[test]
fn manifests_are_read_and_stored(rt: HostRuntime) -> Result<(), Fail> {
    manifests_read_back();
    let otherwise = lines_otherwise(rt.alloc(), Reading::Stored, MANIFESTS)?;
    assert_eq!(rt; otherwise.as_str(), "");
    Ok(())
}

#[test]
fn artifacts_are_read_and_stored(rt: HostRuntime) -> Result<(), Fail> {
    artifacts_read_back();
    let otherwise = lines_otherwise(rt.alloc(), Reading::Artifact, ARTIFACTS)?;
    assert_eq!(rt; otherwise.as_str(), "");
    Ok(())
}

#[test]
fn metadata_are_read(rt: HostRuntime) -> Result<(), Fail> {
    let otherwise = lines_otherwise(rt.alloc(), Reading::Metadata, METADATA)?;
    assert_eq!(rt; otherwise.as_str(), "");
    Ok(())
}

#[test]
fn manifests_tell_their_identifier_and_checksums(rt: HostRuntime) -> Result<(), Fail> {
    let otherwise = lines_otherwise(rt.alloc(), Reading::Sums, SUMS)?;
    assert_eq!(rt; otherwise.as_str(), "");
    Ok(())
}
