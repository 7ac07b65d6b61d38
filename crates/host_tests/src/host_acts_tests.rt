//! Each cell of the table of acts, over a host in memory.
use doc_tree::{Fields, NoMemory, Text, Tree, json_text, read_json};
use host_acts::*;
use host_tree::{Caps, FaultyHost, Host, HostFault, ImageFault, ImageHost, Mode, Path};
use resource_core::{Action, Actions, Entries, Resource, ResourceType};
use std::alloc::{AllocError, Global};
use std::test::Fail;

// An image, an act, what it comes to, and the image that it leaves.
const CASES: &str =
    r#"{} | {"type":"file","do":"create","path":"/f"} => updated | {"/f":{"content":"","mode":"0644","type":"file"}}
{} | {"type":"file","do":"create","path":"/f","content":"x","mode":384} => updated | {"/f":{"content":"x","mode":"0600","type":"file"}}
{"/f":{"content":"x","mode":"0600","type":"file"}} | {"type":"file","do":"create","path":"/f","content":"x"} => up to date | {"/f":{"content":"x","mode":"0600","type":"file"}}
{"/f":{"content":"x","mode":"0600","type":"file"}} | {"type":"file","do":"create","path":"/f","content":"y"} => updated | {"/f":{"content":"y","mode":"0600","type":"file"}}
{"/f":{"content":"x","mode":"0600","type":"file"}} | {"type":"file","do":"create","path":"/f","mode":420} => updated | {"/f":{"content":"x","mode":"0644","type":"file"}}
{"/f":{"mode":"0755","type":"directory"}} | {"type":"file","do":"create","path":"/f","force_unlink":true} => NotAFile | {"/f":{"mode":"0755","type":"directory"}}
{"/f":{"to":"a","type":"link"}} | {"type":"file","do":"create","path":"/f"} => NotAFile | {"/f":{"to":"a","type":"link"}}
{"/f":{"to":"a","type":"link"}} | {"type":"file","do":"create","path":"/f","content":"x","force_unlink":true} => updated | {"/f":{"content":"x","mode":"0644","type":"file"}}
{} | {"type":"file","do":"create","path":"/p/f"} => ParentMissing | {}
{"/p":{"content":"","mode":"0644","type":"file"}} | {"type":"file","do":"create","path":"/p/f"} => NotADirectory | {"/p":{"content":"","mode":"0644","type":"file"}}
{"/p":{"to":"/d","type":"link"}} | {"type":"file","do":"create","path":"/p/f"} => LinkInPath | {"/p":{"to":"/d","type":"link"}}
{"/p":{"mode":"0700","type":"directory"}} | {"type":"file","do":"create","path":"/p/f"} => updated | {"/p":{"mode":"0700","type":"directory"},"/p/f":{"content":"","mode":"0644","type":"file"}}
{} | {"type":"file","do":"create_if_missing","path":"/f","content":"x","mode":384} => updated | {"/f":{"content":"x","mode":"0600","type":"file"}}
{"/f":{"content":"y","mode":"0644","type":"file"}} | {"type":"file","do":"create_if_missing","path":"/f","content":"x","mode":384} => up to date | {"/f":{"content":"y","mode":"0644","type":"file"}}
{"/f":{"mode":"0755","type":"directory"}} | {"type":"file","do":"create_if_missing","path":"/f"} => NotAFile | {"/f":{"mode":"0755","type":"directory"}}
{"/f":{"to":"a","type":"link"}} | {"type":"file","do":"create_if_missing","path":"/f","force_unlink":true} => NotAFile | {"/f":{"to":"a","type":"link"}}
{} | {"type":"file","do":"delete","path":"/f"} => up to date | {}
{"/f":{"content":"x","mode":"0644","type":"file"},"/f-x":{"to":"a","type":"link"}} | {"type":"file","do":"delete","path":"/f"} => updated | {"/f-x":{"to":"a","type":"link"}}
{"/f":{"mode":"0755","type":"directory"}} | {"type":"file","do":"delete","path":"/f"} => NotAFile | {"/f":{"mode":"0755","type":"directory"}}
{"/f":{"to":"a","type":"link"}} | {"type":"file","do":"delete","path":"/f"} => updated | {}
{} | {"type":"file","do":"delete","path":"/p/q/f"} => up to date | {}
{"/p":{"content":"","mode":"0644","type":"file"}} | {"type":"file","do":"delete","path":"/p/f"} => up to date | {"/p":{"content":"","mode":"0644","type":"file"}}
{"/p":{"to":"/d","type":"link"}} | {"type":"file","do":"delete","path":"/p/q/f"} => LinkInPath | {"/p":{"to":"/d","type":"link"}}
{} | {"type":"directory","do":"create","path":"/d"} => updated | {"/d":{"mode":"0755","type":"directory"}}
{} | {"type":"directory","do":"create","path":"/d","mode":448} => updated | {"/d":{"mode":"0700","type":"directory"}}
{"/d":{"content":"","mode":"0644","type":"file"}} | {"type":"directory","do":"create","path":"/d"} => NotADirectory | {"/d":{"content":"","mode":"0644","type":"file"}}
{"/d":{"mode":"0700","type":"directory"}} | {"type":"directory","do":"create","path":"/d"} => up to date | {"/d":{"mode":"0700","type":"directory"}}
{"/d":{"mode":"0700","type":"directory"}} | {"type":"directory","do":"create","path":"/d","mode":493} => updated | {"/d":{"mode":"0755","type":"directory"}}
{"/d":{"to":"a","type":"link"}} | {"type":"directory","do":"create","path":"/d"} => NotADirectory | {"/d":{"to":"a","type":"link"}}
{} | {"type":"directory","do":"create","path":"/p/q"} => ParentMissing | {}
{} | {"type":"directory","do":"create","path":"/p/q","recursive":true,"mode":448} => updated | {"/p":{"mode":"0755","type":"directory"},"/p/q":{"mode":"0700","type":"directory"}}
{"/p":{"mode":"0700","type":"directory"}} | {"type":"directory","do":"create","path":"/p/q/r/s","recursive":true} => updated | {"/p":{"mode":"0700","type":"directory"},"/p/q":{"mode":"0755","type":"directory"},"/p/q/r":{"mode":"0755","type":"directory"},"/p/q/r/s":{"mode":"0755","type":"directory"}}
{"/p":{"content":"","mode":"0644","type":"file"}} | {"type":"directory","do":"create","path":"/p/q/r","recursive":true} => NotADirectory | {"/p":{"content":"","mode":"0644","type":"file"}}
{"/p":{"to":"/d","type":"link"}} | {"type":"directory","do":"create","path":"/p/q/r","recursive":true} => LinkInPath | {"/p":{"to":"/d","type":"link"}}
{} | {"type":"directory","do":"delete","path":"/d"} => up to date | {}
{"/d":{"content":"","mode":"0644","type":"file"}} | {"type":"directory","do":"delete","path":"/d","recursive":true} => NotADirectory | {"/d":{"content":"","mode":"0644","type":"file"}}
{"/d":{"mode":"0755","type":"directory"},"/d-x":{"to":"a","type":"link"}} | {"type":"directory","do":"delete","path":"/d"} => updated | {"/d-x":{"to":"a","type":"link"}}
{"/d":{"mode":"0755","type":"directory"},"/d/e":{"mode":"0755","type":"directory"}} | {"type":"directory","do":"delete","path":"/d"} => NotEmpty | {"/d":{"mode":"0755","type":"directory"},"/d/e":{"mode":"0755","type":"directory"}}
{"/d":{"mode":"0755","type":"directory"},"/d/e":{"mode":"0755","type":"directory"},"/d/e/f":{"content":"","mode":"0644","type":"file"}} | {"type":"directory","do":"delete","path":"/d","recursive":true} => updated | {}
{"/d":{"to":"a","type":"link"}} | {"type":"directory","do":"delete","path":"/d"} => NotADirectory | {"/d":{"to":"a","type":"link"}}
{"/p":{"to":"/d","type":"link"}} | {"type":"directory","do":"delete","path":"/p/d"} => LinkInPath | {"/p":{"to":"/d","type":"link"}}
{} | {"type":"link","do":"create","path":"/l","to":"a"} => updated | {"/l":{"to":"a","type":"link"}}
{"/l":{"content":"","mode":"0644","type":"file"}} | {"type":"link","do":"create","path":"/l","to":"a"} => NotALink | {"/l":{"content":"","mode":"0644","type":"file"}}
{"/l":{"mode":"0755","type":"directory"}} | {"type":"link","do":"create","path":"/l","to":"a"} => NotALink | {"/l":{"mode":"0755","type":"directory"}}
{"/l":{"to":"a","type":"link"}} | {"type":"link","do":"create","path":"/l","to":"a"} => up to date | {"/l":{"to":"a","type":"link"}}
{"/l":{"to":"b","type":"link"}} | {"type":"link","do":"create","path":"/l","to":"a"} => updated | {"/l":{"to":"a","type":"link"}}
{} | {"type":"link","do":"create","path":"/p/l","to":"a"} => ParentMissing | {}
{} | {"type":"link","do":"create","path":"/l"} => nothing | {}
{} | {"type":"link","do":"delete","path":"/l"} => up to date | {}
{"/l":{"content":"","mode":"0644","type":"file"}} | {"type":"link","do":"delete","path":"/l"} => NotALink | {"/l":{"content":"","mode":"0644","type":"file"}}
{"/l":{"mode":"0755","type":"directory"}} | {"type":"link","do":"delete","path":"/l"} => NotALink | {"/l":{"mode":"0755","type":"directory"}}
{"/l":{"to":"a","type":"link"}} | {"type":"link","do":"delete","path":"/l"} => updated | {}
{"/l":{"to":"/d","type":"link"}} | {"type":"link","do":"delete","path":"/l/z"} => LinkInPath | {"/l":{"to":"/d","type":"link"}}
{"/l":{"to":"a","type":"link"}} | {"type":"link","do":"nothing","path":"/l"} => nothing | {"/l":{"to":"a","type":"link"}}
"#;

fn words_at(alloc: Global, fields: &Fields, key: &str) -> Result<Option<Text>, NoMemory> {
    match fields.get(key) {
        Some(Tree::Words(text)) => Ok(Some(text.copy(alloc)?)),
        _ => Ok(None),
    }
}

fn truth_at(fields: &Fields, key: &str) -> bool {
    matches!(fields.get(key), Some(Tree::Bool(true)))
}

fn mode_at(fields: &Fields) -> Option<Mode> {
    match fields.get("mode") {
        Some(Tree::Whole(number)) => Mode::of(u16::try_from(number.value()).unwrap_or(u16::MAX)),
        _ => None,
    }
}

fn kind_at(fields: &Fields) -> ResourceType {
    match fields.get("type") {
        Some(Tree::Words(word)) if word.as_str() == "directory" => ResourceType::Directory,
        Some(Tree::Words(word)) if word.as_str() == "link" => ResourceType::Link,
        _ => ResourceType::File,
    }
}

fn action_at(fields: &Fields) -> Option<Action> {
    match fields.get("do") {
        Some(Tree::Words(word)) => kind_at(fields).action_named(word.as_str()),
        _ => None,
    }
}

fn path_at(alloc: Global, fields: &Fields) -> Result<Option<Path>, NoMemory> {
    match words_at(alloc, fields, "path")? {
        Some(text) => Ok(Path::of(text)),
        None => Ok(None),
    }
}

// The resource that these fields state.
fn resource_of(alloc: Global, fields: &Fields, path: Path) -> Result<Resource, NoMemory> {
    Ok(Resource {
        kind: kind_at(fields),
        name: Text::from_str(alloc, "name")?,
        path,
        actions: Actions::new(alloc),
        content: words_at(alloc, fields, "content")?,
        mode: mode_at(fields),
        to: words_at(alloc, fields, "to")?,
        force_unlink: truth_at(fields, "force_unlink"),
        recursive: truth_at(fields, "recursive"),
        notifies: Entries::new(alloc),
        subscribes: Entries::new(alloc),
    })
}

fn word_of(verdict: Option<Verdict>) -> &'static str {
    match verdict {
        None => "nothing",
        Some(Verdict::UpToDate) => "up to date",
        Some(Verdict::Updated) => "updated",
        Some(Verdict::Failed(cause)) => cause.word(),
    }
}

// What an act comes to.
fn acted<H: Host>(
    alloc: Global,
    resource: &Resource,
    action: Action,
    host: &mut H,
) -> &'static str {
    let needs = needs_of(resource, action);
    let offers = host.caps();
    if (needs.links && !offers.links) || (needs.modes && !offers.modes) {
        return "lacks what it needs";
    }
    match perform(alloc, resource, action, host) {
        Ok(verdict) => word_of(verdict),
        Err(HostFault::Failed) => "fault",
        Err(HostFault::NoMemory) => "out of memory",
    }
}

// What the act that these fields state comes to.
fn act_told<H: Host>(
    alloc: Global,
    fields: &Fields,
    host: &mut H,
) -> Result<&'static str, NoMemory> {
    match path_at(alloc, fields)? {
        Some(path) => {
            let resource = resource_of(alloc, fields, path)?;
            match action_at(fields) {
                Some(action) => Ok(acted(alloc, &resource, action, host)),
                None => Ok("no action"),
            }
        }
        None => Ok("no path"),
    }
}

// What an act of JSON comes to.
fn line_told<H: Host>(alloc: Global, act: &str, host: &mut H) -> Result<&'static str, Fail> {
    match read_json(alloc, act.as_bytes())? {
        Tree::Dict(fields) => Ok(act_told(alloc, &fields, host)?),
        _ => Ok("no act"),
    }
}

fn image_text(alloc: Global, host: &ImageHost) -> Result<String, NoMemory> {
    let bytes = json_text(alloc, &host.image(alloc)?)?;
    Ok(String::from_utf8_lossy(alloc, bytes.as_slice())?)
}

fn host_of(alloc: Global, image: &str) -> Result<ImageHost, Fail> {
    let tree = read_json(alloc, image.as_bytes())?;
    match ImageHost::read(alloc, &tree) {
        Ok(host) => Ok(host),
        Err(ImageFault::BadImage(_)) => Ok(ImageHost::new(alloc)),
        Err(ImageFault::NoMemory) => Ok(ImageHost::new(alloc)),
    }
}

// A line, as its act is performed.
fn case_told(alloc: Global, line: &str) -> Result<String, Fail> {
    let (before, _) = line.split_once(" => ").unwrap_or((line, ""));
    let (image, act) = before.split_once(" | ").unwrap_or((before, ""));
    let mut host = host_of(alloc, image)?;
    let told = line_told(alloc, act, &mut host)?;
    let after = image_text(alloc, &host)?;
    Ok(format!(in alloc; "{before} => {told} | {after}")?)
}

// The lines whose acts are performed otherwise.
fn lines_otherwise(alloc: Global, lines: &str) -> Result<String, Fail> {
    let mut otherwise = String::new(alloc);
    for line in lines.lines() {
        let told = case_told(alloc, line)?;
        if told.as_str() != line {
            otherwise.push_str(told.as_str())?;
            otherwise.push_str("\n")?;
        }
    }
    Ok(otherwise)
}

#[test]
fn each_cell_of_the_table_of_acts(rt: HostRuntime) -> Result<(), Fail> {
    let otherwise = lines_otherwise(rt.alloc(), CASES)?;
    assert_eq!(rt; otherwise.as_str(), "");
    Ok(())
}

fn failing_at(alloc: Global, call: u64) -> Result<Vec<u64>, AllocError> {
    let mut failing = Vec::new(alloc);
    failing.push(call)?;
    Ok(failing)
}

// What a recursive act comes to over an empty host that fails at a call, and the image that it leaves.
fn faulty_told(alloc: Global, call: u64, caps: Caps) -> Result<String, Fail> {
    let act = r#"{"type":"directory","do":"create","path":"/p/q/r","recursive":true,"mode":448}"#;
    let mut host = FaultyHost::over(ImageHost::new(alloc), caps, failing_at(alloc, call)?);
    let told = line_told(alloc, act, &mut host)?;
    let after = image_text(alloc, host.image_host())?;
    Ok(format!(in alloc; "{told} {after}")?)
}

#[test]
fn a_fault_leaves_the_parents_that_were_made(rt: HostRuntime) -> Result<(), Fail> {
    let caps = Caps {
        links: false,
        modes: true,
    };
    let told = faulty_told(rt.alloc(), 3, caps)?;
    assert_eq!(rt;
        told.as_str(),
        r#"fault {"/p":{"mode":"0755","type":"directory"}}"#
    );
    Ok(())
}

#[test]
fn a_stated_mode_needs_modes(rt: HostRuntime) -> Result<(), Fail> {
    let caps = Caps {
        links: true,
        modes: false,
    };
    let told = faulty_told(rt.alloc(), 3, caps)?;
    assert_eq!(rt; told.as_str(), "lacks what it needs {}");
    Ok(())
}
