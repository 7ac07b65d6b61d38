//! What no clause says: that the calls succeed, that images have the documented form, and what comes after a fault.
ghost use Rattle.std.specs.Prelude.{IfOk, IsTrue};
ghost use Rattle.host_tree.specs.Acts.{CanWrite, CanMake, CanSetMode, CanRemove};

use doc_tree::{NoMemory, Text, json_text, read_json};
use host_tree::{
    Caps, Entry, FaultyHost, Host, HostFault, ImageFault, ImageHost, Mode, Path, Seen,
};
use std::alloc::Global;
use std::test::Fail;

// Images, and what reading and writing them tells: the image again with its keys in order, or the first bad path.
const IMAGES: &str = r#"{} => {}
{"/srv":{"mode":"0755","type":"directory"},"/srv/a":{"content":"x","mode":"0644","type":"file"},"/srv/l":{"to":"a","type":"link"}} => {"/srv":{"mode":"0755","type":"directory"},"/srv/a":{"content":"x","mode":"0644","type":"file"},"/srv/l":{"to":"a","type":"link"}}
{"/f":{"type":"file","mode":"7777","content":"é"},"/e":{"type":"link","to":""}} => {"/e":{"to":"","type":"link"},"/f":{"content":"é","mode":"7777","type":"file"}}
{"/d/x":{"content":"","mode":"0000","type":"file"},"/d-x":{"mode":"0012","type":"directory"},"/d":{"mode":"0700","type":"directory"}} => {"/d":{"mode":"0700","type":"directory"},"/d-x":{"mode":"0012","type":"directory"},"/d/x":{"content":"","mode":"0000","type":"file"}}
[] => bad image at <>
{"/d":{"content":"","mode":"0644","type":"file"},"/d/x":{"content":"","mode":"0644","type":"file"}} => bad image at </d/x>
{"/l":{"to":"d","type":"link"},"/l/x":{"to":"y","type":"link"}} => bad image at </l/x>
{"/p/q":{"mode":"0755","type":"directory"}} => bad image at </p/q>
{"/b":null,"/a":{"to":"x","type":"link"},"/c":null} => bad image at </b>
{"/":{"mode":"0755","type":"directory"}} => bad image at </>
{"d":{"mode":"0755","type":"directory"}} => bad image at <d>
{"/d/":{"mode":"0755","type":"directory"}} => bad image at </d/>
{"/..":{"mode":"0755","type":"directory"}} => bad image at </..>
{"/d":{"mode":"755","type":"directory"}} => bad image at </d>
{"/d":{"mode":"00755","type":"directory"}} => bad image at </d>
{"/d":{"mode":"0758","type":"directory"}} => bad image at </d>
{"/d":{"mode":493,"type":"directory"}} => bad image at </d>
{"/d":{"mode":"0755","type":"folder"}} => bad image at </d>
{"/d":{"content":"","mode":"0755","type":"directory"}} => bad image at </d>
{"/f":{"content":"","mode":"0644","owner":"a","type":"file"}} => bad image at </f>
{"/f":{"content":1,"mode":"0644","type":"file"}} => bad image at </f>
{"/f":{"content":"","type":"file"}} => bad image at </f>
{"/l":{"to":null,"type":"link"}} => bad image at </l>"#;

fn read_text(alloc: Global, json: &str) -> Result<ImageHost, ImageFault> {
    match read_json(alloc, json.as_bytes()) {
        Ok(tree) => ImageHost::read(alloc, &tree),
        Err(_) => Err(ImageFault::NoMemory),
    }
}

// The image of a host as JSON.
fn image_text(alloc: Global, host: &ImageHost) -> Result<String, Fail> {
    let tree = host.image(alloc)?;
    let text = json_text(alloc, &tree)?;
    Ok(String::from_utf8_lossy(alloc, text.as_slice())?)
}

fn told(alloc: Global, json: &str) -> Result<String, Fail> {
    match read_text(alloc, json) {
        Ok(host) => image_text(alloc, &host),
        Err(ImageFault::BadImage(path)) => Ok(format!(in alloc; "bad image at <{path}>")?),
        Err(ImageFault::NoMemory) => Ok(String::from_str(alloc, "out of memory")?),
    }
}

#[test]
fn images_are_read_and_written(rt: HostRuntime) -> Result<(), Fail> {
    for line in IMAGES.lines() {
        let (json, expected) = line.split_once(" => ").ok_or("a row")?;
        let told = told(rt.alloc(), json)?;
        assert_eq!(rt; told.as_str(), expected, "from {json}");
    }
    Ok(())
}

fn can_write(host: &ImageHost, alloc: Global, path: &Path) -> Result<bool, NoMemory>
    ensures { IfOk result (λ can. IsTrue can → CanWrite host.now path.now) }
{
    let reached = host.reaches(alloc, path)?;
    match host.held(path.as_text()) {
        None
        | Some(
            Entry::File {
                content: _,
                mode: _,
            },
        ) => Ok(reached),
        Some(_) => Ok(false),
    }
}

fn can_make(host: &ImageHost, alloc: Global, path: &Path) -> Result<bool, NoMemory>
    ensures { IfOk result (λ can. IsTrue can → CanMake host.now path.now) }
{
    let reached = host.reaches(alloc, path)?;
    match host.held(path.as_text()) {
        None => Ok(reached),
        Some(_) => Ok(false),
    }
}

fn can_set_mode(host: &ImageHost, alloc: Global, path: &Path) -> Result<bool, NoMemory>
    ensures { IfOk result (λ can. IsTrue can → CanSetMode host.now path.now) }
{
    let reached = host.reaches(alloc, path)?;
    match host.held(path.as_text()) {
        Some(
            Entry::File {
                content: _,
                mode: _,
            },
        ) => Ok(reached),
        Some(Entry::Directory { mode: _ }) => Ok(reached),
        _ => Ok(false),
    }
}

fn can_remove(host: &ImageHost, alloc: Global, path: &Path) -> Result<bool, NoMemory>
    ensures { IfOk result (λ can. IsTrue can → CanRemove host.now path.now) }
{
    let reached = host.reaches(alloc, path)?;
    match host.held(path.as_text()) {
        Some(_) => Ok(reached),
        None => Ok(false),
    }
}

// What a change answers.
fn answer(done: Result<(), HostFault>) -> &'static str {
    match done {
        Ok(()) => "done",
        Err(HostFault::Failed) => "failed",
        Err(HostFault::NoMemory) => "out of memory",
    }
}

// Makes the change that a word names, where it fits the host.
fn change(
    alloc: Global,
    host: &mut FaultyHost,
    word: &str,
    path: &Path,
    text: &Text,
) -> Result<&'static str, Fail> {
    let caps = host.caps();
    if word == "write_file" && can_write(host.image_host(), alloc, path)? {
        return Ok(answer(host.write_file(alloc, path, text)));
    }
    if word == "make_dir" && can_make(host.image_host(), alloc, path)? {
        return Ok(answer(host.make_dir(alloc, path)));
    }
    if word == "make_link" && caps.links && can_make(host.image_host(), alloc, path)? {
        return Ok(answer(host.make_link(alloc, path, text)));
    }
    if word == "set_mode" && caps.modes && can_set_mode(host.image_host(), alloc, path)? {
        return Ok(answer(host.set_mode(alloc, path, Mode::known(0o600))));
    }
    if word == "remove" && can_remove(host.image_host(), alloc, path)? {
        return Ok(answer(host.remove(alloc, path)));
    }
    Ok("doesn't fit")
}

fn seen_text(alloc: Global, seen: Seen) -> Result<String, Fail> {
    match seen {
        Seen::Absent => Ok(String::from_str(alloc, "nothing")?),
        Seen::FileThere { content, mode } => {
            let text = String::from_utf8_lossy(alloc, content.as_slice())?;
            Ok(format!(in alloc; "file {} {}", mode.bits(), text)?)
        }
        Seen::FolderThere { mode, empty } => {
            Ok(format!(in alloc; "directory {} {}", mode.bits(), empty)?)
        }
        Seen::LinkThere { to } => Ok(format!(in alloc; "link {to}")?),
    }
}

// What a call answers: `WORD PATH TEXT`.
fn act(alloc: Global, host: &mut FaultyHost, line: &str) -> Result<String, Fail> {
    let (word, rest) = line.split_once(" ").ok_or("a word")?;
    let (path, text) = rest.split_once(" ").ok_or("a path")?;
    let path = Path::of(Text::from_str(alloc, path)?).ok_or("a normal path")?;
    if word == "look" {
        return match host.look(alloc, &path) {
            Ok(seen) => seen_text(alloc, seen),
            Err(fault) => Ok(fault.to_string(alloc)?),
        };
    }
    let text = Text::from_str(alloc, text)?;
    Ok(String::from_str(alloc, change(alloc, host, word, &path, &text)?)?)
}

// Calls, one after another on a host without entries, and what each answers.
const CALLS: &str = "look /d  => nothing
make_dir /d  => done
look /d  => directory 493 true
write_file /d/x abc => done
look /d  => directory 493 false
look /d/x  => file 420 abc
set_mode /d/x  => done
look /d/x  => file 384 abc
write_file /d/x z => done
look /d/x  => file 384 z
set_mode /d  => done
look /d  => directory 384 false
make_link /l /d => done
look /l  => link /d
look /l/x  => nothing
write_file /l/y y => doesn't fit
write_file /d-x y => done
make_dir /p/q  => doesn't fit
make_dir /d  => doesn't fit
remove /d  => done
look /d/x  => nothing
look /d-x  => file 420 y
remove /l  => done
remove /l  => doesn't fit";

#[test]
fn changes_are_seen(rt: HostRuntime) -> Result<(), Fail> {
    let alloc = rt.alloc();
    let caps = Caps {
        links: true,
        modes: true,
    };
    let mut host = FaultyHost::over(ImageHost::new(alloc), caps, Vec::new(alloc));
    for line in CALLS.lines() {
        let (call, expected) = line.split_once(" => ").ok_or("a row")?;
        let told = act(alloc, &mut host, call)?;
        assert_eq!(rt; told.as_str(), expected, "from {call}");
    }
    let left = image_text(alloc, host.image_host())?;
    assert_eq!(rt;
        left.as_str(),
        r#"{"/d-x":{"content":"y","mode":"0644","type":"file"}}"#
    );
    Ok(())
}

const BEFORE: &str =
    r#"{"/d":{"mode":"0755","type":"directory"},"/d/x":{"content":"","mode":"0644","type":"file"},"/f":{"content":"a","mode":"0644","type":"file"}}"#;

// Calls of which any can fail and the others still fit.
const FAILING: &str = "look /f 
write_file /f b
make_dir /e 
make_link /l f
set_mode /f 
remove /d ";

// What the calls answer where the one with this number fails, a letter for each, and what is left.
fn with_failing(alloc: Global, number: u64) -> Result<String, Fail> {
    let caps = Caps {
        links: true,
        modes: true,
    };
    let host = read_text(alloc, BEFORE).ok().ok_or("an image")?;
    let mut host = FaultyHost::over(host, caps, vec![in alloc; number]?);
    let mut told = String::new(alloc);
    for call in FAILING.lines() {
        let answer = act(alloc, &mut host, call)?;
        told.push_str(answer.as_str())?;
        told.push(';')?;
    }
    let image = host.into_image_host();
    told.push_str(image_text(alloc, &image)?.as_str())?;
    Ok(told)
}

const FAILED: &str =
    r#"host fault;done;done;done;done;done;{"/e":{"mode":"0755","type":"directory"},"/f":{"content":"b","mode":"0600","type":"file"},"/l":{"to":"f","type":"link"}}
file 420 a;failed;done;done;done;done;{"/e":{"mode":"0755","type":"directory"},"/f":{"content":"a","mode":"0600","type":"file"},"/l":{"to":"f","type":"link"}}
file 420 a;done;failed;done;done;done;{"/f":{"content":"b","mode":"0600","type":"file"},"/l":{"to":"f","type":"link"}}
file 420 a;done;done;failed;done;done;{"/e":{"mode":"0755","type":"directory"},"/f":{"content":"b","mode":"0600","type":"file"}}
file 420 a;done;done;done;failed;done;{"/e":{"mode":"0755","type":"directory"},"/f":{"content":"b","mode":"0644","type":"file"},"/l":{"to":"f","type":"link"}}
file 420 a;done;done;done;done;failed;{"/d":{"mode":"0755","type":"directory"},"/d/x":{"content":"","mode":"0644","type":"file"},"/e":{"mode":"0755","type":"directory"},"/f":{"content":"b","mode":"0600","type":"file"},"/l":{"to":"f","type":"link"}}
file 420 a;done;done;done;done;done;{"/e":{"mode":"0755","type":"directory"},"/f":{"content":"b","mode":"0600","type":"file"},"/l":{"to":"f","type":"link"}}"#;

#[test]
fn each_call_can_fail_alone(rt: HostRuntime) -> Result<(), Fail> {
    for (place, expected) in FAILED.lines().enumerate() {
        let number = (place as u64).saturating_add(1);
        let told = with_failing(rt.alloc(), number)?;
        assert_eq!(rt; told.as_str(), expected, "with {number}");
    }
    Ok(())
}
