//! Plans with the images that they are run over, twice, and what they come to.
use attr_merge::{Layer, Merged, are_layers, merge};
use converge::*;
use doc_tree::{NoMemory, json_text, read_json};
use host_tree::{Caps, FaultyHost, Host, ImageHost};
use resource_core::{Recipes, RunPlan, are_recipes, compile};
use std::alloc::{AllocError, Global};
use std::test::Fail;

// The resources of a plan, an image, and what two runs come to: each with its report and its outcome, and the image
// after the first.
const CASES: &str = r#"[] | {} => 0 actions, 0 updated; done | {} | 0 actions, 0 updated; done
[{"type":"file","name":"/d/x","action":"delete"},{"type":"directory","name":"/d","action":"delete"}] | {"/d":{"mode":"0755","type":"directory"},"/d/x":{"content":"","mode":"0644","type":"file"}} => file[/d/x] delete: updated; directory[/d] delete: updated; 2 actions, 2 updated; done | {} | file[/d/x] delete: up to date; directory[/d] delete: up to date; 2 actions, 0 updated; done
[{"type":"directory","name":"/p/q"}] | {} => directory[/p/q] create: failed: ParentMissing; failed 0 0 ParentMissing | {} | directory[/p/q] create: failed: ParentMissing; failed 0 0 ParentMissing
[{"type":"directory","name":"/p/q","recursive":true}] | {} => directory[/p/q] create: updated; 1 actions, 1 updated; done | {"/p":{"mode":"0755","type":"directory"},"/p/q":{"mode":"0755","type":"directory"}} | directory[/p/q] create: up to date; 1 actions, 0 updated; done
[{"type":"file","name":"/f","mode":"0600"},{"type":"file","name":"/f","content":"z"}] | {} => file[/f] create: updated; file[/f] create: updated; 2 actions, 2 updated; done | {"/f":{"content":"z","mode":"0600","type":"file"}} | file[/f] create: up to date; file[/f] create: up to date; 2 actions, 0 updated; done
[{"type":"directory","name":"/srv","notifies":[{"action":"create","resource":"file[/srv/b]","timer":"delayed"}]},{"type":"file","name":"/srv/b","content":"y","action":"nothing"},{"type":"directory","name":"/p/q"},{"type":"file","name":"/srv/c"}] | {} => directory[/srv] create: updated; directory[/p/q] create: failed: ParentMissing; file[/srv/b] create: updated; failed 2 0 ParentMissing | {"/srv":{"mode":"0755","type":"directory"},"/srv/b":{"content":"y","mode":"0644","type":"file"}} | directory[/srv] create: up to date; directory[/p/q] create: failed: ParentMissing; failed 2 0 ParentMissing
[{"type":"file","name":"/srv/l/z"}] | {"/srv":{"mode":"0755","type":"directory"},"/srv/l":{"to":"a","type":"link"}} => file[/srv/l/z] create: failed: LinkInPath; failed 0 0 LinkInPath | {"/srv":{"mode":"0755","type":"directory"},"/srv/l":{"to":"a","type":"link"}} | file[/srv/l/z] create: failed: LinkInPath; failed 0 0 LinkInPath
[{"type":"file","name":"one","path":"/f","content":"1"},{"type":"file","name":"two","path":"/f","content":"2"}] | {} => file[one] create: updated; file[two] create: updated; 2 actions, 2 updated; done | {"/f":{"content":"2","mode":"0644","type":"file"}} | file[one] create: updated; file[two] create: updated; 2 actions, 2 updated; done
[{"type":"file","name":"/a","notifies":[{"action":"create","resource":"file[/b]"},{"action":"create","resource":"file[/c]"}]},{"type":"file","name":"/b","action":"nothing","notifies":[{"action":"create","resource":"file[/c]"},{"action":"create","resource":"file[/d]"}]},{"type":"file","name":"/c","action":"nothing"},{"type":"file","name":"/d","action":"nothing"}] | {} => file[/a] create: updated; file[/b] create: updated; file[/c] create: updated; file[/d] create: updated; 4 actions, 4 updated; done | {"/a":{"content":"","mode":"0644","type":"file"},"/b":{"content":"","mode":"0644","type":"file"},"/c":{"content":"","mode":"0644","type":"file"},"/d":{"content":"","mode":"0644","type":"file"}} | file[/a] create: up to date; 1 actions, 0 updated; done
[{"type":"file","name":"/a","notifies":[{"action":"create","resource":"file[/c]","timer":"immediately"}]},{"type":"file","name":"/b","action":"nothing","subscribes":[{"action":"create","resource":"file[/a]","timer":"immediately"}]},{"type":"file","name":"/c","action":"nothing"}] | {} => file[/a] create: updated; file[/c] create: updated; file[/b] create: updated; 3 actions, 3 updated; done | {"/a":{"content":"","mode":"0644","type":"file"},"/b":{"content":"","mode":"0644","type":"file"},"/c":{"content":"","mode":"0644","type":"file"}} | file[/a] create: up to date; 1 actions, 0 updated; done
[{"type":"file","name":"/a","notifies":[{"action":"delete","resource":"file[/d]","timer":"immediately"},{"action":"create","resource":"file[/b]","timer":"immediately"}]},{"type":"file","name":"/b","action":"nothing"},{"type":"file","name":"/d","action":"nothing"}] | {"/d":{"mode":"0755","type":"directory"}} => file[/a] create: updated; file[/d] delete: failed: NotAFile; failed 2 2 NotAFile | {"/a":{"content":"","mode":"0644","type":"file"},"/d":{"mode":"0755","type":"directory"}} | file[/a] create: up to date; 1 actions, 0 updated; done
"#;

// The worked plan: what is fired at once and later, on a file, a directory and a link.
const WORKED: &str =
    r#"[{"type":"directory","name":"/srv","notifies":[{"action":"create","resource":"file[/srv/b]","timer":"delayed"}]},{"type":"file","name":"/srv/a","content":"x","notifies":[{"action":"create","resource":"link[/srv/l]","timer":"immediately"},{"action":"create","resource":"file[/srv/b]","timer":"delayed"}]},{"type":"link","name":"/srv/l","to":"a","action":"nothing"},{"type":"file","name":"/srv/b","content":"y","action":"nothing"}]"#;

const WORKED_TOLD: &str =
    r#"directory[/srv] create: updated; file[/srv/a] create: updated; link[/srv/l] create: updated; file[/srv/b] create: updated; 4 actions, 4 updated; done | {"/srv":{"mode":"0755","type":"directory"},"/srv/a":{"content":"x","mode":"0644","type":"file"},"/srv/b":{"content":"y","mode":"0644","type":"file"},"/srv/l":{"to":"a","type":"link"}} | directory[/srv] create: up to date; file[/srv/a] create: up to date; 2 actions, 0 updated; done"#;

// Attributes of no layer.
fn merged(alloc: Global) -> Result<Merged, Fail> {
    let layers: Vec<Layer> = Vec::new(alloc);
    let merged = if are_layers(&layers) {
        merge(alloc, &layers).ok()
    } else {
        None
    };
    Ok(merged.ok_or("layers")?)
}

// The plan of these resources.
fn plan_of(alloc: Global, resources: &str) -> Result<RunPlan, Fail> {
    let text = format!(in alloc; "{{\"resources\":{resources}}}")?;
    let mut recipes = Recipes::new(alloc);
    recipes.push(read_json(alloc, text.as_bytes())?)?;
    let merged = merged(alloc)?;
    let plan = if are_recipes(&recipes) {
        compile(alloc, &recipes, &merged).ok()
    } else {
        None
    };
    Ok(plan.ok_or("a plan")?)
}

fn host_of(alloc: Global, image: &str) -> Result<ImageHost, Fail> {
    let tree = read_json(alloc, image.as_bytes())?;
    Ok(ImageHost::read(alloc, &tree).ok().ok_or("an image")?)
}

fn image_text(alloc: Global, host: &ImageHost) -> Result<String, NoMemory> {
    let bytes = json_text(alloc, &host.image(alloc)?)?;
    Ok(String::from_utf8_lossy(alloc, bytes.as_slice())?)
}

fn report_told(alloc: Global, report: &Report, end: &str) -> Result<String, AllocError> {
    let mut told = String::new(alloc);
    for line in report.lines.as_slice() {
        told.push_str(line.as_str())?;
        told.push_str("; ")?;
    }
    told.push_str(end)?;
    Ok(told)
}

fn outcome_told(alloc: Global, outcome: Outcome) -> Result<String, AllocError> {
    match outcome {
        Outcome::Done(report) => report_told(alloc, &report, "done"),
        Outcome::Failed {
            resource,
            action,
            cause,
            report,
        } => {
            let end = format!(in alloc; "failed {resource} {action} {}", cause.word())?;
            report_told(alloc, &report, end.as_str())
        }
        Outcome::HostFault(report) => report_told(alloc, &report, "fault"),
        Outcome::LacksCap(Cap::Links) => String::from_str(alloc, "lacks links"),
        Outcome::LacksCap(Cap::Modes) => String::from_str(alloc, "lacks modes"),
        Outcome::NoMemory => String::from_str(alloc, "out of memory"),
    }
}

// A plan that is run.
fn run_told<H: Host>(alloc: Global, plan: &RunPlan, host: &mut H) -> Result<String, AllocError> {
    outcome_told(alloc, converge(alloc, plan, host))
}

// A plan that is run twice over an image.
fn twice_told(alloc: Global, resources: &str, image: &str) -> Result<String, Fail> {
    let plan = plan_of(alloc, resources)?;
    let mut host = host_of(alloc, image)?;
    let first = run_told(alloc, &plan, &mut host)?;
    let between = image_text(alloc, &host)?;
    let second = run_told(alloc, &plan, &mut host)?;
    Ok(format!(in alloc; "{first} | {between} | {second}")?)
}

// A line, as its plan is run.
fn line_told(alloc: Global, line: &str) -> Result<String, Fail> {
    let (before, _) = line.split_once(" => ").unwrap_or((line, ""));
    let (resources, image) = before.split_once(" | ").unwrap_or((before, ""));
    let told = twice_told(alloc, resources, image)?;
    Ok(format!(in alloc; "{before} => {told}")?)
}

// The lines whose plans come to something else.
fn lines_otherwise(alloc: Global, lines: &str) -> Result<String, Fail> {
    let mut otherwise = String::new(alloc);
    for line in lines.lines() {
        let told = line_told(alloc, line)?;
        if told.as_str() != line {
            otherwise.push_str(told.as_str())?;
            otherwise.push_str("\n")?;
        }
    }
    Ok(otherwise)
}

#[test]
fn plans_are_run_twice(rt: HostRuntime) -> Result<(), Fail> {
    let otherwise = lines_otherwise(rt.alloc(), CASES)?;
    assert_eq!(rt; otherwise.as_str(), "");
    Ok(())
}

#[test]
fn the_worked_plan_is_run_twice(rt: HostRuntime) -> Result<(), Fail> {
    let told = twice_told(rt.alloc(), WORKED, "{}")?;
    assert_eq!(rt; told.as_str(), WORKED_TOLD);
    Ok(())
}

// The worked plan over an empty host with these capabilities that fails at these calls, and what is left.
fn faulty_told(alloc: Global, caps: Caps, failing: Vec<u64>) -> Result<String, Fail> {
    let plan = plan_of(alloc, WORKED)?;
    let mut host = FaultyHost::over(ImageHost::new(alloc), caps, failing);
    let told = run_told(alloc, &plan, &mut host)?;
    let image = image_text(alloc, host.image_host())?;
    Ok(format!(in alloc; "{told} | {image}")?)
}

#[test]
fn a_host_without_links_is_not_touched(rt: HostRuntime) -> Result<(), Fail> {
    let alloc = rt.alloc();
    let caps = Caps {
        links: false,
        modes: true,
    };
    let told = faulty_told(alloc, caps, Vec::new(alloc))?;
    assert_eq!(rt; told.as_str(), "lacks links | {}");
    Ok(())
}

// Whether the report of a run that the host cut off begins the worked run's.
fn cut_told(alloc: Global, call: u64) -> Result<String, Fail> {
    let caps = Caps {
        links: true,
        modes: true,
    };
    let mut failing = Vec::new(alloc);
    failing.push(call)?;
    let told = faulty_told(alloc, caps, failing)?;
    let (report, _) = told.split_once("fault | ").unwrap_or(("none", ""));
    let end = if WORKED_TOLD.starts_with(report) {
        "a first part"
    } else {
        "no fault"
    };
    Ok(String::from_str(alloc, end)?)
}

// What a fault at each call in turn leaves.
const CUT: &str =
    "a first part,a first part,a first part,a first part,a first part,a first part,a first part,a first part,a first part,a first part,a first part,no fault,";

#[test]
fn a_fault_at_each_call_leaves_the_first_acts(rt: HostRuntime) -> Result<(), Fail> {
    let alloc = rt.alloc();
    let mut told = String::new(alloc);
    for call in 1..13 {
        told.push_str(cut_told(alloc, call)?.as_str())?;
        told.push_str(",")?;
    }
    // The run has eleven calls: two for the directory, and three for each of the others.
    assert_eq!(rt; told.as_str(), CUT);
    Ok(())
}

// So many files and one more, of which each notifies the next immediately.
fn long_chain(alloc: Global, count: u32) -> Result<String, AllocError> {
    let mut text = String::from_str(alloc, "[")?;
    for k in 0..count {
        let next = k.saturating_add(1);
        let link = format!(in alloc;
            "{{\"type\":\"file\",\"name\":\"/{k}\",\"notifies\":[{{\"action\":\"create\",\"resource\":\"file[/{next}]\",\"timer\":\"immediately\"}}]}},"
        )?;
        text.push_str(link.as_str())?;
    }
    text.push_str(format!(in alloc; "{{\"type\":\"file\",\"name\":\"/{count}\"}}]")?.as_str())?;
    Ok(text)
}

fn last_line(alloc: Global, outcome: Outcome) -> Result<String, AllocError> {
    match outcome {
        Outcome::Done(report) => match report.lines.as_slice().last() {
            Some(line) => String::from_str(alloc, line.as_str()),
            None => String::from_str(alloc, "no line"),
        },
        _ => String::from_str(alloc, "not done"),
    }
}

#[test]
fn a_chain_of_10_000_immediate_notifications_is_run(rt: HostRuntime) -> Result<(), Fail> {
    let alloc = rt.alloc();
    let plan = plan_of(alloc, long_chain(alloc, 10_000)?.as_str())?;
    let mut host = ImageHost::new(alloc);
    let told = last_line(alloc, converge(alloc, &plan, &mut host))?;
    assert_eq!(rt; told.as_str(), "20001 actions, 10001 updated");
    Ok(())
}
