// How errands end where a reply is cut short, and where the link, the disk or the output fails.
use crate::errands::{Scene, told};
use doc_tree::NoMemory;
use std::alloc::Global;
use std::test::Fail;

const REPLY: &str = "HTTP/1.1 200 OK\r\nContent-Length: 9\r\n\r\n{\"a\":\"u\"}";

const UNANSWERED: &str =
    "0 to GET /organizations/acme/nodes <  < GET /organizations/acme/nodes 0\r\n\r\n";

// What is told where so many bytes of a reply come.
fn told_at(alloc: Global, size: usize) -> Result<String, NoMemory> {
    let scene = Scene {
        words: "node|list",
        file: "",
        input: REPLY.get(..size).unwrap_or(""),
        calls: (0, 0, 0),
        room: 100,
    };
    told(alloc, &scene)
}

#[test]
fn a_reply_that_is_cut_is_none(rt: HostRuntime) -> Result<(), Fail> {
    let alloc = rt.alloc();
    let mut all = String::new(alloc);
    for size in 0..=REPLY.len() {
        let line = told_at(alloc, size)?;
        if line.as_str() != UNANSWERED {
            all.push_str(&line)?;
        }
    }
    assert_eq!(rt;
        all.as_str(),
        "done < a\n < GET /organizations/acme/nodes 0\r\n\r\n"
    );
    Ok(())
}

const NOT_THERE: &str = "HTTP/1.1 404 Not Found\r\nContent-Length: 2\r\n\r\n{}";

// A read of the link that fails, its write, a read of the disk, and an output that nothing reaches.
const TOLD: &str = "read fault <  < PUT /organizations/acme/roles/w 12\r\n\r\n{\"name\":\"w\"}
write fault <  < 
disk fault <  < 
0 to POST /organizations/acme/roles <  < PUT /organizations/acme/roles/w 12\r\n\r\n{\"name\":\"w\"}POST /organizations/acme/roles 12\r\n\r\n{\"name\":\"w\"}
";

// What is told of a role's file where these calls fail.
fn told_with(alloc: Global, calls: (u64, u64, u64)) -> Result<String, NoMemory> {
    let scene = Scene {
        words: "role|from|file|f",
        file: "{\"name\":\"w\"}",
        input: NOT_THERE,
        calls,
        room: 100,
    };
    told(alloc, &scene)
}

#[test]
fn each_fault_of_link_and_disk_ends_an_errand(rt: HostRuntime) -> Result<(), Fail> {
    let alloc = rt.alloc();
    let mut all = String::new(alloc);
    for calls in [(2, 0, 0), (1, 0, 0), (0, 1, 0), (0, 0, 1)] {
        all.push_str(&told_with(alloc, calls)?)?;
        all.push('\n')?;
    }
    assert_eq!(rt; all.as_str(), TOLD);
    Ok(())
}

// What is told of a listing where this write of the output fails, and it has this room.
fn told_into(alloc: Global, call: u64, room: usize) -> Result<String, NoMemory> {
    let scene = Scene {
        words: "node|list",
        file: "",
        input: REPLY,
        calls: (0, 0, call),
        room,
    };
    told(alloc, &scene)
}

#[test]
fn an_output_that_fails_has_a_front(rt: HostRuntime) -> Result<(), Fail> {
    let alloc = rt.alloc();
    let mut all = told_into(alloc, 1, 100)?;
    all.push_str(&told_into(alloc, 0, 1)?)?;
    let asked = " < GET /organizations/acme/nodes 0\r\n\r\n";
    let expected = format!(in alloc; "output fault < {asked}output fault < a{asked}")?;
    assert_eq!(rt; all.as_str(), expected.as_str());
    Ok(())
}
