// What errands write and print by the replies that come, and how they end.
use crate::errands::{Scene, told};
use doc_tree::NoMemory;
use std::alloc::Global;
use std::test::Fail;

// An errand a line: its words; the file; the replies, each its status and its body, with `&` between two.
const ERRANDS: &str = "node|list<<200 {\"web2\":\"u\",\"web1\":\"u\"}
node|create|web1<<201 {}
node|show|none<<404 {\"error\":[\"none\"]}
node|list<<202 {}
node|list<<200 []
node|list<<
node|run_list|add|web1|ntp<<200 {\"run_list\":[\"recipe[apt]\"],\"name\":\"web1\"}&200 {\"run_list\":[\"role[x]\"]}
node|run_list|add|web1|ntp<<404 {}&200 {\"run_list\":[]}
node|run_list|remove|web1|ntp<<200 {}&200 {\"run_list\":[]}
node|run_list|remove|web1|ntp<<200 {\"run_list\":[\"ntp\"]}&403 {}
node|run_list|remove|web1|ntp<<200 {\"run_list\":[\"ntp\"]}&200 {}
role|from|file|f<{\"name\":\"web\"}<200 {}&201 {}
role|from|file|f<{\"name\":\"web\"}<404 {}&201 {}
data|bag|from|file|keys|f<{ \"id\": \"al\" }<404 {}&404 {}
role|from|file|f<{\"name\":\"web\"}<409 {}&201 {}
role|from|file|f<{\"name\":\"web\"}<404 {}
role|from|file|f<<200 {}
role|from|file|f<{}<200 {}
role|from|file|g<{\"name\":\"web\"}<200 {}";

// How each ends; what it prints; its requests, each with the size of its body, and then its body.
const TOLD: &str = "done < web1\nweb2\n < GET /organizations/acme/nodes 0\r\n\r\n
done < Created node[web1]\n < POST /organizations/acme/nodes 15\r\n\r\n{\"name\":\"web1\"}
404 to GET /organizations/acme/nodes/none <  < GET /organizations/acme/nodes/none 0\r\n\r\n
202 to GET /organizations/acme/nodes <  < GET /organizations/acme/nodes 0\r\n\r\n
1 to GET /organizations/acme/nodes <  < GET /organizations/acme/nodes 0\r\n\r\n
0 to GET /organizations/acme/nodes <  < GET /organizations/acme/nodes 0\r\n\r\n
done < role[x]\n < GET /organizations/acme/nodes/web1 0\r\n\r\nPUT /organizations/acme/nodes/web1 56\r\n\r\n{\"name\":\"web1\",\"run_list\":[\"recipe[apt]\",\"recipe[ntp]\"]}
404 to GET /organizations/acme/nodes/web1 <  < GET /organizations/acme/nodes/web1 0\r\n\r\n
1 to GET /organizations/acme/nodes/web1 <  < GET /organizations/acme/nodes/web1 0\r\n\r\n
403 to PUT /organizations/acme/nodes/web1 <  < GET /organizations/acme/nodes/web1 0\r\n\r\nPUT /organizations/acme/nodes/web1 15\r\n\r\n{\"run_list\":[]}
1 to PUT /organizations/acme/nodes/web1 <  < GET /organizations/acme/nodes/web1 0\r\n\r\nPUT /organizations/acme/nodes/web1 15\r\n\r\n{\"run_list\":[]}
done < Updated role[web]\n < PUT /organizations/acme/roles/web 14\r\n\r\n{\"name\":\"web\"}
done < Updated role[web]\n < PUT /organizations/acme/roles/web 14\r\n\r\n{\"name\":\"web\"}POST /organizations/acme/roles 14\r\n\r\n{\"name\":\"web\"}
404 to POST /organizations/acme/data/keys <  < PUT /organizations/acme/data/keys/al 11\r\n\r\n{\"id\":\"al\"}POST /organizations/acme/data/keys 11\r\n\r\n{\"id\":\"al\"}
409 to PUT /organizations/acme/roles/web <  < PUT /organizations/acme/roles/web 14\r\n\r\n{\"name\":\"web\"}
0 to POST /organizations/acme/roles <  < PUT /organizations/acme/roles/web 14\r\n\r\n{\"name\":\"web\"}POST /organizations/acme/roles 14\r\n\r\n{\"name\":\"web\"}
bad file f <  < 
bad file f <  < 
bad file g <  < 
";

// The bytes of these replies.
fn replies(alloc: Global, lines: &str) -> Result<String, NoMemory> {
    let mut text = String::new(alloc);
    for line in lines.split('&') {
        if let Some((status, body)) = line.split_once(' ') {
            let size = body.len();
            text.push_str("HTTP/1.1 ")?;
            text.push_str(status)?;
            text.push_str(&format!(in alloc; " X\r\nContent-Length: {size}\r\n\r\n")?)?;
            text.push_str(body)?;
        }
    }
    Ok(text)
}

// What the errand of a line tells.
fn told_of(alloc: Global, line: &str) -> Result<String, NoMemory> {
    let (words, rest) = line.split_once('<').unwrap_or((line, ""));
    let (file, sent) = rest.split_once('<').unwrap_or((rest, ""));
    let input = replies(alloc, sent)?;
    let scene = Scene {
        words,
        file,
        input: input.as_str(),
        calls: (0, 0, 0),
        room: 100,
    };
    told(alloc, &scene)
}

#[test]
fn an_errand_writes_and_prints_by_its_replies(rt: HostRuntime) -> Result<(), Fail> {
    let alloc = rt.alloc();
    let mut all = String::new(alloc);
    for line in ERRANDS.lines() {
        all.push_str(&told_of(alloc, line)?)?;
        all.push('\n')?;
    }
    assert_eq!(rt; all.as_str(), TOLD);
    Ok(())
}
