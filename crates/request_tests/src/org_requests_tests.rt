//! The printed refusals.
use access_lists::Perm;
use doc_tree::{NoMemory, Text};
use org_requests::{Refusal, Reply, out_of_memory};
use std::alloc::Global;
use std::test::Fail;

/// Adds a reply in words: its status and its body, on a line.
fn add(alloc: Global, text: &mut String, reply: Reply) -> Result<(), NoMemory> {
    let body = std::str::from_utf8(reply.body.as_slice()).unwrap_or("no text");
    let line = format!(in alloc; "{} {body}\n", reply.status)?;
    text.push_str(line.as_str())?;
    Ok(())
}

fn add_refusal(alloc: Global, text: &mut String, refusal: Refusal) -> Result<(), NoMemory> {
    let reply = refusal.reply(alloc)?;
    add(alloc, text, reply)
}

/// The refusal of each position in the order of refusals.
fn refusal(alloc: Global, position: u8) -> Result<Refusal, NoMemory> {
    Ok(match position {
        0 => Refusal::TooLarge,
        1 => Refusal::VersionNotTaken,
        2 => Refusal::NotImplemented,
        3 => Refusal::NotAllowed,
        4 => Refusal::UnknownCaller,
        5 => Refusal::BadField(Text::from_str(alloc, "name")?),
        6 => Refusal::NotFound,
        7 => Refusal::Forbidden(Perm::Delete),
        8 => Refusal::SandboxesAtEnd,
        _ => Refusal::AlreadyExists,
    })
}

fn add_refusals(alloc: Global, text: &mut String) -> Result<(), NoMemory> {
    for position in 0..10 {
        add_refusal(alloc, text, refusal(alloc, position)?)?;
    }
    Ok(())
}

#[test]
fn each_refusal_has_its_status_and_text(rt: HostRuntime) -> Result<(), Fail> {
    let alloc = rt.alloc();
    let mut told = String::new(alloc);
    add_refusals(alloc, &mut told)?;
    add(alloc, &mut told, out_of_memory())?;
    assert_eq!(rt;
        told.as_str(),
        "413 {\"error\":[\"body is too large\"]}\n\
         406 {\"error\":[\"api version is not taken\"]}\n\
         501 {\"error\":[\"not implemented\"]}\n\
         405 {\"error\":[\"not allowed\"]}\n\
         401 {\"error\":[\"caller is not known\"]}\n\
         400 {\"error\":[\"bad field name\"]}\n\
         404 {\"error\":[\"not found\"]}\n\
         403 {\"error\":[\"missing delete permission\"]}\n\
         409 {\"error\":[\"sandbox count is at its end\"]}\n\
         409 {\"error\":[\"already exists\"]}\n\
         500 {\"error\":[\"out of memory\"]}\n"
    );
    Ok(())
}
