// The disk in memory with its planned faults, and the one over the operating system.
use doc_tree::{Bytes, Text};
use outside_core::{Disk, DiskFault, FileDisk, MemDisk};
use std::alloc::Global;
use std::fs;
use std::test::Fail;

fn text(alloc: Global, text: &str) -> Result<Text, Fail> {
    Ok(Text::from_str(alloc, text)?)
}

// A test has all replies in one text, a line each, so that it holds few values: each costs a proof at each `?`.
fn add(replies: &mut String, reply: &str) -> Result<(), Fail> {
    replies.push_str(reply)?;
    Ok(replies.push('\n')?)
}

// What a read answers: the file's text, or what came in its place.
fn read<D: Disk>(
    alloc: Global,
    disk: &mut D,
    name: &str,
    replies: &mut String,
) -> Result<(), Fail> {
    let name = text(alloc, name)?;
    match disk.read(alloc, &name) {
        Ok(Some(bytes)) => {
            let kept = String::from_utf8_lossy(alloc, bytes.as_slice())?;
            add(replies, kept.as_str())
        }
        Ok(None) => add(replies, "none"),
        Err(DiskFault::Failed) => add(replies, "failed"),
        Err(DiskFault::NoMemory) => add(replies, "out of memory"),
    }
}

// What a write answers.
fn write<D: Disk>(
    alloc: Global,
    disk: &mut D,
    name: &str,
    bytes: &[u8],
    replies: &mut String,
) -> Result<(), Fail> {
    let name = text(alloc, name)?;
    match disk.write(&name, bytes) {
        Ok(()) => add(replies, "written"),
        Err(_) => add(replies, "refused"),
    }
}

// What a listing answers: the names, each behind a space, or what came in their place.
fn list<D: Disk>(
    alloc: Global,
    disk: &mut D,
    folder: &str,
    replies: &mut String,
) -> Result<(), Fail> {
    let folder = text(alloc, folder)?;
    match disk.list(alloc, &folder) {
        Ok(Some(names)) => add_spaced(replies, names.as_slice()),
        Ok(None) => add(replies, "none"),
        Err(DiskFault::Failed) => add(replies, "failed"),
        Err(DiskFault::NoMemory) => add(replies, "out of memory"),
    }
}

fn add_spaced(replies: &mut String, names: &[Text]) -> Result<(), Fail> {
    for name in names {
        replies.push(' ')?;
        replies.push_str(name.as_str())?;
    }
    add(replies, "")
}

fn use_memory(alloc: Global, disk: &mut MemDisk, replies: &mut String) -> Result<(), Fail> {
    read(alloc, disk, "a/b", replies)?;
    write(alloc, disk, "a/b", b"abc", replies)?;
    read(alloc, disk, "a/b", replies)?;
    read(alloc, disk, "a/b", replies)?;
    write(alloc, disk, "a/b", b"x", replies)?;
    write(alloc, disk, "a/b", b"xy", replies)?;
    write(alloc, disk, "a/b", b"z", replies)?;
    read(alloc, disk, "a/b", replies)?;
    put(alloc, disk, "a/B/x", b"")?;
    put(alloc, disk, "ab/x", b"")?;
    list(alloc, disk, "a", replies)?;
    list(alloc, disk, "a", replies)?;
    list(alloc, disk, "c", replies)
}

fn put(alloc: Global, disk: &mut MemDisk, name: &str, bytes: &'static [u8]) -> Result<(), Fail> {
    let name = text(alloc, name)?;
    Ok(disk.put(name, Bytes::constant(bytes))?)
}

#[test]
fn files_in_memory_are_read_and_written(rt: HostRuntime) -> Result<(), Fail> {
    let alloc = rt.alloc();
    let mut disk = MemDisk::new(alloc, vec![in alloc; 3, 5, 10]?, 4);
    put(alloc, &mut disk, "c", b"kept")?;
    let mut replies = String::new(alloc);
    use_memory(alloc, &mut disk, &mut replies)?;
    assert_eq!(rt;
        replies.as_str(),
        "none\nwritten\nfailed\nabc\nrefused\nrefused\nwritten\nz\n B/x b\nfailed\nnone\n"
    );
    assert!(rt; disk.file(&text(alloc, "c")?).is_some());
    Ok(())
}

fn use_file<D: Disk>(alloc: Global, disk: &mut D, replies: &mut String) -> Result<(), Fail> {
    write(
        alloc,
        disk,
        "a-file-of-a-test",
        b"first and longer",
        replies,
    )?;
    write(alloc, disk, "a-file-of-a-test", b"second", replies)?;
    read(alloc, disk, "a-file-of-a-test", replies)
}

fn use_no_file<D: Disk>(alloc: Global, disk: &mut D, replies: &mut String) -> Result<(), Fail> {
    read(alloc, disk, "a-file-of-a-test", replies)?;
    read(alloc, disk, "/", replies)?;
    write(alloc, disk, "/", b"x", replies)
}

fn use_folder<D: Disk>(alloc: Global, disk: &mut D, replies: &mut String) -> Result<(), Fail> {
    write(alloc, disk, "a-folder-of-a-test/inner/a", b"x", replies)?;
    write(alloc, disk, "a-folder-of-a-test/b", b"x", replies)?;
    list(alloc, disk, "a-folder-of-a-test", replies)
}

fn use_no_folder<D: Disk>(alloc: Global, disk: &mut D, replies: &mut String) -> Result<(), Fail> {
    list(alloc, disk, "a-folder-of-a-test", replies)?;
    list(alloc, disk, "\0", replies)
}

#[test]
fn files_of_the_system_are_read_and_written(rt: HostRuntime) -> Result<(), Fail> {
    let alloc = rt.alloc();
    let mut disk = FileDisk::new(rt.clone()?);
    let mut replies = String::new(alloc);
    use_file(alloc, &mut disk, &mut replies)?;
    fs::remove_file(&rt, "a-file-of-a-test")?;
    use_no_file(alloc, &mut disk, &mut replies)?;
    fs::create_dir_all(&rt, "a-folder-of-a-test/inner")?;
    use_folder(alloc, &mut disk, &mut replies)?;
    fs::remove_dir_all(&rt, "a-folder-of-a-test")?;
    use_no_folder(alloc, &mut disk, &mut replies)?;
    assert_eq!(rt;
        replies.as_str(),
        "written\nwritten\nsecond\nnone\nfailed\nrefused\nwritten\nwritten\n b inner/a\nnone\nfailed\n"
    );
    Ok(())
}
