//! What no clause says: outside vectors, the texts of faults, and that the calls succeed.

use doc_tree::{Bytes, NoMemory, Text};
use sandboxes::{Checksum, Files, Hashed, Refused, Sums, read_checksum};
use std::alloc::{AllocError, Global};
use std::test::Fail;

// The messages of RFC 1321, A.5, and their digests.
const VECTORS: &str = " => d41d8cd98f00b204e9800998ecf8427e
a => 0cc175b9c0f1b6a831c399e269772661
abc => 900150983cd24fb0d6963f7d28e17f72
message digest => f96b697d7cb7938d525a2f31aaf161d0
abcdefghijklmnopqrstuvwxyz => c3fcd3d76192e4007dfb496cca67e13b
ABCDEFGHIJKLMNOPQRSTUVWXYZabcdefghijklmnopqrstuvwxyz0123456789 => d174ab98d277d9f5a5611c2c9f419d9f
12345678901234567890123456789012345678901234567890123456789012345678901234567890 => 57edf4a22be3c955ac49da2e2107b67a
";

// The digests are checksums; none is a digit too few or too many, upper case, what is no digit, and more bytes than
// characters.
const CHECKSUMS: &str = "d41d8cd98f00b204e9800998ecf8427e => d41d8cd98f00b204e9800998ecf8427e
0cc175b9c0f1b6a831c399e269772661 => 0cc175b9c0f1b6a831c399e269772661
900150983cd24fb0d6963f7d28e17f72 => 900150983cd24fb0d6963f7d28e17f72
f96b697d7cb7938d525a2f31aaf161d0 => f96b697d7cb7938d525a2f31aaf161d0
c3fcd3d76192e4007dfb496cca67e13b => c3fcd3d76192e4007dfb496cca67e13b
d174ab98d277d9f5a5611c2c9f419d9f => d174ab98d277d9f5a5611c2c9f419d9f
57edf4a22be3c955ac49da2e2107b67a => 57edf4a22be3c955ac49da2e2107b67a
 => none
d41d8cd98f00b204e9800998ecf8427 => none
d41d8cd98f00b204e9800998ecf8427e0 => none
D41D8CD98F00B204E9800998ECF8427E => none
g41d8cd98f00b204e9800998ecf8427e => none
é1d8cd98f00b204e9800998ecf8427e => none
";

// What is done in an organisation with checksums, or an id, and bytes, and what is told. The ids are as another program
// hashes the organisation's name, a line feed and the count: the first two of `acme` and the first of `beta`.
const LIFE: &str = "acme read d41d8cd98f00b204e9800998ecf8427e => none, not awaited, of 0
acme begin d41d8cd98f00b204e9800998ecf8427e => f16509a997a692fc9b3badae6e720393
acme read d41d8cd98f00b204e9800998ecf8427e => none, awaited, of 1
acme commit f16509a997a692fc9b3badae6e720393 => missing d41d8cd98f00b204e9800998ecf8427e
acme upload d41d8cd98f00b204e9800998ecf8427e a => digest is 0cc175b9c0f1b6a831c399e269772661, not d41d8cd98f00b204e9800998ecf8427e, 1 back
acme upload d41d8cd98f00b204e9800998ecf8427e => taken
acme read d41d8cd98f00b204e9800998ecf8427e => 0 bytes, false, awaited, of 1
acme commit f16509a997a692fc9b3badae6e720393 => committed
acme read d41d8cd98f00b204e9800998ecf8427e => 0 bytes, true, not awaited, of 1
acme commit f16509a997a692fc9b3badae6e720393 => no such sandbox
acme upload 900150983cd24fb0d6963f7d28e17f72 abc => no such sandbox, 3 back
beta read d41d8cd98f00b204e9800998ecf8427e => none, not awaited, of 0
beta upload d41d8cd98f00b204e9800998ecf8427e => no such sandbox, 0 back
beta begin d41d8cd98f00b204e9800998ecf8427e => 5728d698bc2c6aafa67e2915709ff27c
beta commit f16509a997a692fc9b3badae6e720393 => no such sandbox
beta commit 5728d698bc2c6aafa67e2915709ff27c => missing d41d8cd98f00b204e9800998ecf8427e
acme begin d41d8cd98f00b204e9800998ecf8427e 900150983cd24fb0d6963f7d28e17f72 0cc175b9c0f1b6a831c399e269772661 d41d8cd98f00b204e9800998ecf8427e => da20926c5058c7236be681ca6b2ad590
acme look da20926c5058c7236be681ca6b2ad590 => 0cc175b9c0f1b6a831c399e269772661 900150983cd24fb0d6963f7d28e17f72 d41d8cd98f00b204e9800998ecf8427e
acme look f16509a997a692fc9b3badae6e720393 => none
acme commit da20926c5058c7236be681ca6b2ad590 => missing 0cc175b9c0f1b6a831c399e269772661 900150983cd24fb0d6963f7d28e17f72
acme upload 900150983cd24fb0d6963f7d28e17f72 abc => taken
acme upload 0cc175b9c0f1b6a831c399e269772661 a => taken
acme upload d41d8cd98f00b204e9800998ecf8427e => taken
acme commit da20926c5058c7236be681ca6b2ad590 => committed
acme read 900150983cd24fb0d6963f7d28e17f72 => 3 bytes, true, not awaited, of 2
acme release 900150983cd24fb0d6963f7d28e17f72 => released
acme read 900150983cd24fb0d6963f7d28e17f72 => none, not awaited, of 2
beta read d41d8cd98f00b204e9800998ecf8427e => none, awaited, of 1
";

// What a copy of the files tells then.
const COPIED: &str = "acme read 0cc175b9c0f1b6a831c399e269772661 => 1 bytes, true, not awaited, of 2
";

// What is laid in place of what is there, as a row that was kept holds it, and what is told.
const LAID: &str = "acme lay_file open a => laid
acme read 0cc175b9c0f1b6a831c399e269772661 => 1 bytes, false, not awaited, of 0
acme lay_file committed a => laid
acme read 0cc175b9c0f1b6a831c399e269772661 => 1 bytes, true, not awaited, of 0
acme lay_file committed abc => laid
acme lay_file open abc => laid
acme read 900150983cd24fb0d6963f7d28e17f72 => 3 bytes, false, not awaited, of 0
acme lay_sandbox f16509a997a692fc9b3badae6e720393 d41d8cd98f00b204e9800998ecf8427e => laid
acme look f16509a997a692fc9b3badae6e720393 => d41d8cd98f00b204e9800998ecf8427e
acme read d41d8cd98f00b204e9800998ecf8427e => none, awaited, of 0
acme lay_sandbox f16509a997a692fc9b3badae6e720393 900150983cd24fb0d6963f7d28e17f72 0cc175b9c0f1b6a831c399e269772661 => laid
acme look f16509a997a692fc9b3badae6e720393 => 0cc175b9c0f1b6a831c399e269772661 900150983cd24fb0d6963f7d28e17f72
acme read d41d8cd98f00b204e9800998ecf8427e => none, not awaited, of 0
acme lay_count 7 => laid
acme read 900150983cd24fb0d6963f7d28e17f72 => 3 bytes, false, awaited, of 7
acme lay_count 1 => laid
beta read 900150983cd24fb0d6963f7d28e17f72 => none, not awaited, of 0
acme begin d41d8cd98f00b204e9800998ecf8427e => da20926c5058c7236be681ca6b2ad590
acme commit f16509a997a692fc9b3badae6e720393 => committed
acme read 900150983cd24fb0d6963f7d28e17f72 => 3 bytes, true, not awaited, of 2
";

fn checksum(alloc: Global, text: &str) -> Result<Checksum, NoMemory> {
    read_checksum(&Text::from_str(alloc, text)?).ok_or(NoMemory)
}

fn hashed(alloc: Global, text: &str) -> Result<Hashed, NoMemory> {
    Ok(Hashed::of(Bytes::from_slice(alloc, text.as_bytes())?))
}

fn sums(alloc: Global, texts: &str) -> Result<Sums, NoMemory> {
    let mut items = Vec::new(alloc);
    for text in texts.split(' ') {
        items.push(checksum(alloc, text)?)?;
    }
    Ok(Sums::of(items))
}

fn shown(alloc: Global, sums: &Sums) -> Result<String, AllocError> {
    let mut text = String::new(alloc);
    let mut sign = "";
    for sum in sums.as_slice() {
        text.push_str(sign)?;
        text.push_str(sum.as_str())?;
        sign = " ";
    }
    Ok(text)
}

fn begin(alloc: Global, files: &mut Files, org: &Text, texts: &str) -> Result<String, NoMemory> {
    files.reserve(alloc, org, 1)?;
    match files.begin(org, sums(alloc, texts)?) {
        Ok(id) => Ok(id.to_string(alloc)?),
        Err(fault) => Ok(fault.to_string(alloc)?),
    }
}

fn refused(alloc: Global, refused: Refused) -> Result<String, NoMemory> {
    let count = refused.file.len();
    let fault = refused.fault.to_string(alloc)?;
    Ok(format!(in alloc; "{fault}, {count} back")?)
}

// Uploads the bytes behind a checksum.
fn upload(alloc: Global, files: &mut Files, org: &Text, text: &str) -> Result<String, NoMemory> {
    let (asked, bytes) = text.split_once(' ').unwrap_or((text, ""));
    let asked = checksum(alloc, asked)?;
    files.reserve(alloc, org, 1)?;
    match files.upload(org, asked, hashed(alloc, bytes)?) {
        Ok(()) => Ok(String::from_str(alloc, "taken")?),
        Err(back) => refused(alloc, back),
    }
}

fn missing_told(alloc: Global, missing: Sums) -> Result<String, NoMemory> {
    let missing = shown(alloc, &missing)?;
    Ok(format!(in alloc; "missing {missing}")?)
}

// Commits a sandbox that misses nothing.
fn commit_id(
    alloc: Global,
    files: &mut Files,
    org: &Text,
    id: &Checksum,
) -> Result<String, NoMemory> {
    match files.missing(alloc, org, id) {
        Err(fault) => Ok(fault.to_string(alloc)?),
        Ok(missing) => {
            if missing.is_empty() {
                files.commit(org, id);
                return Ok(String::from_str(alloc, "committed")?);
            }
            missing_told(alloc, missing)
        }
    }
}

fn commit(alloc: Global, files: &mut Files, org: &Text, text: &str) -> Result<String, NoMemory> {
    let id = checksum(alloc, text)?;
    commit_id(alloc, files, org, &id)
}

fn read(alloc: Global, files: &Files, org: &Text, text: &str) -> Result<String, NoMemory> {
    let sum = checksum(alloc, text)?;
    let waits = if files.awaited(org, &sum) {
        "awaited"
    } else {
        "not awaited"
    };
    let count = files.count(org);
    match files.file(org, &sum) {
        None => Ok(format!(in alloc; "none, {waits}, of {count}")?),
        Some((file, committed)) => {
            Ok(format!(in alloc; "{} bytes, {committed}, {waits}, of {count}", file.len())?)
        }
    }
}

fn release(alloc: Global, files: &mut Files, org: &Text, texts: &str) -> Result<String, NoMemory> {
    let sums = sums(alloc, texts)?;
    files.release(org, &sums);
    Ok(String::from_str(alloc, "released")?)
}

fn look(alloc: Global, files: &Files, org: &Text, text: &str) -> Result<String, NoMemory> {
    let id = checksum(alloc, text)?;
    match files.listed(org, &id) {
        Some(sums) => Ok(shown(alloc, sums)?),
        None => Ok(String::from_str(alloc, "none")?),
    }
}

// Lays a file of these bytes, committed or open.
fn lay_file(alloc: Global, files: &mut Files, org: &Text, text: &str) -> Result<String, NoMemory> {
    let (flag, bytes) = text.split_once(' ').unwrap_or((text, ""));
    let file = hashed(alloc, bytes)?;
    files.reserve(alloc, org, 1)?;
    files.lay_file(org, file, flag == "committed");
    Ok(String::from_str(alloc, "laid")?)
}

// Lays a sandbox of an id that lists checksums.
fn lay_sandbox(
    alloc: Global,
    files: &mut Files,
    org: &Text,
    text: &str,
) -> Result<String, NoMemory> {
    let (id, texts) = text.split_once(' ').unwrap_or((text, ""));
    let id = checksum(alloc, id)?;
    let sums = sums(alloc, texts)?;
    files.reserve(alloc, org, 1)?;
    files.lay_sandbox(org, id, sums);
    Ok(String::from_str(alloc, "laid")?)
}

#[tactic(auto, using(crate::proofs::PartLemmas::part_there))]
fn lay_count(alloc: Global, files: &mut Files, org: &Text, text: &str) -> Result<String, NoMemory> {
    let count = text.parse::<u64>().unwrap_or(0);
    files.reserve(alloc, org, 1)?;
    files.lay_count(org, count);
    Ok(String::from_str(alloc, "laid")?)
}

// What is told when this is done with a text in an organisation.
fn done(
    alloc: Global,
    files: &mut Files,
    org: &Text,
    deed: &str,
    text: &str,
) -> Result<String, NoMemory> {
    match deed {
        "begin" => begin(alloc, files, org, text),
        "upload" => upload(alloc, files, org, text),
        "commit" => commit(alloc, files, org, text),
        "read" => read(alloc, files, org, text),
        "release" => release(alloc, files, org, text),
        "look" => look(alloc, files, org, text),
        "lay_file" => lay_file(alloc, files, org, text),
        "lay_sandbox" => lay_sandbox(alloc, files, org, text),
        "lay_count" => lay_count(alloc, files, org, text),
        _ => Ok(String::from_str(alloc, "no deed")?),
    }
}

fn done_in(
    alloc: Global,
    files: &mut Files,
    org: &str,
    deed: &str,
    text: &str,
) -> Result<String, NoMemory> {
    let org = Text::from_str(alloc, org)?;
    done(alloc, files, &org, deed, text)
}

// What is told when that is done which the words of a line say.
fn told(alloc: Global, files: &mut Files, words: &str) -> Result<String, NoMemory> {
    let (org, rest) = words.split_once(' ').unwrap_or((words, ""));
    let (deed, text) = rest.split_once(' ').unwrap_or((rest, ""));
    done_in(alloc, files, org, deed, text)
}

// A line, as the files tell it.
fn line_told(alloc: Global, files: &mut Files, line: &str) -> Result<String, NoMemory> {
    let (words, _) = line.split_once(" => ").unwrap_or((line, ""));
    let told = told(alloc, files, words)?;
    Ok(format!(in alloc; "{words} => {told}")?)
}

// The lines that the files tell otherwise.
fn lines_otherwise(alloc: Global, files: &mut Files, lines: &str) -> Result<String, NoMemory> {
    let mut otherwise = String::new(alloc);
    for line in lines.lines() {
        let told = line_told(alloc, files, line)?;
        if told.as_str() != line {
            otherwise.push_str(told.as_str())?;
            otherwise.push_str("\n")?;
        }
    }
    Ok(otherwise)
}

// The bytes that a copy of a file has, and its digest.
fn file_told(alloc: Global, text: &str) -> Result<String, NoMemory> {
    let file = hashed(alloc, text)?.copy(alloc)?;
    let digest = file.digest();
    let bytes = file.into_bytes();
    let bytes = String::from_utf8_lossy(alloc, bytes.as_slice())?;
    Ok(format!(in alloc; "{bytes} => {digest}\n")?)
}

fn vectors_told(alloc: Global, lines: &str) -> Result<String, NoMemory> {
    let mut told = String::new(alloc);
    for line in lines.lines() {
        let (text, _) = line.split_once(" => ").unwrap_or((line, ""));
        told.push_str(file_told(alloc, text)?.as_str())?;
    }
    Ok(told)
}

// The checksum that a text is, or none.
fn checksum_told(alloc: Global, text: &str) -> Result<String, NoMemory> {
    match read_checksum(&Text::from_str(alloc, text)?) {
        Some(sum) => Ok(format!(in alloc; "{text} => {sum}\n")?),
        None => Ok(format!(in alloc; "{text} => none\n")?),
    }
}

fn checksums_told(alloc: Global, lines: &str) -> Result<String, NoMemory> {
    let mut told = String::new(alloc);
    for line in lines.lines() {
        let (text, _) = line.split_once(" => ").unwrap_or((line, ""));
        told.push_str(checksum_told(alloc, text)?.as_str())?;
    }
    Ok(told)
}

#[test]
fn a_file_is_named_by_its_md5(rt: HostRuntime) -> Result<(), Fail> {
    assert_eq!(rt; vectors_told(rt.alloc(), VECTORS)?.as_str(), VECTORS);
    assert_eq!(rt; checksums_told(rt.alloc(), CHECKSUMS)?.as_str(), CHECKSUMS);
    Ok(())
}

#[test]
fn each_organisation_has_files_and_sandboxes_of_its_own(rt: HostRuntime) -> Result<(), Fail> {
    let mut files = Files::none(rt.alloc());
    assert_eq!(rt; lines_otherwise(rt.alloc(), &mut files, LIFE)?.as_str(), "");
    let mut copy = files.copy(rt.alloc())?;
    assert_eq!(rt;
        lines_otherwise(rt.alloc(), &mut copy, COPIED)?.as_str(),
        ""
    );
    Ok(())
}

#[test]
fn what_was_kept_is_laid_in_place_of_what_is_there(rt: HostRuntime) -> Result<(), Fail> {
    let mut files = Files::none(rt.alloc());
    assert_eq!(rt; lines_otherwise(rt.alloc(), &mut files, LAID)?.as_str(), "");
    Ok(())
}
