//! The revision of a lock.
ghost use Rattle.std.specs.Prelude.{◌≡◌, ◌++◌, ◌∷◌, [], IfOk, OnOk, codes, string_bytes};
ghost use Rattle.std.specs.List.{flat_map};
ghost use Rattle.doc_tree.specs.Doc.{dict, pairs_of};
ghost use Rattle.sha2.specs.Sha256.{sha256};
ghost use Rattle.cookbook_meta.specs.Identifiers.{text_of_lines};
ghost use Rattle.policy_locks.specs.Digests as spec;

use crate::lock::{CookbookLock, CookbookLocks, Lock};
use doc_tree::{Fields, Name, NoMemory, Text, Texts, Tree, json_text};
use run_lists::{Items, NamedRunLists};
use sha2::{Digest, Sha256};
use std::alloc::Global;

/// The revision of a lock: the SHA-256 (FIPS 180-4), in lower-case hexadecimal digits, of these lines, each ended by a
/// line feed: `name:NAME`; `run-list-item:ITEM` for each item; for each named run list `named-run-list:NAME` and the
/// lines of its items; for each locked cookbook `cookbook:NAME;id:IDENTIFIER`; `default_attributes:JSON`; and
/// `override_attributes:JSON`. Items stand in their order, and named run lists and cookbooks as the lock has them, which is
/// byte order in one that was read.
pub fn revision_id(alloc: Global, lock: &Lock) -> Result<Text, NoMemory>
    ensures { IfOk result (λ text. text ≡ spec.revision_of lock.now) }
{
    let lines = lines_of(
        alloc,
        &lock.name,
        &lock.run_list,
        &lock.named_run_lists,
        &lock.cookbook_locks,
        &lock.default_attributes,
        &lock.override_attributes,
    )?;
    Ok(digest_name(alloc, &lines)?.into_text())
}

/// The lines of a policy's name, run lists, locked cookbooks and attributes.
pub(crate) fn lines_of(
    alloc: Global,
    name: &Name,
    run_list: &Items,
    lists: &NamedRunLists,
    cookbooks: &CookbookLocks,
    default: &Fields,
    over: &Fields,
) -> Result<Texts, NoMemory>
    ensures { IfOk result (λ lines. lines ≡ spec.lines_by name.now run_list.now lists.now cookbooks.now default.now over.now) }
{
    let mut lines = Texts::new(alloc);
    push_line(alloc, &mut lines, "name:", name.as_text())?;
    push_items(alloc, &mut lines, run_list)?;
    push_lists(alloc, &mut lines, lists)?;
    push_cookbooks(alloc, &mut lines, cookbooks)?;
    push_dict(alloc, &mut lines, "default_attributes:", default)?;
    push_dict(alloc, &mut lines, "override_attributes:", over)?;
    Ok(lines)
}

fn push_line(alloc: Global, lines: &mut Texts, front: &str, text: &Text) -> Result<(), NoMemory>
    ensures { OnOk result (lines.new ≡ lines.old ++ (front.now ++ text.now) ∷ []) }
{
    lines.push(Text::of(format!(in alloc; "{front}{text}")?))
}

fn push_items(alloc: Global, lines: &mut Texts, items: &Items) -> Result<(), NoMemory>
    ensures { OnOk result (lines.new ≡ lines.old ++ spec.item_lines items.now) }
{
    for item in items.as_slice() {
        push_line(alloc, lines, "run-list-item:", item.text())?;
    }
    Ok(())
}

fn push_lists(alloc: Global, lines: &mut Texts, lists: &NamedRunLists) -> Result<(), NoMemory>
    ensures { OnOk result (lines.new ≡ lines.old ++ flat_map spec.named_lines lists.now) }
{
    for named in lists.as_slice() {
        push_line(alloc, lines, "named-run-list:", named.name.as_text())?;
        push_items(alloc, lines, &named.run_list)?;
    }
    Ok(())
}

ghost use Rattle.std.specs.Prelude.{map};

fn push_cookbooks(
    alloc: Global,
    lines: &mut Texts,
    cookbooks: &CookbookLocks,
) -> Result<(), NoMemory>
    ensures { OnOk result (lines.new ≡ lines.old ++ map spec.cookbook_line cookbooks.now) }
{
    for cookbook in cookbooks.as_slice() {
        lines.push(Text::of(cookbook_line(alloc, cookbook)?))?;
    }
    Ok(())
}

fn cookbook_line(alloc: Global, cookbook: &CookbookLock) -> Result<String, NoMemory>
    ensures { IfOk result (λ text. string_bytes text ≡ spec.cookbook_line cookbook.now) }
{
    let name = &cookbook.name;
    let identifier = &cookbook.identifier;
    Ok(format!(in alloc; "cookbook:{name};id:{identifier}")?)
}

fn push_dict(alloc: Global, lines: &mut Texts, front: &str, pairs: &Fields) -> Result<(), NoMemory>
    ensures { OnOk result (lines.new ≡ lines.old ++ (front.now ++ spec.dict_text pairs.now) ∷ []) }
{
    let text = dict_text(alloc, pairs)?;
    push_line(alloc, lines, front, &text)
}

/// The compact text of a Dict.
fn dict_text(alloc: Global, pairs: &Fields) -> Result<Text, NoMemory>
    ensures { IfOk result (λ text. text ≡ spec.dict_text pairs.now) }
{
    let tree = Tree::Dict(pairs.copy(alloc)?);
    let bytes = json_text(alloc, &tree)?;
    match str::from_utf8(bytes.as_slice()) {
        Ok(text) => Text::from_str(alloc, text),
        Err(_) => unreachable!(),
    }
}

/// The SHA-256 of lines, each ended by a line feed, in lower-case hexadecimal digits, which are a Name.
pub(crate) fn digest_name(alloc: Global, lines: &Texts) -> Result<Name, NoMemory>
    ensures { IfOk result (λ name. name ≡ spec.digest_text lines.now) }
{
    hex_name(alloc, digest_of(lines.as_slice()))
}

ghost use Rattle.hex.specs.Hex.{encode_lower};

fn hex_name(alloc: Global, digest: [u8; 32]) -> Result<Name, NoMemory>
    ensures { IfOk result (λ name. name ≡ encode_lower digest) }
{
    match Name::of(Text::of(hex::encode(alloc, digest.as_slice())?)) {
        Ok(name) => Ok(name),
        Err(_) => unreachable!(),
    }
}

fn digest_of(lines: &[Text]) -> [u8; 32]
    ensures { result ≡ sha256 (text_of_lines lines.now) }
{
    let mut hasher = Sha256::new();
    for line in lines {
        hasher.update(line.as_bytes());
        hasher.update(b"\n");
    }
    hasher.finalize()
}
