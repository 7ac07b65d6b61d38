//! The files below a folder, found among all.

ghost use Rattle.std.specs.Prelude.{◌≡◌, ◌≢◌, ◌||◌, [], List, ℕ, Some, false, bytes_eq, is_some, option_copied, IfOk, IfSome, IfNone, OnOk};
ghost use Rattle.std.specs.Map.{lookup};
ghost use Rattle.doc_tree.specs.Valid.{InOrder};
ghost use Rattle.outside_core.specs.Disk.{IsListing, folder_front, lists};
ghost use Rattle.outside_core.specs.Listing.{behind_front, is_named};
ghost use Rattle.outside_core.specs.MemoryDisk.{files_in};

use doc_tree::{Bytes, NoMemory, Text, Texts};
use indexmap::IndexMap;
use std::alloc::Global;

/// The files below a folder, in order and named from it, or `None` where there are none.
pub(crate) fn list_below(
    alloc: Global,
    files: &IndexMap<Text, Bytes>,
    folder: &Text,
) -> Result<Option<Texts>, NoMemory>
    ensures { IfOk result (IsListing (Some (files_in files.now.entries)) folder.now) }
{
    let names = in_order(names_below(alloc, files, folder)?);
    if names.is_empty() {
        return Ok(None);
    }
    Ok(Some(names))
}

/// Names in the order of their bytes and each once. They are put in order where they stand, which takes no memory.
pub(crate) fn in_order(names: Vec<Text>) -> Texts
    ensures order { InOrder result }
    ensures members { (name : List ℕ) → lists result name ≡ lists names.items name }
{
    let mut names = names;
    names.sort_unstable();
    names.dedup();
    Texts::of(names)
}

// The names of the files below a folder, as they come.
fn names_below(
    alloc: Global,
    files: &IndexMap<Text, Bytes>,
    folder: &Text,
) -> Result<Vec<Text>, NoMemory>
    ensures { IfOk result (λ names. (name : List ℕ) → lists names.items name ≡ is_some (lookup (is_named folder.now name) files.now.entries)) }
{
    let mut names = Vec::new(alloc);
    for (whole, _) in files {
        add_below(alloc, folder, whole, &mut names)?;
    }
    Ok(names)
}

// Adds the name that a file has below a folder, where it has one.
fn add_below(
    alloc: Global,
    folder: &Text,
    whole: &Text,
    names: &mut Vec<Text>,
) -> Result<(), NoMemory>
    ensures { OnOk result ((name : List ℕ) → lists names.new.items name ≡ (lists names.old.items name || is_named folder.now name whole.now)) }
{
    if let Some(name) = below(folder.as_str(), whole.as_str()) {
        names.push(Text::from_str(alloc, name)?)?;
    }
    Ok(())
}

// The name that a file has below a folder, where it has one.
fn below<'a>(folder: &str, whole: &'a str) -> Option<&'a str>
    ensures some { IfSome result (λ found. (name : List ℕ) → bytes_eq name found.now ≡ is_named folder.now name whole.now) }
    ensures none { IfNone result ((name : List ℕ) → is_named folder.now name whole.now ≡ false) }
{
    match behind_folder(folder, whole) {
        Some(name) => filled(name),
        None => None,
    }
}

// A name, unless it is empty.
fn filled(name: &str) -> Option<&str>
    ensures some { IfSome result (λ found. (found.now ≡ name.now) × (name.now ≢ [])) }
    ensures none { IfNone result (name.now ≡ []) }
{
    if name.is_empty() { None } else { Some(name) }
}

fn behind_folder<'a>(folder: &str, whole: &'a str) -> Option<&'a str>
    ensures { option_copied result ≡ behind_front (folder_front folder.now) whole.now }
{
    match behind(folder, whole) {
        Some(rest) => behind("/", rest),
        None => None,
    }
}

fn behind<'a>(front: &str, text: &'a str) -> Option<&'a str>
    ensures { option_copied result ≡ behind_front front.now text.now }
{
    text.strip_prefix(front)
}
