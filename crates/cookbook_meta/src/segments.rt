//! The nine segments of a manifest.
ghost use Rattle.std.specs.Prelude.{◌≡◌, [], IfOk, Ok, map, option_map};
ghost use Rattle.doc_tree.specs.Doc.{docs_of, pairs_of};
ghost use Rattle.doc_tree.specs.Tree.{doc_of};
ghost use Rattle.cookbook_meta.specs.Entries.{with_entries};
ghost use Rattle.cookbook_meta.specs.Faults.{then_do};
ghost use Rattle.cookbook_meta.specs.Outcomes.{Finds, Gives};
ghost use Rattle.cookbook_meta.specs.Segments as spec;

use crate::entries::{Entries, Entry, entry_of, entry_tree};
use crate::fault::{Flaw, MetaFault, in_field};
use crate::gathered::Gathered;
use doc_tree::{Fields, NoMemory, Tree, Trees};
use std::alloc::Global;

static SEGMENTS: [&str; 9] = [
    "recipes",
    "definitions",
    "libraries",
    "attributes",
    "files",
    "templates",
    "resources",
    "providers",
    "root_files",
];

/// The segments, in the order in which they are looked at.
pub(crate) fn segments() -> &'static [&'static str]
    ensures { map (λ s. s.now) result.now ≡ spec.segments }
{
    &SEGMENTS
}

/// The entries of all segments of a body.
pub(crate) fn files_in(alloc: Global, body: &Fields) -> Result<Entries, MetaFault>
    ensures { Gives result (spec.with_segments spec.segments (pairs_of body.now) []) }
{
    let mut files = Gathered::none(alloc);
    for segment in segments() {
        let found = body.get(segment);
        in_field(
            alloc,
            segment,
            add_segment(alloc, segment, found, &mut files),
        )?;
    }
    Ok(files.into_entries())
}

/// Adds the entries of a segment behind these.
fn add_segment(
    alloc: Global,
    segment: &str,
    found: Option<&Tree>,
    files: &mut Gathered,
) -> Result<(), Flaw>
    ensures { Finds (then_do result (λ done. Ok files.new)) (spec.with_segment segment.now (option_map (λ t. doc_of t.now) found.entry) files.old) }
{
    match found {
        None => Ok(()),
        Some(tree) => add_list(alloc, segment, tree, files),
    }
}

fn add_list(alloc: Global, segment: &str, tree: &Tree, files: &mut Gathered) -> Result<(), Flaw>
    ensures { Finds (then_do result (λ done. Ok files.new)) (spec.with_list segment.now (doc_of tree.now) files.old) }
{
    match tree {
        Tree::List(trees) => add_entries(alloc, segment, trees, files),
        Tree::Null | Tree::Bool(_) | Tree::Whole(_) | Tree::Words(_) | Tree::Dict(_) => {
            Err(Flaw::WrongKind)
        }
    }
}

fn add_entries(
    alloc: Global,
    segment: &str,
    trees: &Trees,
    files: &mut Gathered,
) -> Result<(), Flaw>
    ensures { Finds (then_do result (λ done. Ok files.new)) (with_entries segment.now (docs_of trees.now) files.old) }
{
    for tree in trees.as_slice() {
        let entry = entry_of(alloc, segment, tree)?;
        files.add(alloc, entry)?;
    }
    Ok(())
}

/// The entries of a segment, as they are stored.
pub(crate) fn segment_trees(
    alloc: Global,
    segment: &str,
    files: &[Entry],
) -> Result<Trees, NoMemory>
    ensures { IfOk result (λ made. made ≡ spec.segment_docs segment.now files.now) }
{
    let mut made = Trees::with_capacity(alloc, count_in(segment, files))?;
    for entry in files {
        if is_in(segment, entry) {
            made.push(entry_tree(alloc, entry)?)?;
        }
    }
    Ok(made)
}

/// How many entries a segment has.
fn count_in(segment: &str, files: &[Entry]) -> usize {
    files.iter().filter(|entry| is_in(segment, *entry)).count()
}

fn is_in(segment: &str, entry: &Entry) -> bool
    ensures { result ≡ spec.is_in segment.now entry.now }
{
    segment == entry.segment.as_str()
}
