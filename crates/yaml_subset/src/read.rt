//! Reading a tree from YAML text.
ghost use Rattle.doc_tree.specs.Tree.{doc_of};
ghost use Rattle.std.specs.Prelude.{◌≡◌, IfErr, IfOk};
ghost use Rattle.yaml_subset.specs.Spells.{IsFault, Spells, kind_of};

use crate::fault::{FaultKind, YamlFault};
use crate::reader::{Reader, end_of, first_reader, read_step};
use crate::said::{is_left_out, value_of};
use crate::signs::{has_tab, is_marker};
use doc_tree::{NoMemory, Text, Tree};
use std::alloc::Global;

fn kind_of(alloc: Global, line: &[u8]) -> Result<FaultKind, NoMemory>
    ensures { IfOk result (λ kind. kind ≡ kind_of line.now) }
{
    if has_tab(line) {
        return Ok(FaultKind::Tab);
    }
    if is_marker(line) || is_left_out(value_of(alloc, line)?) {
        Ok(FaultKind::LeftOut)
    } else {
        Ok(FaultKind::Form)
    }
}

/// Reads the tree that a text of YAML 1.2.2 spells, in the subset of this crate: block and flow lists and maps,
/// literals, plain and quoted scalars with the core schema, comments and `---`. Lists and maps nest at most 100 deep.
///
/// It is `Refused` exactly where the text spells no tree. Then `line` is the least number of lines with which the text
/// spells none, and `kind` says what is wrong with the last of these. Reading takes no recursion that a text deepens.
pub fn read_yaml(alloc: Global, text: &Text) -> Result<Tree, YamlFault>
    ensures tree { IfOk result (λ tree. Spells text.now (doc_of tree)) }
    ensures fault { IfErr result (λ fault. IsFault text.now fault) }
{
    let mut reader = first_reader();
    let mut count = 0usize;
    for line in text.as_str().lines() {
        let line = line.as_bytes();
        count += 1;
        if !read_step(alloc, line, &mut reader)? {
            let kind = kind_of(alloc, line)?;
            return Err(YamlFault::Refused { line: count, kind });
        }
    }
    match end_of(alloc, reader)? {
        Some(document) => Ok(document.into_tree()),
        // What was read can always end.
        None => unreachable!(),
    }
}
