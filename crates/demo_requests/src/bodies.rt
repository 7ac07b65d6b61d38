//! The bodies that come with a demo's requests.
ghost use Rattle.std.specs.Prelude.{◌≡◌, IfOk};
ghost use Rattle.doc_tree.specs.Tree.{tree_of};
ghost use Rattle.demo_requests.specs.DemoRequests as spec;

use doc_tree::{Fields, NoMemory, Text, Tree};
use std::alloc::Global;

/// A dict of one key with a text.
fn one_text(alloc: Global, key: &str, value: Text) -> Result<Fields, NoMemory>
    ensures { IfOk result (λ fields. fields ≡ spec.one_text key.now value) }
{
    let mut fields = Fields::with_capacity(alloc, 1)?;
    fields.put(Text::from_str(alloc, key)?, Tree::Words(value))?;
    Ok(fields)
}

/// What is posted for a new organisation: its name.
pub(crate) fn named(alloc: Global, name: Text) -> Result<Tree, NoMemory>
    ensures { IfOk result (λ tree. tree ≡ tree_of (spec.named name)) }
{
    Ok(Tree::Dict(one_text(alloc, "name", name)?))
}

/// What is posted or put for a node: its name, and its tag among its automatic attributes.
pub(crate) fn tagged(alloc: Global, name: Text, tag: Text) -> Result<Tree, NoMemory>
    ensures { IfOk result (λ tree. tree ≡ tree_of (spec.tagged name tag)) }
{
    let automatic = one_text(alloc, "tag", tag)?;
    let mut fields = one_text(alloc, "name", name)?;
    fields.put(Text::from_str(alloc, "automatic")?, Tree::Dict(automatic))?;
    Ok(Tree::Dict(fields))
}
