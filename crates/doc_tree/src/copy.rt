//! Equal trees of their own.
ghost use Rattle.std.specs.Prelude.{◌≡◌, IfOk};

use crate::no_memory::NoMemory;
use crate::tree::{Field, Fields, Tree, Trees};
use std::alloc::Global;

impl Tree {
    /// An equal tree of its own.
    #[cycle(copy)]
    pub fn copy(&self, alloc: Global) -> Result<Tree, NoMemory>
        ensures { IfOk result (λ tree. tree ≡ self.now) }
    {
        match self {
            Tree::Null => Ok(Tree::Null),
            Tree::Bool(truth) => Ok(Tree::Bool(*truth)),
            Tree::Whole(number) => Ok(Tree::Whole(*number)),
            Tree::Words(text) => Ok(Tree::Words(text.copy(alloc)?)),
            Tree::List(trees) => Ok(Tree::List(trees.copy(alloc)?)),
            Tree::Dict(fields) => Ok(Tree::Dict(fields.copy(alloc)?)),
        }
    }
}

impl Trees {
    /// An equal list of its own.
    #[cycle(copy)]
    pub fn copy(&self, alloc: Global) -> Result<Trees, NoMemory>
        ensures { IfOk result (λ trees. trees ≡ self.now) }
    {
        let mut items = Vec::with_capacity(alloc, self.items.len())?;
        for tree in &self.items {
            items.push(tree.copy(alloc)?)?;
        }
        Ok(Trees { items })
    }
}

impl Fields {
    /// An equal dict of its own.
    #[cycle(copy)]
    pub fn copy(&self, alloc: Global) -> Result<Fields, NoMemory>
        ensures { IfOk result (λ fields. fields ≡ self.now) }
    {
        let mut entries = Vec::with_capacity(alloc, self.entries.len())?;
        for field in &self.entries {
            let key = field.key.copy(alloc)?;
            let tree = field.tree.copy(alloc)?;
            entries.push(Field { key, tree })?;
        }
        Ok(Fields { entries })
    }
}
