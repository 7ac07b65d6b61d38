//! Stored revisions of policies.
ghost use Rattle.doc_tree.specs.Tree.{doc_of};
ghost use Rattle.std.specs.Prelude.{◌≡◌, IfOk};

use doc_tree::{NoMemory, Tree};
use policy_locks::Lock;
use shelves::Duplicate;
use std::alloc::Global;
use std::marker::Model;

/// A stored revision of a policy: the stored object of its lock. Contracts see that object's document.
#[derive(Drop)]
pub struct Revision {
    whole: Tree,
}

impl Model for Revision {
    ghost use Rattle.doc_tree.specs.Doc.{Doc};
    ghost use Rattle.doc_tree.specs.DocCode.{doc_code};

    ghost Value = { Doc };

    ghost coded = { doc_code };

    ghost use Rattle.doc_tree.specs.Tree.{doc_of};

    ghost view = { λ r. doc_of r.whole };
}

impl Revision {
    /// What is stored of a lock, which is moved. It takes no memory.
    pub fn of(lock: Lock) -> Revision
        ensures { result ≡ doc_of lock.whole }
    {
        let Lock { whole, .. } = lock;
        Revision { whole }
    }

    /// Its stored object.
    pub fn tree(&self) -> &Tree
        ensures { doc_of result.now ≡ self.now }
    {
        &self.whole
    }

    /// An equal revision of its own.
    pub fn copy(&self, alloc: Global) -> Result<Revision, NoMemory>
        ensures { IfOk result (λ revision. revision ≡ self.now) }
    {
        Ok(Revision {
            whole: self.whole.copy(alloc)?,
        })
    }
}

impl Duplicate for Revision {
    fn duplicate(&self, alloc: Global) -> Result<Revision, NoMemory> {
        self.copy(alloc)
    }
}
