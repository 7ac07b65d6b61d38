//! Laws.
ghost use Rattle.std.specs.Prelude.{◌≡◌, ◌↔◌, ℕ, List, Some, IsTrue};
ghost use Rattle.membership.specs.Members.{Membership as AMembership};
ghost use Rattle.access_lists.specs.declared.acl.Acl.{Acl as AnAcl};
ghost use Rattle.access_lists.specs.declared.acl.Entry.{Entry as AnEntry};
ghost use Rattle.access_lists.specs.Permitted.{Permitted, is_permitted};
ghost use Rattle.access_lists.specs.Forms.{acl_doc, acl_in, IsAcl};

/// The document of an access list is read as that access list. That the lists of its entries rise is
/// kept by their type.
pub fn access_lists_read_back()
    ensures { (acl : AnAcl) → IsAcl acl → acl_in (acl_doc acl) ≡ Some acl }
{}

/// `is_permitted` is the truth value of `Permitted`.
pub fn permission_is_decided()
    ensures { (membership : AMembership) → (entry : AnEntry) → (caller : List ℕ) → IsTrue (is_permitted membership entry caller) ↔ Permitted membership entry caller }
{}
