//! Permissions.
ghost use Rattle.std.specs.Prelude.{◌≡◌};
ghost use Rattle.access_lists.specs.Acls.{word_of};

/// What may be done to an object, where its access list lets the caller.
#[derive(Clone, Copy, Debug, PartialEq, Eq, Drop)]
pub enum Perm {
    /// To create an object in a container.
    Create,
    /// To read the object.
    Read,
    /// To change it.
    Update,
    /// To delete it.
    Delete,
    /// To change its access list.
    Grant,
}

impl Perm {
    /// The word of the permission, as it stands in paths, bodies and refusals.
    pub fn word(self) -> &'static str
        ensures { result.now ≡ word_of self }
    {
        match self {
            Perm::Create => "create",
            Perm::Read => "read",
            Perm::Update => "update",
            Perm::Delete => "delete",
            Perm::Grant => "grant",
        }
    }
}
