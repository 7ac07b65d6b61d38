//! The kinds of what an organisation keeps.
ghost use Rattle.doc_tree.specs.Kind.{word_of};
ghost use Rattle.std.specs.Prelude.{◌≡◌};

/// A kind of object, or of what is kept beside the objects: one for each word of the stored rows.
#[derive(Clone, Copy, Debug, PartialEq, Eq, PartialOrd, Ord, Hash)]
pub enum Kind {
    /// The organisation itself.
    Org,
    /// A node: a machine that is managed.
    Node,
    /// A role.
    Role,
    /// An environment.
    Environment,
    /// A data bag.
    Bag,
    /// An API client.
    Client,
    /// A user.
    User,
    /// A group.
    Group,
    /// A container.
    Container,
    /// An item of a data bag, by the bag's name, a slash and its own.
    Item,
    /// A version of a cookbook.
    Cookbook,
    /// A cookbook artifact.
    Artifact,
    /// A revision of a policy.
    Policy,
    /// A policy group.
    PolicyGroup,
    /// An access list.
    Acl,
    /// A sandbox.
    Sandbox,
    /// A file.
    File,
}

impl Kind {
    /// The word that stands for the kind.
    pub fn word(self) -> &'static str
        ensures { result.now ≡ word_of self }
    {
        match self {
            Kind::Org => "org",
            Kind::Node => "node",
            Kind::Role => "role",
            Kind::Environment => "environment",
            Kind::Bag => "bag",
            Kind::Client => "client",
            Kind::User => "user",
            Kind::Group => "group",
            Kind::Container => "container",
            Kind::Item => "item",
            Kind::Cookbook => "cookbook",
            Kind::Artifact => "artifact",
            Kind::Policy => "policy",
            Kind::PolicyGroup => "policy_group",
            Kind::Acl => "acl",
            Kind::Sandbox => "sandbox",
            Kind::File => "file",
        }
    }
}
