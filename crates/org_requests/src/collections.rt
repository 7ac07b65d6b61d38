//! The collections of objects that have one shape.

ghost use Rattle.std.specs.Prelude.{◌≡◌};
ghost use Rattle.org_requests.specs.Collections as spec;

use access_lists::Container;
use doc_tree::Kind;

/// A collection whose objects are listed, created, read, replaced and removed by one rule.
#[derive(Clone, Copy, Debug, PartialEq, Eq)]
pub enum Collection {
    /// `nodes`
    Nodes,
    /// `roles`
    Roles,
    /// `environments`
    Environments,
    /// `clients`
    Clients,
}

impl Collection {
    /// The kind of its objects.
    pub fn kind(self) -> Kind
        ensures { result ≡ spec.kind_in self }
    {
        match self {
            Collection::Nodes => Kind::Node,
            Collection::Roles => Kind::Role,
            Collection::Environments => Kind::Environment,
            Collection::Clients => Kind::Client,
        }
    }

    /// The segment of a path that names it.
    pub fn segment(self) -> &'static str
        ensures { result.now ≡ spec.segment_of self }
    {
        match self {
            Collection::Nodes => "nodes",
            Collection::Roles => "roles",
            Collection::Environments => "environments",
            Collection::Clients => "clients",
        }
    }

    /// The container of its objects, whose name is the segment.
    pub fn container(self) -> Container
        ensures { result ≡ spec.container_of self }
    {
        match self {
            Collection::Nodes => Container::Nodes,
            Collection::Roles => Container::Roles,
            Collection::Environments => Container::Environments,
            Collection::Clients => Container::Clients,
        }
    }
}
