//! Which base a list is likely to share.
ghost use Rattle.std.specs.Prelude.{◌<◌};

use crate::key::Key;
use access_lists::Container;
use doc_tree::Kind;

/// The base with which each container's list was put in last, and that of the list that was put in last:
/// the list of a new object is that of its container, with who created it. What is told is a guess,
/// since a base may have gone.
#[derive(Clone, Copy, Drop)]
pub(crate) struct Near {
    containers: [usize; 12],
    last: usize,
}

impl Near {
    pub(crate) fn none() -> Near {
        Near {
            containers: [0; 12],
            last: 0,
        }
    }

    /// The base of the list of the container of this kind, where objects of the kind have one.
    pub(crate) fn of_container(&self, kind: Kind) -> usize {
        match container_of(kind) {
            Some(container) => self.containers[place_of(container)],
            None => self.last,
        }
    }

    /// The base with which a list was put in last.
    pub(crate) fn last(&self) -> usize {
        self.last
    }

    /// The list of this key is put in with this base.
    pub(crate) fn note(&mut self, key: &Key, base: usize) {
        self.last = base;
        if !key.is_of(Kind::Container) {
            return;
        }
        if let Some(container) = Container::named(key.name.as_str()) {
            self.containers[place_of(container)] = base;
        }
    }
}

// The container in which objects of this kind are created.
fn container_of(kind: Kind) -> Option<Container> {
    match kind {
        Kind::Node => Some(Container::Nodes),
        Kind::Role => Some(Container::Roles),
        Kind::Environment => Some(Container::Environments),
        Kind::Bag => Some(Container::Data),
        Kind::Client => Some(Container::Clients),
        Kind::Group => Some(Container::Groups),
        Kind::Container => Some(Container::Containers),
        Kind::Cookbook => Some(Container::Cookbooks),
        Kind::Artifact => Some(Container::CookbookArtifacts),
        Kind::Policy => Some(Container::Policies),
        Kind::PolicyGroup => Some(Container::PolicyGroups),
        Kind::Sandbox => Some(Container::Sandboxes),
        Kind::Org | Kind::User | Kind::Item | Kind::Acl | Kind::File => None,
    }
}

fn place_of(container: Container) -> usize
    ensures { result < 12 }
{
    match container {
        Container::Clients => 0,
        Container::Containers => 1,
        Container::CookbookArtifacts => 2,
        Container::Cookbooks => 3,
        Container::Data => 4,
        Container::Environments => 5,
        Container::Groups => 6,
        Container::Nodes => 7,
        Container::Policies => 8,
        Container::PolicyGroups => 9,
        Container::Roles => 10,
        Container::Sandboxes => 11,
    }
}
