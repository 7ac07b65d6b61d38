//! Names of an entry that an organisation doesn't have.
ghost use Rattle.std.specs.Prelude.{◌≡◌, not, position};
ghost use Rattle.membership.specs.Actors.{has, is_actor};
ghost use Rattle.access_lists.specs.Strangers as spec;

use crate::acl::Entry;
use doc_tree::Text;
use membership::{Groups, MemberKind};

/// A name that an organisation doesn't have: its position in its list of an entry, counted from 0.
#[derive(Clone, Copy, Debug, PartialEq, Eq, Drop)]
pub enum Stranger {
    /// Of an actor.
    Actor(usize),
    /// Of a group.
    Group(usize),
}

/// The first actor of an entry that is neither a user nor a client of the organisation nor
/// `pivotal`, or else the first group that it hasn't; `None` exactly where there is no such name.
/// It takes no memory.
pub fn first_stranger(groups: &Groups, entry: &Entry) -> Option<Stranger>
    ensures { result ≡ spec.first_stranger groups.now.membership entry.now }
{
    match strange_actor(groups, entry.actors.as_slice()) {
        Some(position) => Some(Stranger::Actor(position)),
        None => match strange_group(groups, entry.groups.as_slice()) {
            Some(position) => Some(Stranger::Group(position)),
            None => None,
        },
    }
}

fn strange_actor(groups: &Groups, actors: &[Text]) -> Option<usize>
    ensures { result ≡ position (λ name. not (is_actor groups.now.membership name)) actors.now }
{
    actors.iter().position(|name| !groups.is_actor(name))
}

fn strange_group(groups: &Groups, listed: &[Text]) -> Option<usize>
    ensures { result ≡ position (λ name. not (has groups.now.membership MemberKind.Group name)) listed.now }
{
    listed
        .iter()
        .position(|name| !groups.has(MemberKind::Group, name))
}
