//! What an action of a resource needs of a host.
ghost use Rattle.std.specs.Prelude.{◌≡◌};
ghost use Rattle.host_acts.specs.Tasks as spec;

use host_tree::Caps;
use resource_core::{Action, Resource, ResourceType};

/// What a resource needs of a host where this action of it is to be done: links for an action of a link other than
/// `nothing`, and modes where a file or directory states a mode, whatever the action.
pub fn needs_of(resource: &Resource, action: Action) -> Caps
    ensures { result ≡ spec.needs resource.now action }
{
    match resource.kind {
        ResourceType::File | ResourceType::Directory => Caps {
            links: false,
            modes: resource.mode.is_some(),
        },
        ResourceType::Link => Caps {
            links: is_acting(action),
            modes: false,
        },
    }
}

fn is_acting(action: Action) -> bool
    ensures { result ≡ spec.is_acting action }
{
    match action {
        Action::Create | Action::CreateIfMissing | Action::Delete => true,
        Action::Nothing => false,
    }
}
