//! What a plan needs of a host.
ghost use Rattle.std.specs.Prelude.{◌≡◌, option_copied};
ghost use Rattle.std.specs.List.{list_any};
ghost use Rattle.converge.specs.Needs as spec;
ghost use Rattle.host_acts.specs.Tasks.{is_acting};
ghost use Rattle.resource_core.specs.Plans.{IsSound};

use crate::outcome::Cap;
use host_tree::Caps;
use resource_core::{Action, Notification, Notifications, Resource, ResourceType, RunPlan};

/// What the plan needs and the host doesn't offer.
pub(crate) fn lacking(plan: &RunPlan, caps: Caps) -> Option<Cap>
    ensures lacking { result ≡ spec.lacking plan.now caps }
    ensures sound { IsSound plan.now }
{
    if needs_links(plan) && !caps.links {
        Some(Cap::Links)
    } else if needs_modes(plan) && !caps.modes {
        Some(Cap::Modes)
    } else {
        None
    }
}

fn needs_links(plan: &RunPlan) -> bool
    ensures needs { result ≡ spec.needs_links plan.now }
    ensures sound { IsSound plan.now }
{
    any_acts_on_link(plan.resources()) || any_fires_link(plan.resources(), plan.fires())
}

fn any_acts_on_link(resources: &[Resource]) -> bool
    ensures { result ≡ list_any spec.acts_on_link resources.now }
{
    for resource in resources {
        if is_link(resource.kind) && any_is_acting(resource.actions.as_slice()) {
            return true;
        }
    }
    false
}

fn any_is_acting(actions: &[Action]) -> bool
    ensures { result ≡ list_any is_acting actions.now }
{
    for action in actions {
        if acts(*action) {
            return true;
        }
    }
    false
}

fn acts(action: Action) -> bool
    ensures { result ≡ is_acting action }
{
    match action {
        Action::Create | Action::CreateIfMissing | Action::Delete => true,
        Action::Nothing => false,
    }
}

fn is_link(kind: ResourceType) -> bool
    ensures { result ≡ spec.is_link kind }
{
    match kind {
        ResourceType::File | ResourceType::Directory => false,
        ResourceType::Link => true,
    }
}

fn any_fires_link(resources: &[Resource], fires: &[Notifications]) -> bool
    ensures { result ≡ list_any (list_any (spec.fires_link resources.now)) fires.now }
{
    for fires in fires {
        if one_fires_link(resources, fires.as_slice()) {
            return true;
        }
    }
    false
}

fn one_fires_link(resources: &[Resource], fires: &[Notification]) -> bool
    ensures { result ≡ list_any (spec.fires_link resources.now) fires.now }
{
    for fire in fires {
        if fires_link(resources, *fire) {
            return true;
        }
    }
    false
}

fn fires_link(resources: &[Resource], fire: Notification) -> bool
    ensures { result ≡ spec.fires_link resources.now fire }
{
    acts(fire.action) && is_link_there(resources.get(fire.target))
}

fn is_link_there(resource: Option<&Resource>) -> bool
    ensures { result ≡ spec.is_link_there (option_copied resource.entry) }
{
    match resource {
        Some(resource) => is_link(resource.kind),
        None => false,
    }
}

fn needs_modes(plan: &RunPlan) -> bool
    ensures { result ≡ spec.needs_modes plan.now }
{
    for resource in plan.resources() {
        if !is_link(resource.kind) && resource.mode.is_some() {
            return true;
        }
    }
    false
}
