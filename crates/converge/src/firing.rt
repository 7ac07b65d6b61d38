//! What is to be performed at once, or queued: the own actions of a plan, and what each update fires.
ghost use Rattle.std.specs.Prelude.{◌≡◌, ◌++◌, IfOk, OnOk, map, reverse, option_copied};
ghost use Rattle.converge.specs.Pairs as spec;
ghost use Rattle.resource_core.specs.declared.types.ResourceType.TheVariants as kind;

use doc_tree::NoMemory;
use notify_queue::Pair;
use resource_core::{Action, Notification, Resource, ResourceType, RunPlan, Timer};
use std::alloc::Global;

/// A pair that is to be performed at once, or queued.
#[derive(Clone, Copy, Drop)]
pub(crate) enum Fire {
    Now(Pair),
    Later(Pair),
}

/// The own actions of a plan, the first of them last.
pub(crate) fn own_fires(alloc: Global, plan: &RunPlan) -> Result<Vec<Fire>, NoMemory>
    ensures { IfOk result (λ todo. todo.items ≡ reverse (spec.own_fires plan.now)) }
{
    let mut todo = Vec::new(alloc);
    add_own(plan.resources(), &mut todo)?;
    todo.reverse();
    Ok(todo)
}

fn add_own(resources: &[Resource], todo: &mut Vec<Fire>) -> Result<(), NoMemory>
    ensures { OnOk result (todo.new.items ≡ todo.old.items ++ map spec.now_of (spec.own_from 0 resources.now)) }
{
    for (place, resource) in resources.iter().enumerate() {
        add_actions(place, resource, resource.actions.as_slice(), todo)?;
    }
    Ok(())
}

fn add_actions(
    place: usize,
    resource: &Resource,
    actions: &[Action],
    todo: &mut Vec<Fire>,
) -> Result<(), NoMemory>
    ensures { OnOk result (todo.new.items ≡ todo.old.items ++ map spec.now_of (map (spec.pair_of place resource.now) actions.now)) }
{
    for action in actions {
        todo.push(own_fire(place, resource, *action))?;
    }
    Ok(())
}

fn own_fire(place: usize, resource: &Resource, action: Action) -> Fire
    ensures { result ≡ spec.now_of (spec.pair_of place resource.now action) }
{
    Fire::Now(Pair {
        resource: place,
        action: place_in(resource.kind, action),
    })
}

/// Puts what the update by a pair fires behind what is to be done, the first of it last.
pub(crate) fn push_fires(plan: &RunPlan, pair: Pair, todo: &mut Vec<Fire>) -> Result<(), NoMemory>
    ensures { OnOk result (todo.new.items ≡ todo.old.items ++ reverse (spec.fires_of plan.now pair)) }
{
    match plan.fires().get(pair.resource) {
        Some(fires) => push_reversed(plan, fires.as_slice(), todo),
        None => Ok(()),
    }
}

fn push_reversed(
    plan: &RunPlan,
    fires: &[Notification],
    todo: &mut Vec<Fire>,
) -> Result<(), NoMemory>
    ensures { OnOk result (todo.new.items ≡ todo.old.items ++ reverse (map (spec.fire_of plan.now.resources) fires.now)) }
{
    let mut left = fires.len();
    while left > 0 {
        left -= 1;
        todo.push(fire_of(plan, fires[left]))?;
    }
    Ok(())
}

fn fire_of(plan: &RunPlan, notification: Notification) -> Fire
    ensures { result ≡ spec.fire_of plan.now.resources notification }
{
    let pair = Pair {
        resource: notification.target,
        action: place_on(
            plan.resources().get(notification.target),
            notification.action,
        ),
    };
    match notification.timer {
        Timer::Immediately => Fire::Now(pair),
        Timer::Delayed => Fire::Later(pair),
    }
}

fn place_on(resource: Option<&Resource>, action: Action) -> u8
    ensures { result ≡ spec.place_on (option_copied resource.entry) action }
{
    match resource {
        Some(resource) => place_in(resource.kind, action),
        None => 0,
    }
}

/// The place of an action among those of a type, or their number where the type lacks it.
fn place_in(kind: ResourceType, action: Action) -> u8
    ensures { result ≡ spec.place_in kind action }
{
    match kind {
        ResourceType::File => place_of_file(action),
        ResourceType::Directory | ResourceType::Link => place_of_other(action),
    }
}

fn place_of_file(action: Action) -> u8
    ensures { result ≡ spec.place_in kind.File action }
{
    match action {
        Action::Create => 0,
        Action::CreateIfMissing => 1,
        Action::Delete => 2,
        Action::Nothing => 3,
    }
}

fn place_of_other(action: Action) -> u8
    ensures directory { result ≡ spec.place_in kind.Directory action }
    ensures link { result ≡ spec.place_in kind.Link action }
{
    match action {
        Action::Create => 0,
        Action::Delete => 1,
        Action::Nothing => 2,
        Action::CreateIfMissing => 3,
    }
}
