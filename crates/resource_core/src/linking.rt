//! What the update of each resource fires.
ghost use Rattle.std.specs.Prelude.{◌≡◌, ◌++◌, [], IfOk, Ok, OnOk};
ghost use Rattle.resource_core.specs.Drafts.{titles};
ghost use Rattle.resource_core.specs.Links as spec;
ghost use Rattle.resource_core.specs.Linking.{links_by, with_fire};
ghost use Rattle.resource_core.specs.Outcomes.{Gives, Leaves, then_do};
ghost use Rattle.resource_core.specs.Titles.{HasFirsts};

use crate::drafting::Drafts;
use crate::entries::Entry;
use crate::fault::{CompileFault, no_such_resource};
use crate::links::{Heard, Notification, Notifications};
use crate::resources::Resource;
use doc_tree::{NoMemory, Text};
use std::alloc::Global;

/// What each resource fires by its `notifies`, and what is heard by `subscribes`.
#[derive(Drop)]
pub(crate) struct Links {
    pub(crate) own: Vec<Notifications>,
    pub(crate) heard: Vec<Heard>,
}

/// What each of these resources fires: what it notifies, in order, and then what its subscribers hear, in plan order.
pub(crate) fn fires_of(alloc: Global, drafts: &Drafts) -> Result<Vec<Notifications>, CompileFault>
    requires { HasFirsts (titles drafts.now.resources.items) drafts.now.firsts }
    ensures { Gives (λ fires. fires.items) result (spec.fires_of drafts.now.resources.items) }
{
    let links = links_of(alloc, drafts)?;
    let Links { own, heard } = links;
    Ok(with_heard(own, &heard)?)
}

fn links_of(alloc: Global, drafts: &Drafts) -> Result<Links, CompileFault>
    requires { HasFirsts (titles drafts.now.resources.items) drafts.now.firsts }
    ensures { Gives links_by result (spec.links drafts.now.resources.items drafts.now.resources.items (record { own = []; all_heard = [] })) }
{
    let mut links = Links {
        own: Vec::new(alloc),
        heard: Vec::new(alloc),
    };
    for resource in &drafts.resources {
        link(alloc, drafts, resource, &mut links)?;
    }
    Ok(links)
}

fn link(
    alloc: Global,
    drafts: &Drafts,
    resource: &Resource,
    links: &mut Links,
) -> Result<(), CompileFault>
    requires { HasFirsts (titles drafts.now.resources.items) drafts.now.firsts }
    ensures { Leaves result (links_by links.new) (spec.link drafts.now.resources.items resource.now (links_by links.old)) }
{
    let place = links.own.len();
    let own = fired_by(alloc, drafts, place, resource.notifies.as_slice())?;
    hear(
        alloc,
        drafts,
        place,
        resource.subscribes.as_slice(),
        &mut links.heard,
    )?;
    links.own.push(own)?;
    Ok(())
}

/// What a resource fires by its `notifies`.
fn fired_by(
    alloc: Global,
    drafts: &Drafts,
    place: usize,
    entries: &[Entry],
) -> Result<Notifications, CompileFault>
    requires { HasFirsts (titles drafts.now.resources.items) drafts.now.firsts }
    ensures { Gives (λ fires. fires) result (spec.each_entry (spec.fired drafts.now.resources.items) place entries.now) }
{
    let mut fires = Notifications::new(alloc);
    for entry in entries {
        match fired(drafts, entry) {
            Some(fire) => fires.push(fire)?,
            None => return Err(no_such_resource(alloc, place, &entry.resource)),
        }
    }
    Ok(fires)
}

/// Puts what a resource hears by its `subscribes` behind what others hear.
fn hear(
    alloc: Global,
    drafts: &Drafts,
    place: usize,
    entries: &[Entry],
    all: &mut Vec<Heard>,
) -> Result<(), CompileFault>
    requires { HasFirsts (titles drafts.now.resources.items) drafts.now.firsts }
    ensures { Leaves result all.new.items (then_do (spec.each_entry (spec.heard drafts.now.resources.items place) place entries.now) (λ more. Ok (all.old.items ++ more))) }
{
    for entry in entries {
        match heard(drafts, place, entry) {
            Some(heard) => all.push(heard)?,
            None => return Err(no_such_resource(alloc, place, &entry.resource)),
        }
    }
    Ok(())
}

fn action_on(drafts: &Drafts, entry: &Entry, place: usize) -> Option<Notification>
    ensures { result ≡ spec.action_on drafts.now.resources.items entry.now place }
{
    let Some(resource) = drafts.resources.get(place) else {
        return None;
    };
    match resource.kind.action_named(entry.action.as_str()) {
        Some(action) => Some(Notification {
            action,
            target: place,
            timer: entry.timer,
        }),
        None => None,
    }
}

fn meant(drafts: &Drafts, title: &Text) -> Option<usize>
    requires { HasFirsts (titles drafts.now.resources.items) drafts.now.firsts }
    ensures { result ≡ spec.meant drafts.now.resources.items title.now }
{
    drafts.firsts.get(title).copied()
}

fn fired(drafts: &Drafts, entry: &Entry) -> Option<Notification>
    requires { HasFirsts (titles drafts.now.resources.items) drafts.now.firsts }
    ensures { result ≡ spec.fired drafts.now.resources.items entry.now }
{
    match meant(drafts, &entry.resource) {
        Some(target) => action_on(drafts, entry, target),
        None => None,
    }
}

fn heard(drafts: &Drafts, place: usize, entry: &Entry) -> Option<Heard>
    requires { HasFirsts (titles drafts.now.resources.items) drafts.now.firsts }
    ensures { result ≡ spec.heard drafts.now.resources.items place entry.now }
{
    let Some(by) = meant(drafts, &entry.resource) else {
        return None;
    };
    match action_on(drafts, entry, place) {
        Some(fire) => Some(Heard { by, fire }),
        None => None,
    }
}

/// What each resource fires by its `notifies`, and behind that what is heard of it.
fn with_heard(own: Vec<Notifications>, heard: &[Heard]) -> Result<Vec<Notifications>, NoMemory>
    ensures { IfOk result (λ fires. fires.items ≡ spec.fires_from 0 own.items heard.now) }
{
    let mut fires = own;
    for one in heard {
        add_heard(&mut fires, *one)?;
    }
    Ok(fires)
}

fn add_heard(fires: &mut Vec<Notifications>, heard: Heard) -> Result<(), NoMemory>
    ensures { OnOk result (fires.new.items ≡ with_fire heard fires.old.items) }
{
    if heard.by < fires.len() {
        fires[heard.by].push(heard.fire)?;
    }
    Ok(())
}
