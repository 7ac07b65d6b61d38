//! Plans, and how recipes are compiled to one.
ghost use Rattle.std.specs.Prelude.{◌≡◌, ◌++◌, ◌∷◌, [], IfOk, OnOk, if◌then◌else◌, length};
ghost use Rattle.resource_core.specs.Drafts.{titles};
ghost use Rattle.resource_core.specs.Plans as spec;
ghost use Rattle.resource_core.specs.Resources.{title_of};
ghost use Rattle.resource_core.specs.Settling.{IsResolved, Settles, kept};

use crate::created::created_in;
use crate::depths::{Order, order_of};
use crate::drafting::{Drafts, drafts_of};
use crate::entries::Timer;
use crate::fault::CompileFault;
use crate::graph::Places;
use crate::linking::fires_of;
use crate::links::Notifications;
use crate::recipes::{Recipes, all_resources};
use crate::resources::Resource;
use attr_merge::Merged;
use doc_tree::{NoMemory, Texts};
use std::alloc::Global;
use std::marker::Model;

/// A plan: resources in order, with what the update of each fires and how deep each lies. Contracts see these three
/// lists.
///
/// By its type, each own action and each that is fired is one of its resource's type, each target is there, a link with
/// `create` as an own or fired action has `to`, and whatever a resource fires at once lies less deep than it.
#[derive(Drop)]
pub struct RunPlan {
    resources: Vec<Resource>,
    fires: Vec<Notifications>,
    depths: Vec<usize>,
}

impl Model for RunPlan {
    ghost use Rattle.resource_core.specs.Plans.{IsSound, Planned};

    ghost Value = { Planned };

    ghost view = { λ p. record { resources = p.resources.items; fires = p.fires.items; depths = p.depths.items } };

    ghost invariant = { λ p. IsSound (record { resources = p.resources.items; fires = p.fires.items; depths = p.depths.items }) };
}

impl RunPlan {
    /// Its resources, in plan order.
    pub fn resources(&self) -> &[Resource]
        ensures value { result.now ≡ self.now.resources }
        ensures sound { spec.IsSound self.now }
    {
        self.resources.as_slice()
    }

    /// What the update of each resource fires, in order: what it notifies, and then those that subscribe to it.
    pub fn fires(&self) -> &[Notifications]
        ensures value { result.now ≡ self.now.fires }
        ensures sound { spec.IsSound self.now }
    {
        self.fires.as_slice()
    }

    /// How deep each resource lies: deeper than whatever it fires at once.
    pub fn depths(&self) -> &[usize]
        ensures value { result.now ≡ self.now.depths }
        ensures sound { spec.IsSound self.now }
    {
        self.depths.as_slice()
    }
}

/// Compiles recipes over merged attributes: their resources in order, with texts filled in and defaults, or the first
/// fault.
///
/// A fault of a resource by itself is looked for resource by resource, in the order type, actions, properties, values,
/// attributes, path; then a notification without its resource, in plan order; then cycles of immediate notifications. It
/// isn't recursive.
pub fn compile(alloc: Global, recipes: &Recipes, merged: &Merged) -> Result<RunPlan, CompileFault>
    requires { spec.AreRecipes recipes.now }
    ensures { spec.Compiles recipes.now merged.now.document result }
{
    let all = all_resources(alloc, recipes)?;
    let created = created_in(alloc, &all)?;
    let drafts = drafts_of(alloc, &all, merged, &created)?;
    let fires = fires_of(alloc, &drafts)?;
    let Drafts { resources, .. } = drafts;
    settled(alloc, resources, fires)
}

/// The plan of these resources, or the fault of their cycles.
fn settled(
    alloc: Global,
    resources: Vec<Resource>,
    fires: Vec<Notifications>,
) -> Result<RunPlan, CompileFault>
    requires { IsResolved resources.items fires.items }
    ensures { Settles resources.items fires.items result }
{
    let nexts = nexts_of(alloc, &fires)?;
    match order_of(alloc, &nexts)? {
        Order::Depths(depths) => Ok(RunPlan {
            resources,
            fires,
            depths,
        }),
        Order::Cycles(cycles) => Err(CompileFault::ImmediateCycle(names_of(
            alloc, &resources, &cycles,
        )?)),
    }
}

/// Where immediate notifications lead from each resource.
fn nexts_of(alloc: Global, fires: &[Notifications]) -> Result<Vec<Places>, NoMemory>
    ensures { IfOk result (λ nexts. nexts.items ≡ spec.nexts fires.now) }
{
    let mut nexts = Vec::with_capacity(alloc, fires.len())?;
    for fires in fires {
        nexts.push(immediate(alloc, fires)?)?;
    }
    Ok(nexts)
}

fn immediate(alloc: Global, fires: &Notifications) -> Result<Places, NoMemory>
    ensures { IfOk result (λ places. places ≡ spec.nexts_of fires.now) }
{
    let mut places = Places::new(alloc);
    for fire in fires.as_slice() {
        if matches!(fire.timer, Timer::Immediately) {
            places.push(fire.target)?;
        }
    }
    Ok(places)
}

/// The titles of the resources whose flag is set, in order.
fn names_of(alloc: Global, resources: &[Resource], flags: &[bool]) -> Result<Texts, NoMemory>
    requires { length resources.now ≡ length flags.now }
    ensures { IfOk result (λ names. names ≡ kept flags.now (titles resources.now)) }
{
    let mut names = Texts::new(alloc);
    for place in 0..resources.len() {
        add_name(alloc, &mut names, &resources[place], flags[place])?;
    }
    Ok(names)
}

fn add_name(
    alloc: Global,
    names: &mut Texts,
    resource: &Resource,
    flag: bool,
) -> Result<(), NoMemory>
    ensures { OnOk result (names.new ≡ (if flag then names.old ++ title_of resource.now ∷ [] else names.old)) }
{
    if flag {
        names.push(resource.title(alloc)?)?;
    }
    Ok(())
}
