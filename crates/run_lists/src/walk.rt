//! The walk through run lists and the roles that they name, depth first, with a stack of its own.
ghost use Rattle.std.specs.Prelude.{◌≡◌, IfOk, OnOk, map, option_map, cond, false, Some};
ghost use Rattle.run_lists.specs.Visits.{Visits, is_among};
ghost use Rattle.run_lists.specs.Walk.{State, entered, ended, event_of, state_of, turned, visited, with_event};
ghost use Rattle.run_lists.specs.Roles.{run_list_in};

use crate::items::{Item, Items};
use crate::names::{Named, RecipeName};
use crate::roles::Roles;
use doc_tree::{Name, NoMemory};
use indexmap::IndexSet;
use std::alloc::Global;
use version_rules::Version;

/// A recipe that is to be run: its item, and the name and the version that the item gives.
#[derive(Clone, Copy)]
pub(crate) struct Run<'a> {
    pub(crate) item: &'a Item,
    pub(crate) name: &'a RecipeName,
    pub(crate) version: Option<Version>,
}

/// What happened on the way: a recipe is to be run, a role isn't there, or the visit of a role ends.
#[derive(Clone, Copy)]
pub(crate) enum Event<'a> {
    Run(Run<'a>),
    Missing(&'a Name),
    Leave(&'a Name),
}

/// A run list that is being visited: the role that it is of, and the items that are left.
#[derive(Clone, Copy)]
pub(crate) struct Frame<'a> {
    pub(crate) role: Option<&'a Name>,
    pub(crate) left: &'a [Item],
}

/// The roles that are met, the run lists that are being visited, the innermost last, and what was told.
#[derive(Drop)]
pub(crate) struct Walk<'a> {
    pub(crate) met: IndexSet<Name>,
    pub(crate) frames: Vec<Frame<'a>>,
    pub(crate) told: Vec<Event<'a>>,
}

/// What visiting these items tells.
pub(crate) fn told_of<'a>(
    alloc: Global,
    items: &'a Items,
    roles: &'a Roles,
    env: &Name,
) -> Result<Vec<Event<'a>>, NoMemory>
    ensures { IfOk result (λ told. Visits roles.now.entries env.now items.now (map event_of told.items)) }
{
    let mut walk = Walk {
        met: IndexSet::new(alloc),
        frames: Vec::new(alloc),
        told: Vec::new(alloc),
    };
    walk.frames.push(Frame {
        role: None,
        left: items.as_slice(),
    })?;
    while let Some(frame) = walk.frames.pop() {
        turn(alloc, &mut walk, frame, roles, env)?;
    }
    let Walk { told, .. } = walk;
    Ok(told)
}

// One turn at the innermost run list, which was taken off the stack.
fn turn<'a>(
    alloc: Global,
    walk: &mut Walk<'a>,
    frame: Frame<'a>,
    roles: &'a Roles,
    env: &Name,
) -> Result<(), NoMemory>
    ensures { OnOk result (state_of walk.new ≡ turned roles.now.entries env.now (option_map (λ r. r.now) frame.entry.role) frame.entry.left.now (state_of walk.old)) }
{
    match frame.left {
        [] => end(walk, frame.role),
        [item, left @ ..] => {
            let role = frame.role;
            walk.frames.push(Frame { role, left })?;
            visit(alloc, walk, item, roles, env)
        }
    }
}

fn end<'a>(walk: &mut Walk<'a>, role: Option<&'a Name>) -> Result<(), NoMemory>
    ensures { OnOk result (state_of walk.new ≡ ended (option_map (λ r. r.now) role.entry) (state_of walk.old)) }
{
    match role {
        None => Ok(()),
        Some(role) => tell(walk, Event::Leave(role)),
    }
}

fn tell<'a>(walk: &mut Walk<'a>, told: Event<'a>) -> Result<(), NoMemory>
    ensures { OnOk result (state_of walk.new ≡ with_event (event_of told.entry) (state_of walk.old)) }
{
    walk.told.push(told)?;
    Ok(())
}

fn visit<'a>(
    alloc: Global,
    walk: &mut Walk<'a>,
    item: &'a Item,
    roles: &'a Roles,
    env: &Name,
) -> Result<(), NoMemory>
    ensures { OnOk result (state_of walk.new ≡ visited roles.now.entries env.now item.now item.now.named (state_of walk.old)) }
{
    match item.named() {
        Named::Recipe(name, version) => {
            let version = *version;
            tell(
                walk,
                Event::Run(Run {
                    item,
                    name,
                    version,
                }),
            )
        }
        Named::Role(role) => visit_role(alloc, walk, role, roles, env),
    }
}

fn visit_role<'a>(
    alloc: Global,
    walk: &mut Walk<'a>,
    role: &'a Name,
    roles: &'a Roles,
    env: &Name,
) -> Result<(), NoMemory>
    ensures { OnOk result (state_of walk.new ≡ cond (is_among walk.old.met.keys role.now) (state_of walk.old) (entered role.now (run_list_in roles.now.entries env.now role.now) (state_of walk.old))) }
{
    if walk.met.contains(role) {
        return Ok(());
    }
    match roles.get(role) {
        None => tell(walk, Event::Missing(role)),
        Some(lists) => enter(alloc, walk, role, lists.list_for(env)),
    }
}

fn enter<'a>(
    alloc: Global,
    walk: &mut Walk<'a>,
    role: &'a Name,
    left: &'a [Item],
) -> Result<(), NoMemory>
    requires { is_among walk.old.met.keys role.now ≡ false }
    ensures { OnOk result (state_of walk.new ≡ entered role.now (Some left.now) (state_of walk.old)) }
{
    walk.met.insert(role.copy(alloc)?)?;
    let role = Some(role);
    walk.frames.push(Frame { role, left })?;
    Ok(())
}
