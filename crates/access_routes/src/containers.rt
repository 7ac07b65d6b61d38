//! The routes of containers: each organisation has the same twelve.

ghost use Rattle.std.specs.Prelude.{◌≡◌, Ok, IfOk, OnOk, map};
ghost use Rattle.access_lists.specs.Starting.{containers, name_of};
ghost use Rattle.doc_tree.specs.Doc.{words};
ghost use Rattle.doc_tree.specs.Part.{with_pair};
ghost use Rattle.doc_tree.specs.Tree.{doc_of};
ghost use Rattle.org_core.specs.Contexts.{seen};
ghost use Rattle.org_core.specs.Outcomes.{IsAsDecided, shows, tells};
ghost use Rattle.org_requests.specs.Refusals.{Tells};
ghost use Rattle.access_routes.specs.AccessRules as rules;
ghost use Rattle.access_routes.specs.Containers as spec;

use crate::operations::AccessOperation;
use access_lists::Container;
use doc_tree::{Fields, NoMemory, Text, Texts, Tree};
use org_core::{Context, Moves, Prepared, or_stop, prepared_showing};
use org_requests::{Refusal, Stop, Verb, org_uri, shown_paths};
use std::alloc::Global;

/// What is asked of all containers.
pub(crate) fn containers_asked(verb: Verb) -> Result<AccessOperation, Stop>
    ensures { Tells result (rules.containers_asked verb) }
{
    match verb {
        Verb::Get => Ok(AccessOperation::ListContainers),
        Verb::Post | Verb::Put | Verb::Delete | Verb::Other => {
            Err(Stop::Refused(Refusal::NotAllowed))
        }
    }
}

/// What is asked of a container.
pub(crate) fn container_asked(
    alloc: Global,
    name: &Text,
    verb: Verb,
) -> Result<AccessOperation, Stop>
    ensures { Tells result (rules.container_asked name.now verb) }
{
    match verb {
        Verb::Get => Ok(AccessOperation::ShowContainer(name.copy(alloc)?)),
        Verb::Post | Verb::Put | Verb::Delete | Verb::Other => {
            Err(Stop::Refused(Refusal::NotAllowed))
        }
    }
}

/// Whether there is no container of this name.
pub(crate) fn lacks_container(name: &Text) -> bool
    ensures { result ≡ spec.lacks_container name.now }
{
    Container::named(name.as_str()).is_none()
}

/// Each container's name with its path.
pub(crate) fn list(alloc: Global, context: Context<'_>) -> Result<Prepared, Stop>
    ensures { IsAsDecided result (spec.containers_listed (seen context.entry)).answer }
{
    or_stop(listed(alloc, context))
}

#[tactic(auto, using(crate::proofs::ContainersLemmas::names_rise))]
fn listed(alloc: Global, context: Context<'_>) -> Result<Prepared, NoMemory>
    ensures { IfOk result (λ p. IsAsDecided (Ok p) (spec.containers_listed (seen context.entry)).answer) }
{
    let front = Text::joined(alloc, org_uri(alloc, context.org)?.as_str(), "/containers/")?;
    let names = names(alloc)?;
    let reply = shown_paths(alloc, front.as_str(), names.as_slice())?;
    Ok(Prepared {
        reply,
        moves: Moves::new(alloc),
    })
}

/// The names of the containers.
fn names(alloc: Global) -> Result<Texts, NoMemory>
    ensures { IfOk result (λ names. names ≡ map name_of containers) }
{
    let mut names = Texts::new(alloc);
    for container in Container::all() {
        names.push(Text::from_str(alloc, container.name())?)?;
    }
    Ok(names)
}

/// A container is shown.
pub(crate) fn show(alloc: Global, name: Text) -> Result<Prepared, Stop>
    ensures { IsAsDecided result (tells (shows (spec.container_doc name))).answer }
{
    let tree = container_tree(alloc, &name)?;
    or_stop(prepared_showing(alloc, tree))
}

fn container_tree(alloc: Global, name: &Text) -> Result<Tree, NoMemory>
    ensures { IfOk result (λ tree. doc_of tree ≡ spec.container_doc name.now) }
{
    let mut fields = Fields::with_capacity(alloc, 2)?;
    put_text(alloc, &mut fields, "containername", name)?;
    put_text(alloc, &mut fields, "containerpath", name).and(Ok(Tree::Dict(fields)))
}

fn put_text(alloc: Global, fields: &mut Fields, key: &str, text: &Text) -> Result<(), NoMemory>
    ensures { OnOk result (fields.new ≡ with_pair key.now (words text.now) fields.old) }
{
    let text = text.copy(alloc)?;
    fields.put(Text::from_str(alloc, key)?, Tree::Words(text))
}
