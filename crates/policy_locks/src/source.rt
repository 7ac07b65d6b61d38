//! What a lock is made of.
ghost use Rattle.std.specs.Prelude.{[], IfOk, Ok};
ghost use Rattle.doc_tree.specs.Doc.{pairs_of};
ghost use Rattle.doc_tree.specs.Tree.{doc_of};
ghost use Rattle.cookbook_meta.specs.Faults.{then_do};
ghost use Rattle.policy_locks.specs.Outcomes.{Gives};
ghost use Rattle.policy_locks.specs.Parts as parts;
ghost use Rattle.policy_locks.specs.Sources as spec;
ghost use Rattle.run_lists.specs.declared.reading.Allowed.TheVariants as allowed;
ghost use Rattle.std.specs.Prelude.{codes};

use crate::fault::{LockFault, bad_field, in_field};
use crate::fill::fill;
use crate::parts::needs_of;
use crate::reading::{dict_at, lists_at, name_at, run_list_at};
use dep_solver::EnvRules;
use doc_tree::{Fields, Name, NoMemory, Tree};
use run_lists::{Allowed, Items, NamedRunList, NamedRunLists};
use std::alloc::Global;
use version_rules::Needs;

/// What a lock is made of: the policy's name, its run list and named run lists, what is asked of the versions of
/// cookbooks, and its attributes. In a source that was read no run list holds a role, and the named run lists and the
/// rules on cookbooks stand in the byte order of their names.
#[derive(Drop)]
pub struct PolicySource {
    pub name: Name,
    pub run_list: Items,
    pub named_run_lists: NamedRunLists,
    pub cookbooks: EnvRules,
    pub default_attributes: Fields,
    pub override_attributes: Fields,
}

impl PolicySource {
    ghost use Rattle.std.specs.Prelude.{◌≡◌};

    /// An equal source of its own.
    pub fn copy(&self, alloc: Global) -> Result<PolicySource, NoMemory>
        ensures { IfOk result (λ source. source ≡ self.now) }
    {
        Ok(PolicySource {
            name: self.name.copy(alloc)?,
            run_list: copy_items(alloc, &self.run_list)?,
            named_run_lists: copy_lists(alloc, &self.named_run_lists)?,
            cookbooks: self.cookbooks.copy(alloc)?,
            default_attributes: self.default_attributes.copy(alloc)?,
            override_attributes: self.override_attributes.copy(alloc)?,
        })
    }

    /// A source of this name, whose other fields are empty. It takes no memory.
    fn empty(alloc: Global, name: Name) -> PolicySource
        ensures { result.name ≡ name }
    {
        PolicySource {
            name,
            run_list: Items::new(alloc),
            named_run_lists: NamedRunLists::new(alloc),
            cookbooks: EnvRules {
                rules: Needs::new(alloc),
            },
            default_attributes: Fields::new(alloc),
            override_attributes: Fields::new(alloc),
        }
    }
}

ghost use Rattle.std.specs.Prelude.{◌≡◌};

fn copy_items(alloc: Global, items: &Items) -> Result<Items, NoMemory>
    ensures { IfOk result (λ copies. copies ≡ items.now) }
{
    let mut copies = Items::new(alloc);
    for item in items.as_slice() {
        copies.push(item.copy(alloc)?)?;
    }
    Ok(copies)
}

fn copy_lists(alloc: Global, lists: &NamedRunLists) -> Result<NamedRunLists, NoMemory>
    ensures { IfOk result (λ copies. copies ≡ lists.now) }
{
    let mut copies = NamedRunLists::new(alloc);
    for named in lists.as_slice() {
        copies.push(copy_list(alloc, named)?)?;
    }
    Ok(copies)
}

fn copy_list(alloc: Global, named: &NamedRunList) -> Result<NamedRunList, NoMemory>
    ensures { IfOk result (λ copy. copy ≡ named.now) }
{
    Ok(NamedRunList {
        name: named.name.copy(alloc)?,
        run_list: copy_items(alloc, &named.run_list)?,
    })
}

/// The source of a lock that a body gives, looked at field by field: `name`, a Name; `run_list`, a list of items without
/// roles; `named_run_lists`, a Dict from Names to such lists, which may be missing; `cookbooks`, a Dict from Names to
/// constraints on versions, which may be missing; and `default_attributes` and `override_attributes`, Dicts which may be
/// missing. Other keys are passed over.
///
/// It is `BadField` exactly where a field hasn't its form, with the first in this order. What is no Dict fails as `name`
/// does.
pub fn read_source(alloc: Global, tree: &Tree) -> Result<PolicySource, LockFault>
    ensures source { Gives result (spec.source_from (doc_of tree.now)) }
    ensures order { IfOk result spec.IsInOrder }
{
    // The keys of each Dict are in order.
    tree.known();
    match tree {
        Tree::Dict(body) => source_in(alloc, body),
        Tree::Null | Tree::Bool(_) | Tree::Whole(_) | Tree::Words(_) | Tree::List(_) => {
            Err(bad_field(alloc, "name"))
        }
    }
}

fn source_in(alloc: Global, body: &Fields) -> Result<PolicySource, LockFault>
    ensures { Gives result (spec.source_in (pairs_of body.now)) }
{
    let name = name_at(alloc, "name", body)?;
    let mut source = PolicySource::empty(alloc, name);
    fill_source(alloc, body, &mut source)?;
    Ok(source)
}

/// Fills the fields of a source that stand behind its name.
fn fill_source(alloc: Global, body: &Fields, source: &mut PolicySource) -> Result<(), LockFault>
    ensures { Gives (then_do result (λ done. Ok source.new)) (then_do (parts.must parts.recipes_of (codes "run_list") (pairs_of body.now)) (λ run_list. then_do (parts.may [] (parts.named_run_lists allowed.Recipes) (codes "named_run_lists") (pairs_of body.now)) (λ lists. then_do (parts.may [] parts.needs_of (codes "cookbooks") (pairs_of body.now)) (λ cookbooks. then_do (parts.may [] parts.dict_of (codes "default_attributes") (pairs_of body.now)) (λ default. then_do (parts.may [] parts.dict_of (codes "override_attributes") (pairs_of body.now)) (λ override. Ok (record { name = source.old.name; run_list = run_list; named_run_lists = lists; cookbooks = record { rules = cookbooks }; default_attributes = default; override_attributes = override }))))))) }
{
    fill(
        &mut source.run_list,
        run_list_at(alloc, Allowed::Recipes, body),
    )?;
    fill(
        &mut source.named_run_lists,
        lists_at(alloc, Allowed::Recipes, body),
    )?;
    fill(&mut source.cookbooks.rules, rules_at(alloc, body))?;
    fill(
        &mut source.default_attributes,
        dict_at(alloc, "default_attributes", body),
    )?;
    fill(
        &mut source.override_attributes,
        dict_at(alloc, "override_attributes", body),
    )?;
    Ok(())
}

fn rules_at(alloc: Global, body: &Fields) -> Result<Needs, LockFault>
    ensures { Gives result (parts.may [] parts.needs_of (codes "cookbooks") (pairs_of body.now)) }
{
    let found = match body.get("cookbooks") {
        Some(tree) => needs_of(alloc, tree)?,
        None => Some(Needs::new(alloc)),
    };
    in_field(alloc, "cookbooks", found)
}
