//! The routes of an organisation as a whole.

ghost use Rattle.std.specs.Prelude.{◌≡◌, [], ◌∷◌, ◌++◌, map, Ok, IfOk, OnOk};
ghost use Rattle.membership.specs.StartingGroups.{starting_groups};
ghost use Rattle.access_lists.specs.Starting.{containers};
ghost use Rattle.doc_tree.specs.Doc.{words, dict, no_pairs};
ghost use Rattle.doc_tree.specs.Part.{with_pair};
ghost use Rattle.org_core.specs.Contexts.{seen};
ghost use Rattle.org_core.specs.Outcomes.{IsAsDecided};
ghost use Rattle.org_requests.specs.Refusals.{Tells};
ghost use Rattle.object_routes.specs.Organisations as spec;
ghost use Rattle.doc_tree.specs.Tree.{doc_of};

use crate::operations::OrganisationOperation;
use access_lists::{Container, starting_list};
use doc_tree::{Fields, Kind, NoMemory, Steps, Text, Tree};
use membership::Group as AGroup;
use object_finder::Finder;
use org_core::{
    Context, Group, GroupMembers, Lent, Move, Moves, Need, Needs, Perm, Prepared, Stored,
    create_by, key_of,
};
use org_requests::routes::OrganisationRoute;
use org_requests::{Refusal, Request, Stop, Verb, org_uri, shown_key};
use std::alloc::Global;
use std::hash::RandomState;
use std::sync::ledger::Ledger;

/// The group of the routes of an organisation as a whole.
#[derive(Clone, Copy, Debug)]
pub struct Organisations;

impl Group for Organisations {
    ghost use Rattle.object_routes.specs.Organisations.{organisation_rules};

    type Route = OrganisationRoute;

    type Operation = OrganisationOperation;

    ghost rules = { λ _. organisation_rules };

    fn operation<F: Finder>(
        &self,
        _alloc: Global,
        _context: Context<'_>,
        _lent: &Lent<'_, F>,
        route: &OrganisationRoute,
        request: &Request,
    ) -> Result<OrganisationOperation, Stop> {
        asked(*route, request.verb)
    }

    fn lacks<F: Finder>(
        &self,
        _alloc: Global,
        _context: Context<'_>,
        _lent: &Lent<'_, F>,
        operation: &OrganisationOperation,
    ) -> Result<bool, NoMemory> {
        match operation {
            OrganisationOperation::Create | OrganisationOperation::Show => Ok(false),
        }
    }

    fn needs<F: Finder>(
        &self,
        alloc: Global,
        _context: Context<'_>,
        _lent: &Lent<'_, F>,
        operation: &OrganisationOperation,
    ) -> Result<Needs, NoMemory> {
        let mut needs = Needs::new(alloc);
        match operation {
            OrganisationOperation::Create => needs.push(Need::Operator(Perm::Create))?,
            OrganisationOperation::Show => {}
        }
        Ok(needs)
    }

    fn own_refusal<F: Finder>(
        &self,
        _alloc: Global,
        context: Context<'_>,
        _lent: &Lent<'_, F>,
        operation: &OrganisationOperation,
    ) -> Result<Option<Refusal>, NoMemory> {
        match operation {
            OrganisationOperation::Create if context.state.is_there() => {
                Ok(Some(Refusal::AlreadyExists))
            }
            OrganisationOperation::Create | OrganisationOperation::Show => Ok(None),
        }
    }

    fn does<F: Finder, L: Ledger>(
        &self,
        alloc: Global,
        context: Context<'_>,
        _lent: &Lent<'_, F>,
        operation: OrganisationOperation,
        _steps: &mut Steps<L>,
    ) -> Result<Prepared, Stop> {
        Ok(match operation {
            OrganisationOperation::Create => create(alloc, context)?,
            OrganisationOperation::Show => show(alloc, context)?,
        })
    }
}

fn asked(route: OrganisationRoute, verb: Verb) -> Result<OrganisationOperation, Stop>
    ensures { Tells result (spec.organisation_asked route verb) }
{
    match (route, verb) {
        (OrganisationRoute::Create, Verb::Post) => Ok(OrganisationOperation::Create),
        (OrganisationRoute::Whole, Verb::Get) => Ok(OrganisationOperation::Show),
        _ => Err(Stop::Refused(Refusal::NotAllowed)),
    }
}

fn create(alloc: Global, context: Context<'_>) -> Result<Prepared, NoMemory>
    ensures { IfOk result (λ p. IsAsDecided (Ok p) (spec.organisation_does (seen context.entry) OrganisationOperation.Create).answer) }
{
    let path = org_uri(alloc, context.org)?;
    create_by(alloc, path, creation(alloc, context.state.hasher())?)
}

fn show(alloc: Global, context: Context<'_>) -> Result<Prepared, NoMemory>
    ensures { IfOk result (λ p. IsAsDecided (Ok p) (spec.organisation_does (seen context.entry) OrganisationOperation.Show).answer) }
{
    let name = Tree::Words(context.org.copy(alloc)?);
    let reply = shown_key(alloc, "name", name)?;
    Ok(Prepared {
        reply,
        moves: Moves::new(alloc),
    })
}

/// The moves that create an organisation.
fn creation(alloc: Global, hasher: RandomState) -> Result<Moves, NoMemory>
    ensures { IfOk result (λ moves. moves ≡ spec.creation) }
{
    let mut moves = Moves::new(alloc);
    moves.push(Move::Open)?;
    add_default_environment(alloc, &mut moves)?;
    add_containers(alloc, &mut moves)?;
    add_groups(alloc, hasher, &mut moves)?;
    add_lists_of_groups(alloc, &mut moves)?;
    Ok(moves)
}

/// Adds the moves by which the environment `_default` comes, with its access list.
#[tactic(auto, using(crate::proofs::AppendLemmas::two_behind))]
fn add_default_environment(alloc: Global, moves: &mut Moves) -> Result<(), NoMemory>
    ensures { OnOk result (moves.new ≡ moves.old ++ spec.starts_default) }
{
    moves.push(default_comes(alloc)?)?;
    moves.push(default_list(alloc)?)
}

fn default_comes(alloc: Global) -> Result<Move, NoMemory>
    ensures { IfOk result (λ one. one ≡ spec.default_comes) }
{
    let key = key_of(alloc, Kind::Environment, "_default")?;
    let object = Stored::of(alloc, default_environment(alloc)?)?;
    Ok(Move::Put(key, object))
}

fn default_list(alloc: Global) -> Result<Move, NoMemory>
    ensures { IfOk result (λ one. one ≡ spec.default_list) }
{
    let key = key_of(alloc, Kind::Environment, "_default")?;
    Ok(Move::PutList(key, starting_list(alloc, Container::Environments)?))
}

/// Adds the moves by which each container starts with its access list.
fn add_containers(alloc: Global, moves: &mut Moves) -> Result<(), NoMemory>
    ensures { OnOk result (moves.new ≡ moves.old ++ map spec.starts_container containers) }
{
    for container in Container::all() {
        let key = key_of(alloc, Kind::Container, container.name())?;
        moves.push(Move::PutList(key, starting_list(alloc, container)?))?;
    }
    Ok(())
}

/// Adds the moves by which the starting groups come, of which each has nobody at first.
fn add_groups(alloc: Global, hasher: RandomState, moves: &mut Moves) -> Result<(), NoMemory>
    ensures { OnOk result (moves.new ≡ moves.old ++ map spec.starts_group starting_groups) }
{
    add_two_groups(alloc, hasher, "admins", "billing-admins", moves)?;
    add_two_groups(alloc, hasher, "clients", "users", moves)
}

#[tactic(auto, using(crate::proofs::AppendLemmas::two_behind))]
fn add_two_groups(
    alloc: Global,
    hasher: RandomState,
    one: &str,
    other: &str,
    moves: &mut Moves,
) -> Result<(), NoMemory>
    ensures { OnOk result (moves.new ≡ moves.old ++ (spec.starts_group one.now ∷ spec.starts_group other.now ∷ [])) }
{
    moves.push(starts_group(alloc, hasher, one)?)?;
    moves.push(starts_group(alloc, hasher, other)?)
}

fn starts_group(alloc: Global, hasher: RandomState, name: &str) -> Result<Move, NoMemory>
    ensures { IfOk result (λ one. one ≡ spec.starts_group name.now) }
{
    let nobody = GroupMembers::of(AGroup::with(alloc, hasher, &[], &[], &[])?);
    Ok(Move::PutGroup(Text::from_str(alloc, name)?, nobody))
}

/// Adds the moves by which each starting group has the access list of the container of groups.
fn add_lists_of_groups(alloc: Global, moves: &mut Moves) -> Result<(), NoMemory>
    ensures { OnOk result (moves.new ≡ moves.old ++ map spec.starts_list starting_groups) }
{
    add_two_lists(alloc, "admins", "billing-admins", moves)?;
    add_two_lists(alloc, "clients", "users", moves)
}

#[tactic(auto, using(crate::proofs::AppendLemmas::two_behind))]
fn add_two_lists(alloc: Global, one: &str, other: &str, moves: &mut Moves) -> Result<(), NoMemory>
    ensures { OnOk result (moves.new ≡ moves.old ++ (spec.starts_list one.now ∷ spec.starts_list other.now ∷ [])) }
{
    moves.push(starts_list(alloc, one)?)?;
    moves.push(starts_list(alloc, other)?)
}

fn starts_list(alloc: Global, name: &str) -> Result<Move, NoMemory>
    ensures { IfOk result (λ one. one ≡ spec.starts_list name.now) }
{
    let list = starting_list(alloc, Container::Groups)?;
    Ok(Move::PutList(key_of(alloc, Kind::Group, name)?, list))
}

/// The environment that every organisation has, with the default of each field.
fn default_environment(alloc: Global) -> Result<Tree, NoMemory>
    ensures { IfOk result (λ tree. doc_of tree ≡ spec.default_environment) }
{
    let mut fields = Fields::with_capacity(alloc, 7)?;
    put_text(alloc, &mut fields, "name", "_default")?;
    put_text(alloc, &mut fields, "chef_type", "environment")?;
    put_text(alloc, &mut fields, "json_class", "Chef::Environment")?;
    put_text(alloc, &mut fields, "description", "")?;
    put_empty(alloc, &mut fields, "cookbook_versions")?;
    put_empty(alloc, &mut fields, "default_attributes")?;
    put_empty(alloc, &mut fields, "override_attributes")?;
    Ok(Tree::Dict(fields))
}

fn put_text(alloc: Global, fields: &mut Fields, key: &str, text: &str) -> Result<(), NoMemory>
    ensures { OnOk result (fields.new ≡ with_pair key.now (words text.now) fields.old) }
{
    let text = Text::from_str(alloc, text)?;
    fields.put(Text::from_str(alloc, key)?, Tree::Words(text))
}

fn put_empty(alloc: Global, fields: &mut Fields, key: &str) -> Result<(), NoMemory>
    ensures { OnOk result (fields.new ≡ with_pair key.now (dict no_pairs) fields.old) }
{
    fields.put(Text::from_str(alloc, key)?, Tree::Dict(Fields::new(alloc)))
}
