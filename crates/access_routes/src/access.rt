//! The group of the routes of groups, users, containers and access lists.

ghost use Rattle.std.specs.Prelude.{◌≡◌, IfOk};
ghost use Rattle.membership.specs.StartingGroups.{is_starting_group};
ghost use Rattle.org_requests.specs.Refusals.{refuses};
ghost use Rattle.access_routes.specs.AccessRules as spec;

use crate::operations::AccessOperation;
use crate::{containers, group_routes, lists, users};
use access_lists::Perm;
use doc_tree::{Kind, NoMemory, Steps, Text};
use membership::{MemberKind, is_starting_group};
use object_finder::Finder;
use org_core::{Context, Group, Lent, Need, Needs, Prepared, listed_need};
use org_requests::routes::AccessRoute;
use org_requests::{Refusal, Request, Stop, Verb};
use std::alloc::Global;
use std::sync::ledger::Ledger;

/// The group of the routes of groups, users, containers and access lists.
#[derive(Clone, Copy, Debug)]
pub struct Access;

impl Group for Access {
    ghost use Rattle.access_routes.specs.AccessRules.{access_rules};

    type Route = AccessRoute;

    type Operation = AccessOperation;

    ghost rules = { λ _. access_rules };

    fn operation<F: Finder>(
        &self,
        alloc: Global,
        _context: Context<'_>,
        _lent: &Lent<'_, F>,
        route: &AccessRoute,
        request: &Request,
    ) -> Result<AccessOperation, Stop> {
        let (verb, body) = (request.verb, &request.body);
        match route {
            AccessRoute::Groups => group_routes::groups_asked(alloc, verb, body),
            AccessRoute::Group(name) => group_routes::group_asked(alloc, name, verb, body),
            AccessRoute::Users => users::users_asked(alloc, verb, body),
            AccessRoute::User(name) => users::user_asked(alloc, name, verb),
            AccessRoute::Containers => containers::containers_asked(verb),
            AccessRoute::Container(name) => containers::container_asked(alloc, name, verb),
            AccessRoute::List(collection, name) => {
                lists::list_asked(alloc, collection, name, verb)
            }
            AccessRoute::Entry(collection, name, word) => {
                lists::entry_asked(alloc, collection, name, word, verb, body)
            }
        }
    }

    fn lacks<F: Finder>(
        &self,
        _alloc: Global,
        context: Context<'_>,
        _lent: &Lent<'_, F>,
        operation: &AccessOperation,
    ) -> Result<bool, NoMemory> {
        let state = context.state;
        Ok(match operation {
            AccessOperation::ListGroups
            | AccessOperation::CreateGroup(_)
            | AccessOperation::ListUsers
            | AccessOperation::CreateUser(_)
            | AccessOperation::ListContainers => false,
            AccessOperation::ShowGroup(name)
            | AccessOperation::ReplaceGroup(name, _)
            | AccessOperation::RemoveGroup(name) => group_routes::lacks_group(name, state),
            AccessOperation::ShowUser(name) | AccessOperation::RemoveUser(name) => {
                users::lacks_user(name, state)
            }
            AccessOperation::ShowContainer(name) => containers::lacks_container(name),
            AccessOperation::ShowList(key) | AccessOperation::ReplaceEntry(key, _, _) => {
                lists::lacks_list(key, state)
            }
        })
    }

    fn needs<F: Finder>(
        &self,
        alloc: Global,
        _context: Context<'_>,
        _lent: &Lent<'_, F>,
        operation: &AccessOperation,
    ) -> Result<Needs, NoMemory> {
        let mut needs = Needs::new(alloc);
        needs.push(needed(alloc, operation)?)?;
        Ok(needs)
    }

    fn own_refusal<F: Finder>(
        &self,
        alloc: Global,
        context: Context<'_>,
        _lent: &Lent<'_, F>,
        operation: &AccessOperation,
    ) -> Result<Option<Refusal>, NoMemory> {
        let state = context.state;
        match operation {
            AccessOperation::CreateGroup(name) => {
                Ok(exists(state.groups().has(MemberKind::Group, name)))
            }
            AccessOperation::ReplaceGroup(_, group) => group_routes::stranger(alloc, group, state),
            AccessOperation::RemoveGroup(name) => Ok(starting(name)),
            AccessOperation::CreateUser(name) => Ok(exists(state.groups().is_actor(name))),
            AccessOperation::ReplaceEntry(_, _, entry) => lists::stranger(alloc, entry, state),
            AccessOperation::ListGroups
            | AccessOperation::ShowGroup(_)
            | AccessOperation::ListUsers
            | AccessOperation::ShowUser(_)
            | AccessOperation::RemoveUser(_)
            | AccessOperation::ListContainers
            | AccessOperation::ShowContainer(_)
            | AccessOperation::ShowList(_) => Ok(None),
        }
    }

    fn does<F: Finder, L: Ledger>(
        &self,
        alloc: Global,
        context: Context<'_>,
        _lent: &Lent<'_, F>,
        operation: AccessOperation,
        _steps: &mut Steps<L>,
    ) -> Result<Prepared, Stop> {
        match operation {
            AccessOperation::ListGroups => group_routes::list(alloc, context),
            AccessOperation::CreateGroup(name) => group_routes::create(alloc, context, name),
            AccessOperation::ShowGroup(name) => group_routes::show(alloc, context, name),
            AccessOperation::ReplaceGroup(name, group) => {
                group_routes::replace(alloc, context, name, group)
            }
            AccessOperation::RemoveGroup(name) => group_routes::remove(alloc, context, name),
            AccessOperation::ListUsers => users::list(alloc, context),
            AccessOperation::CreateUser(name) => users::create(alloc, context, name),
            AccessOperation::ShowUser(name) => users::show(alloc, name),
            AccessOperation::RemoveUser(name) => users::remove(alloc, name),
            AccessOperation::ListContainers => containers::list(alloc, context),
            AccessOperation::ShowContainer(name) => containers::show(alloc, name),
            AccessOperation::ShowList(key) => lists::show(alloc, context, key),
            AccessOperation::ReplaceEntry(key, permission, entry) => {
                lists::replace(alloc, context, key, permission, entry)
            }
        }
    }
}

/// The permission that an operation needs.
fn needed(alloc: Global, operation: &AccessOperation) -> Result<Need, NoMemory>
    ensures { IfOk result (λ need. need ≡ spec.access_need operation.now) }
{
    match operation {
        AccessOperation::ListGroups => listed_need(alloc, Perm::Read, Kind::Container, "groups"),
        AccessOperation::CreateGroup(_) => listed_need(
            alloc,
            Perm::Create,
            Kind::Container,
            "groups",
        ),
        AccessOperation::ShowGroup(name) => listed_need(
            alloc,
            Perm::Read,
            Kind::Group,
            name.as_str(),
        ),
        AccessOperation::ReplaceGroup(name, _) => {
            listed_need(alloc, Perm::Update, Kind::Group, name.as_str())
        }
        AccessOperation::RemoveGroup(name) => {
            listed_need(alloc, Perm::Delete, Kind::Group, name.as_str())
        }
        AccessOperation::ListUsers | AccessOperation::ShowUser(_) => {
            listed_need(alloc, Perm::Read, Kind::Group, "users")
        }
        AccessOperation::CreateUser(_) | AccessOperation::RemoveUser(_) => {
            listed_need(alloc, Perm::Update, Kind::Group, "users")
        }
        AccessOperation::ListContainers => {
            listed_need(alloc, Perm::Read, Kind::Container, "containers")
        }
        AccessOperation::ShowContainer(name) => {
            listed_need(alloc, Perm::Read, Kind::Container, name.as_str())
        }
        AccessOperation::ShowList(key) | AccessOperation::ReplaceEntry(key, _, _) => {
            listed_need(alloc, Perm::Grant, key.kind, key.name.as_str())
        }
    }
}

/// 409 where what is to be created is there.
fn exists(is_there: bool) -> Option<Refusal>
    ensures { result ≡ refuses Refusal.AlreadyExists is_there }
{
    if is_there {
        Some(Refusal::AlreadyExists)
    } else {
        None
    }
}

/// 405 where the group is one with which every organisation starts.
fn starting(name: &Text) -> Option<Refusal>
    ensures { result ≡ refuses Refusal.NotAllowed (is_starting_group name.now) }
{
    if is_starting_group(name.as_str()) {
        Some(Refusal::NotAllowed)
    } else {
        None
    }
}
