//! The group of the routes of cookbooks, sandboxes and files.

ghost use Rattle.std.specs.Prelude.{◌≡◌, IfOk};
ghost use Rattle.org_core.specs.Contexts.{seen};
ghost use Rattle.cookbook_routes.specs.CookbookRules as spec;

use crate::operations::CookbookOperation;
use crate::{
    file_routes, listing_routes, sandbox_routes, solving_routes, universe_routes, version_routes,
};
use access_lists::Perm;
use doc_tree::{Kind, NoMemory, Steps};
use object_finder::Finder;
use org_core::{Context, Group, Lent, Need, Needs, Prepared, listed_need};
use org_requests::routes::CookbookRoute;
use org_requests::{Refusal, Request, Stop};
use std::alloc::Global;
use std::sync::ledger::Ledger;

/// The group of the routes of cookbooks, sandboxes and files.
#[derive(Clone, Copy, Debug)]
pub struct Cookbooks;

impl Group for Cookbooks {
    ghost use Rattle.cookbook_routes.specs.CookbookRules.{cookbook_rules};

    type Route = CookbookRoute;

    type Operation = CookbookOperation;

    ghost rules = { λ _. cookbook_rules };

    fn operation<F: Finder>(
        &self,
        alloc: Global,
        _context: Context<'_>,
        _lent: &Lent<'_, F>,
        route: &CookbookRoute,
        request: &Request,
    ) -> Result<CookbookOperation, Stop> {
        let (verb, body) = (request.verb, &request.body);
        match route {
            CookbookRoute::Sandboxes => sandbox_routes::sandboxes_asked(alloc, verb, body),
            CookbookRoute::Sandbox(id) => sandbox_routes::sandbox_asked(alloc, id, verb, body),
            CookbookRoute::File(sum) => file_routes::file_asked(alloc, sum, verb, body),
            CookbookRoute::Cookbooks => {
                listing_routes::cookbooks_asked(alloc, verb, request.parameters.as_slice())
            }
            CookbookRoute::Cookbook(name) => listing_routes::cookbook_asked(alloc, name, verb),
            CookbookRoute::Version(name, version) => {
                let parameters = request.parameters.as_slice();
                version_routes::version_asked(alloc, name, version, verb, parameters, body)
            }
            CookbookRoute::Universe => universe_routes::universe_asked(verb),
            CookbookRoute::SolvedVersions(environment) => {
                solving_routes::solving_asked(alloc, environment, verb, body)
            }
        }
    }

    fn lacks<F: Finder>(
        &self,
        _alloc: Global,
        context: Context<'_>,
        _lent: &Lent<'_, F>,
        operation: &CookbookOperation,
    ) -> Result<bool, NoMemory> {
        Ok(match operation {
            CookbookOperation::BeginSandbox(_) => false,
            CookbookOperation::CommitSandbox(id) => sandbox_routes::lacks_sandbox(context, id),
            CookbookOperation::Upload(sum, _) => file_routes::is_awaited_by_none(context, sum),
            CookbookOperation::ShowFile(sum) => file_routes::lacks_file(context, sum),
            CookbookOperation::ListCookbooks(_) => false,
            CookbookOperation::ListVersions(name) => version_routes::lacks_cookbook(context, name),
            CookbookOperation::ShowVersion(name, wanted) => {
                version_routes::lacks_wanted(context, name, *wanted)
            }
            CookbookOperation::PutVersion(_, _, _, _) => false,
            CookbookOperation::RemoveVersion(name, version) => {
                version_routes::lacks_version(context, name, *version)
            }
            CookbookOperation::ShowUniverse => false,
            CookbookOperation::SolveVersions(environment, _) => {
                solving_routes::lacks_environment(context, environment)
            }
        })
    }

    fn needs<F: Finder>(
        &self,
        alloc: Global,
        context: Context<'_>,
        _lent: &Lent<'_, F>,
        operation: &CookbookOperation,
    ) -> Result<Needs, NoMemory> {
        let mut needs = Needs::new(alloc);
        if let CookbookOperation::SolveVersions(environment, _) = operation {
            needs.push(solving_routes::environment_need(alloc, environment)?)?;
        }
        needs.push(needed(alloc, context, operation)?)?;
        Ok(needs)
    }

    fn own_refusal<F: Finder>(
        &self,
        alloc: Global,
        context: Context<'_>,
        _lent: &Lent<'_, F>,
        operation: &CookbookOperation,
    ) -> Result<Option<Refusal>, NoMemory> {
        match operation {
            CookbookOperation::CommitSandbox(id) => {
                sandbox_routes::missing_refusal(alloc, context, id)
            }
            CookbookOperation::Upload(sum, file) => Ok(file_routes::digest_refusal(sum, file)),
            CookbookOperation::PutVersion(name, version, edition, forced) => {
                version_routes::put_refusal(alloc, context, name, *version, edition, *forced)
            }
            CookbookOperation::BeginSandbox(_)
            | CookbookOperation::ShowFile(_)
            | CookbookOperation::ListCookbooks(_)
            | CookbookOperation::ListVersions(_)
            | CookbookOperation::ShowVersion(_, _)
            | CookbookOperation::RemoveVersion(_, _)
            | CookbookOperation::ShowUniverse
            | CookbookOperation::SolveVersions(_, _) => Ok(None),
        }
    }

    fn does<F: Finder, L: Ledger>(
        &self,
        alloc: Global,
        context: Context<'_>,
        lent: &Lent<'_, F>,
        operation: CookbookOperation,
        steps: &mut Steps<L>,
    ) -> Result<Prepared, Stop> {
        match operation {
            CookbookOperation::BeginSandbox(sums) => sandbox_routes::begin(alloc, context, sums),
            CookbookOperation::CommitSandbox(id) => sandbox_routes::commit(alloc, context, id),
            CookbookOperation::Upload(sum, file) => file_routes::upload(alloc, sum, file),
            CookbookOperation::ShowFile(sum) => file_routes::show(alloc, context, sum),
            CookbookOperation::ListCookbooks(count) => {
                listing_routes::list_cookbooks(alloc, context, count)
            }
            CookbookOperation::ListVersions(name) => {
                listing_routes::list_versions(alloc, context, name)
            }
            CookbookOperation::ShowVersion(name, wanted) => {
                version_routes::show(alloc, context, name, wanted, steps)
            }
            CookbookOperation::PutVersion(name, version, edition, _) => {
                version_routes::put(alloc, context, name, version, edition, steps)
            }
            CookbookOperation::RemoveVersion(name, version) => {
                version_routes::remove(alloc, context, name, version, steps)
            }
            CookbookOperation::ShowUniverse => {
                universe_routes::show_universe(alloc, context, steps)
            }
            CookbookOperation::SolveVersions(environment, roots) => {
                let hint = lent.hint;
                solving_routes::solve_versions(alloc, context, hint, &environment, &roots, steps)
            }
        }
    }
}

/// The permission that an operation needs.
fn needed(
    alloc: Global,
    context: Context<'_>,
    operation: &CookbookOperation,
) -> Result<Need, NoMemory>
    ensures { IfOk result (λ need. need ≡ spec.cookbook_need (seen context.entry) operation.now) }
{
    match operation {
        CookbookOperation::BeginSandbox(_) | CookbookOperation::Upload(_, _) => {
            listed_need(alloc, Perm::Create, Kind::Container, "sandboxes")
        }
        CookbookOperation::CommitSandbox(_) => {
            listed_need(alloc, Perm::Update, Kind::Container, "sandboxes")
        }
        CookbookOperation::ShowFile(_)
        | CookbookOperation::ListCookbooks(_)
        | CookbookOperation::ShowUniverse
        | CookbookOperation::SolveVersions(_, _) => {
            listed_need(alloc, Perm::Read, Kind::Container, "cookbooks")
        }
        CookbookOperation::ListVersions(name) | CookbookOperation::ShowVersion(name, _) => {
            listed_need(alloc, Perm::Read, Kind::Cookbook, name.as_str())
        }
        CookbookOperation::PutVersion(name, _, _, _) => {
            version_routes::put_need(alloc, context, name)
        }
        CookbookOperation::RemoveVersion(name, _) => {
            listed_need(alloc, Perm::Delete, Kind::Cookbook, name.as_str())
        }
    }
}
