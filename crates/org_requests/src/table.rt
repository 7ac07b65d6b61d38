//! The table of routes: each path, with the methods that it has and the route that it is.

ghost use Rattle.std.specs.Prelude.{◌≡◌, map};
ghost use Rattle.org_requests.specs.Table as spec;

use crate::collections::Collection;
use crate::routes::{
    AccessRouteOf, CookbookRouteOf, DataRouteOf, ObjectsRouteOf, OrganisationRoute, PolicyRouteOf,
    RouteOf, SearchRouteOf,
};
use crate::verbs::Verb;

/// A row of the table of routes.
#[derive(Clone, Copy, Debug)]
pub struct Row {
    /// The pattern of the path, in which `{name}` stands for one segment of any text.
    pub pattern: &'static str,
    /// The methods that the path has.
    pub methods: &'static [Verb],
    /// The route that it is, by the numbers of the segments that have its names; segment 1 is the
    /// organisation's name. `None` where the path is of no organisation.
    pub route: Option<RouteOf<usize>>,
}

impl Row {
    /// Whether the path has this method.
    pub fn has_method(&self, verb: Verb) -> bool
        ensures { result ≡ spec.lists (spec.target_of self.now).methods verb }
    {
        lists(self.methods, verb)
    }
}

// Whether a method is among these.
fn lists(methods: &[Verb], verb: Verb) -> bool
    ensures { result ≡ spec.lists methods.now verb }
{
    for own in methods {
        if *own == verb {
            return true;
        }
    }
    false
}

// A row, by its columns: pattern, methods and route.
macro_rules! row {
    ($pattern:literal, [$($method:ident),*] => $route:expr) => {
        Row {
            pattern: $pattern,
            methods: &[$(Verb::$method),*],
            route: $route,
        }
    };
}

/// The table of routes.
pub static ROUTES: [Row; 60] = [
    row!("/organizations", [Get, Post] => None),
    row!("/organizations/{org}", [Get] => Some(RouteOf::Organisation(OrganisationRoute::Whole))),
    row!("/organizations/{org}/nodes", [Get, Post] => Some(RouteOf::Objects(Collection::Nodes, ObjectsRouteOf::All))),
    row!("/organizations/{org}/roles", [Get, Post] => Some(RouteOf::Objects(Collection::Roles, ObjectsRouteOf::All))),
    row!("/organizations/{org}/environments", [Get, Post] => Some(RouteOf::Objects(Collection::Environments, ObjectsRouteOf::All))),
    row!("/organizations/{org}/clients", [Get, Post] => Some(RouteOf::Objects(Collection::Clients, ObjectsRouteOf::All))),
    row!("/organizations/{org}/groups", [Get, Post] => Some(RouteOf::Access(AccessRouteOf::Groups))),
    row!("/organizations/{org}/nodes/{name}", [Get, Put, Delete] => Some(RouteOf::Objects(Collection::Nodes, ObjectsRouteOf::One(3)))),
    row!("/organizations/{org}/roles/{name}", [Get, Put, Delete] => Some(RouteOf::Objects(Collection::Roles, ObjectsRouteOf::One(3)))),
    row!("/organizations/{org}/environments/{name}", [Get, Put, Delete] => Some(RouteOf::Objects(Collection::Environments, ObjectsRouteOf::One(3)))),
    row!("/organizations/{org}/clients/{name}", [Get, Put, Delete] => Some(RouteOf::Objects(Collection::Clients, ObjectsRouteOf::One(3)))),
    row!("/organizations/{org}/groups/{name}", [Get, Put, Delete] => Some(RouteOf::Access(AccessRouteOf::Group(3)))),
    row!("/organizations/{org}/users", [Get, Post] => Some(RouteOf::Access(AccessRouteOf::Users))),
    row!("/organizations/{org}/users/{name}", [Get, Delete] => Some(RouteOf::Access(AccessRouteOf::User(3)))),
    row!("/organizations/{org}/containers", [Get] => Some(RouteOf::Access(AccessRouteOf::Containers))),
    row!("/organizations/{org}/containers/{name}", [Get] => Some(RouteOf::Access(AccessRouteOf::Container(3)))),
    row!("/organizations/{org}/nodes/{name}/_acl", [Get] => Some(RouteOf::Access(AccessRouteOf::List(2, 3)))),
    row!("/organizations/{org}/roles/{name}/_acl", [Get] => Some(RouteOf::Access(AccessRouteOf::List(2, 3)))),
    row!("/organizations/{org}/environments/{name}/_acl", [Get] => Some(RouteOf::Access(AccessRouteOf::List(2, 3)))),
    row!("/organizations/{org}/clients/{name}/_acl", [Get] => Some(RouteOf::Access(AccessRouteOf::List(2, 3)))),
    row!("/organizations/{org}/groups/{name}/_acl", [Get] => Some(RouteOf::Access(AccessRouteOf::List(2, 3)))),
    row!("/organizations/{org}/containers/{name}/_acl", [Get] => Some(RouteOf::Access(AccessRouteOf::List(2, 3)))),
    row!("/organizations/{org}/data/{name}/_acl", [Get] => Some(RouteOf::Access(AccessRouteOf::List(2, 3)))),
    row!("/organizations/{org}/cookbooks/{name}/_acl", [Get] => Some(RouteOf::Access(AccessRouteOf::List(2, 3)))),
    row!("/organizations/{org}/cookbook_artifacts/{name}/_acl", [Get] => Some(RouteOf::Access(AccessRouteOf::List(2, 3)))),
    row!("/organizations/{org}/policies/{name}/_acl", [Get] => Some(RouteOf::Access(AccessRouteOf::List(2, 3)))),
    row!("/organizations/{org}/policy_groups/{name}/_acl", [Get] => Some(RouteOf::Access(AccessRouteOf::List(2, 3)))),
    row!("/organizations/{org}/nodes/{name}/_acl/{permission}", [Put] => Some(RouteOf::Access(AccessRouteOf::Entry(2, 3, 5)))),
    row!("/organizations/{org}/roles/{name}/_acl/{permission}", [Put] => Some(RouteOf::Access(AccessRouteOf::Entry(2, 3, 5)))),
    row!("/organizations/{org}/environments/{name}/_acl/{permission}", [Put] => Some(RouteOf::Access(AccessRouteOf::Entry(2, 3, 5)))),
    row!("/organizations/{org}/clients/{name}/_acl/{permission}", [Put] => Some(RouteOf::Access(AccessRouteOf::Entry(2, 3, 5)))),
    row!("/organizations/{org}/groups/{name}/_acl/{permission}", [Put] => Some(RouteOf::Access(AccessRouteOf::Entry(2, 3, 5)))),
    row!("/organizations/{org}/containers/{name}/_acl/{permission}", [Put] => Some(RouteOf::Access(AccessRouteOf::Entry(2, 3, 5)))),
    row!("/organizations/{org}/data/{name}/_acl/{permission}", [Put] => Some(RouteOf::Access(AccessRouteOf::Entry(2, 3, 5)))),
    row!("/organizations/{org}/cookbooks/{name}/_acl/{permission}", [Put] => Some(RouteOf::Access(AccessRouteOf::Entry(2, 3, 5)))),
    row!("/organizations/{org}/cookbook_artifacts/{name}/_acl/{permission}", [Put] => Some(RouteOf::Access(AccessRouteOf::Entry(2, 3, 5)))),
    row!("/organizations/{org}/policies/{name}/_acl/{permission}", [Put] => Some(RouteOf::Access(AccessRouteOf::Entry(2, 3, 5)))),
    row!("/organizations/{org}/policy_groups/{name}/_acl/{permission}", [Put] => Some(RouteOf::Access(AccessRouteOf::Entry(2, 3, 5)))),
    row!("/organizations/{org}/data", [Get, Post] => Some(RouteOf::Data(DataRouteOf::Bags))),
    row!("/organizations/{org}/data/{bag}", [Get, Post, Delete] => Some(RouteOf::Data(DataRouteOf::Bag(3)))),
    row!("/organizations/{org}/data/{bag}/{id}", [Get, Put, Delete] => Some(RouteOf::Data(DataRouteOf::Item(3, 4)))),
    row!("/organizations/{org}/sandboxes", [Post] => Some(RouteOf::Cookbooks(CookbookRouteOf::Sandboxes))),
    row!("/organizations/{org}/sandboxes/{id}", [Put] => Some(RouteOf::Cookbooks(CookbookRouteOf::Sandbox(3)))),
    row!("/organizations/{org}/files/{checksum}", [Put, Get] => Some(RouteOf::Cookbooks(CookbookRouteOf::File(3)))),
    row!("/organizations/{org}/cookbooks", [Get] => Some(RouteOf::Cookbooks(CookbookRouteOf::Cookbooks))),
    row!("/organizations/{org}/cookbooks/{cookbook}", [Get] => Some(RouteOf::Cookbooks(CookbookRouteOf::Cookbook(3)))),
    row!("/organizations/{org}/cookbooks/{cookbook}/{version}", [Get, Put, Delete] => Some(RouteOf::Cookbooks(CookbookRouteOf::Version(3, 4)))),
    row!("/organizations/{org}/universe", [Get] => Some(RouteOf::Cookbooks(CookbookRouteOf::Universe))),
    row!("/organizations/{org}/cookbook_artifacts", [Get] => Some(RouteOf::Policies(PolicyRouteOf::Artifacts))),
    row!("/organizations/{org}/cookbook_artifacts/{name}/{id}", [Get, Put, Delete] => Some(RouteOf::Policies(PolicyRouteOf::Artifact(3, 4)))),
    row!("/organizations/{org}/environments/{environment}/cookbook_versions", [Post] => Some(RouteOf::Cookbooks(CookbookRouteOf::SolvedVersions(3)))),
    row!("/organizations/{org}/policies", [Get] => Some(RouteOf::Policies(PolicyRouteOf::Policies))),
    row!("/organizations/{org}/policies/{policy}", [Get, Delete] => Some(RouteOf::Policies(PolicyRouteOf::Policy(3)))),
    row!("/organizations/{org}/policies/{policy}/revisions", [Post] => Some(RouteOf::Policies(PolicyRouteOf::Revisions(3)))),
    row!("/organizations/{org}/policies/{policy}/revisions/{revision}", [Get] => Some(RouteOf::Policies(PolicyRouteOf::Revision(3, 5)))),
    row!("/organizations/{org}/policy_groups", [Get] => Some(RouteOf::Policies(PolicyRouteOf::Groups))),
    row!("/organizations/{org}/policy_groups/{group}", [Get, Delete] => Some(RouteOf::Policies(PolicyRouteOf::Group(3)))),
    row!("/organizations/{org}/policy_groups/{group}/policies/{policy}", [Get, Put, Delete] => Some(RouteOf::Policies(PolicyRouteOf::Assignment(3, 5)))),
    row!("/organizations/{org}/search", [Get] => Some(RouteOf::Search(SearchRouteOf::Indexes))),
    row!("/organizations/{org}/search/{index}", [Get, Post] => Some(RouteOf::Search(SearchRouteOf::Index(3)))),
];

/// The rows of the table of routes, in the order of the documentation.
#[tactic(auto, unfolding(crate::specs::Table::table))]
pub fn rows() -> &'static [Row]
    ensures { map spec.row_of result.now ≡ spec.table }
{
    &ROUTES
}
