//! The routes below an organisation, in groups: one variant for each path of the table of routes, with
//! every name that stands in it. In a request a name is the text that the path spells, decoded; in the
//! table it is the number of the path's segment that has it, counted from 0.

ghost use Rattle.std.specs.Prelude.{◌≡◌, IfOk};
ghost use Rattle.org_requests.specs.Routes as spec;
ghost use Rattle.org_requests.specs.Routes.{nth_segment};

use crate::collections::Collection;
use doc_tree::{NoMemory, Text};
use std::alloc::Global;

/// The routes of an organisation as a whole.
#[derive(Clone, Copy, Debug, PartialEq, Eq)]
pub enum OrganisationRoute {
    /// `/organizations`, with a body that names this organisation as the new one.
    Create,
    /// `/organizations/ORG`
    Whole,
}

/// The routes of a collection of objects.
#[derive(Clone, Copy, Debug, Drop)]
pub enum ObjectsRouteOf<N> {
    /// The collection: `/organizations/ORG/nodes`
    All,
    /// One of its objects: `/organizations/ORG/nodes/NAME`
    One(N),
}

/// The routes of data bags.
#[derive(Clone, Copy, Debug, Drop)]
pub enum DataRouteOf<N> {
    /// `/organizations/ORG/data`
    Bags,
    /// `/organizations/ORG/data/BAG`
    Bag(N),
    /// `/organizations/ORG/data/BAG/ID`
    Item(N, N),
}

/// The routes of those who may do something, and of what they may do.
#[derive(Clone, Copy, Debug, Drop)]
pub enum AccessRouteOf<N> {
    /// `/organizations/ORG/groups`
    Groups,
    /// `/organizations/ORG/groups/NAME`
    Group(N),
    /// `/organizations/ORG/users`
    Users,
    /// `/organizations/ORG/users/NAME`
    User(N),
    /// `/organizations/ORG/containers`
    Containers,
    /// `/organizations/ORG/containers/NAME`
    Container(N),
    /// `/organizations/ORG/COLLECTION/NAME/_acl`
    List(N, N),
    /// `/organizations/ORG/COLLECTION/NAME/_acl/PERMISSION`
    Entry(N, N, N),
}

/// The routes of files and cookbooks.
#[derive(Clone, Copy, Debug, Drop)]
pub enum CookbookRouteOf<N> {
    /// `/organizations/ORG/sandboxes`
    Sandboxes,
    /// `/organizations/ORG/sandboxes/ID`
    Sandbox(N),
    /// `/organizations/ORG/files/CHECKSUM`
    File(N),
    /// `/organizations/ORG/cookbooks`
    Cookbooks,
    /// `/organizations/ORG/cookbooks/COOKBOOK`
    Cookbook(N),
    /// `/organizations/ORG/cookbooks/COOKBOOK/VERSION`
    Version(N, N),
    /// `/organizations/ORG/universe`
    Universe,
    /// `/organizations/ORG/environments/ENVIRONMENT/cookbook_versions`
    SolvedVersions(N),
}

/// The routes of artifacts, policies and their groups.
#[derive(Clone, Copy, Debug, Drop)]
pub enum PolicyRouteOf<N> {
    /// `/organizations/ORG/cookbook_artifacts`
    Artifacts,
    /// `/organizations/ORG/cookbook_artifacts/NAME/ID`
    Artifact(N, N),
    /// `/organizations/ORG/policies`
    Policies,
    /// `/organizations/ORG/policies/POLICY`
    Policy(N),
    /// `/organizations/ORG/policies/POLICY/revisions`
    Revisions(N),
    /// `/organizations/ORG/policies/POLICY/revisions/REVISION`
    Revision(N, N),
    /// `/organizations/ORG/policy_groups`
    Groups,
    /// `/organizations/ORG/policy_groups/GROUP`
    Group(N),
    /// `/organizations/ORG/policy_groups/GROUP/policies/POLICY`
    Assignment(N, N),
}

/// The routes of searches.
#[derive(Clone, Copy, Debug, Drop)]
pub enum SearchRouteOf<N> {
    /// `/organizations/ORG/search`
    Indexes,
    /// `/organizations/ORG/search/INDEX`
    Index(N),
}

/// A route below one organisation: its group, and the route in it.
#[derive(Clone, Copy, Debug, Drop)]
pub enum RouteOf<N> {
    /// The organisation as a whole.
    Organisation(OrganisationRoute),
    /// A collection of objects.
    Objects(Collection, ObjectsRouteOf<N>),
    /// Its data bags.
    Data(DataRouteOf<N>),
    /// Groups, users, containers and access lists.
    Access(AccessRouteOf<N>),
    /// Files and cookbooks.
    Cookbooks(CookbookRouteOf<N>),
    /// Artifacts, policies and their groups.
    Policies(PolicyRouteOf<N>),
    /// Searches.
    Search(SearchRouteOf<N>),
}

/// A route of a collection of objects in a request: each name is a text.
pub type ObjectsRoute = ObjectsRouteOf<Text>;

/// A route of data bags in a request: each name is a text.
pub type DataRoute = DataRouteOf<Text>;

/// A route of those who may do something, and of what they may do in a request: each name is a text.
pub type AccessRoute = AccessRouteOf<Text>;

/// A route of files and cookbooks in a request: each name is a text.
pub type CookbookRoute = CookbookRouteOf<Text>;

/// A route of artifacts, policies and their groups in a request: each name is a text.
pub type PolicyRoute = PolicyRouteOf<Text>;

/// A route of searches in a request: each name is a text.
pub type SearchRoute = SearchRouteOf<Text>;

/// A route below one organisation in a request: each name is a text.
pub type Route = RouteOf<Text>;

impl RouteOf<usize> {
    /// The route with the texts of these segments in the place of their numbers, each a copy.
    pub fn named(&self, alloc: Global, segments: &[Text]) -> Result<Route, NoMemory>
        ensures { IfOk result (λ named. named ≡ spec.named (λ n. nth_segment n segments.now) self.now) }
    {
        match self {
            RouteOf::Organisation(route) => Ok(Route::Organisation(*route)),
            RouteOf::Objects(collection, route) => Ok(Route::Objects(
                *collection,
                named_objects(route, alloc, segments)?,
            )),
            RouteOf::Data(route) => Ok(Route::Data(named_data(route, alloc, segments)?)),
            RouteOf::Access(route) => Ok(Route::Access(named_access(route, alloc, segments)?)),
            RouteOf::Cookbooks(route) => {
                Ok(Route::Cookbooks(named_cookbook(route, alloc, segments)?))
            }
            RouteOf::Policies(route) => Ok(Route::Policies(named_policy(route, alloc, segments)?)),
            RouteOf::Search(route) => Ok(Route::Search(named_search(route, alloc, segments)?)),
        }
    }
}

fn named_objects(
    route: &ObjectsRouteOf<usize>,
    alloc: Global,
    segments: &[Text],
) -> Result<ObjectsRoute, NoMemory>
    ensures { IfOk result (λ named. named ≡ spec.named_objects (λ n. nth_segment n segments.now) route.now) }
{
    match route {
        ObjectsRouteOf::All => Ok(ObjectsRoute::All),
        ObjectsRouteOf::One(name) => Ok(ObjectsRoute::One(nth(alloc, *name, segments)?)),
    }
}

fn named_data(
    route: &DataRouteOf<usize>,
    alloc: Global,
    segments: &[Text],
) -> Result<DataRoute, NoMemory>
    ensures { IfOk result (λ named. named ≡ spec.named_data (λ n. nth_segment n segments.now) route.now) }
{
    match route {
        DataRouteOf::Bags => Ok(DataRoute::Bags),
        DataRouteOf::Bag(name) => Ok(DataRoute::Bag(nth(alloc, *name, segments)?)),
        DataRouteOf::Item(one, other) => {
            let one = nth(alloc, *one, segments)?;
            Ok(DataRoute::Item(one, nth(alloc, *other, segments)?))
        }
    }
}

fn named_access(
    route: &AccessRouteOf<usize>,
    alloc: Global,
    segments: &[Text],
) -> Result<AccessRoute, NoMemory>
    ensures { IfOk result (λ named. named ≡ spec.named_access (λ n. nth_segment n segments.now) route.now) }
{
    match route {
        AccessRouteOf::Groups => Ok(AccessRoute::Groups),
        AccessRouteOf::Group(name) => Ok(AccessRoute::Group(nth(alloc, *name, segments)?)),
        AccessRouteOf::Users => Ok(AccessRoute::Users),
        AccessRouteOf::User(name) => Ok(AccessRoute::User(nth(alloc, *name, segments)?)),
        AccessRouteOf::Containers => Ok(AccessRoute::Containers),
        AccessRouteOf::Container(name) => Ok(AccessRoute::Container(nth(alloc, *name, segments)?)),
        AccessRouteOf::List(one, other) => {
            let one = nth(alloc, *one, segments)?;
            Ok(AccessRoute::List(one, nth(alloc, *other, segments)?))
        }
        AccessRouteOf::Entry(one, other, third) => {
            let one = nth(alloc, *one, segments)?;
            let other = nth(alloc, *other, segments)?;
            Ok(AccessRoute::Entry(one, other, nth(alloc, *third, segments)?))
        }
    }
}

fn named_cookbook(
    route: &CookbookRouteOf<usize>,
    alloc: Global,
    segments: &[Text],
) -> Result<CookbookRoute, NoMemory>
    ensures { IfOk result (λ named. named ≡ spec.named_cookbook (λ n. nth_segment n segments.now) route.now) }
{
    match route {
        CookbookRouteOf::Sandboxes => Ok(CookbookRoute::Sandboxes),
        CookbookRouteOf::Sandbox(name) => Ok(CookbookRoute::Sandbox(nth(alloc, *name, segments)?)),
        CookbookRouteOf::File(name) => Ok(CookbookRoute::File(nth(alloc, *name, segments)?)),
        CookbookRouteOf::Cookbooks => Ok(CookbookRoute::Cookbooks),
        CookbookRouteOf::Cookbook(name) => Ok(CookbookRoute::Cookbook(nth(
            alloc, *name, segments,
        )?)),
        CookbookRouteOf::Version(one, other) => {
            let one = nth(alloc, *one, segments)?;
            Ok(CookbookRoute::Version(one, nth(alloc, *other, segments)?))
        }
        CookbookRouteOf::Universe => Ok(CookbookRoute::Universe),
        CookbookRouteOf::SolvedVersions(name) => Ok(CookbookRoute::SolvedVersions(nth(
            alloc, *name, segments,
        )?)),
    }
}

fn named_policy(
    route: &PolicyRouteOf<usize>,
    alloc: Global,
    segments: &[Text],
) -> Result<PolicyRoute, NoMemory>
    ensures { IfOk result (λ named. named ≡ spec.named_policy (λ n. nth_segment n segments.now) route.now) }
{
    match route {
        PolicyRouteOf::Artifacts => Ok(PolicyRoute::Artifacts),
        PolicyRouteOf::Artifact(one, other) => {
            let one = nth(alloc, *one, segments)?;
            Ok(PolicyRoute::Artifact(one, nth(alloc, *other, segments)?))
        }
        PolicyRouteOf::Policies => Ok(PolicyRoute::Policies),
        PolicyRouteOf::Policy(name) => Ok(PolicyRoute::Policy(nth(alloc, *name, segments)?)),
        PolicyRouteOf::Revisions(name) => Ok(PolicyRoute::Revisions(nth(alloc, *name, segments)?)),
        PolicyRouteOf::Revision(one, other) => {
            let one = nth(alloc, *one, segments)?;
            Ok(PolicyRoute::Revision(one, nth(alloc, *other, segments)?))
        }
        PolicyRouteOf::Groups => Ok(PolicyRoute::Groups),
        PolicyRouteOf::Group(name) => Ok(PolicyRoute::Group(nth(alloc, *name, segments)?)),
        PolicyRouteOf::Assignment(one, other) => {
            let one = nth(alloc, *one, segments)?;
            Ok(PolicyRoute::Assignment(one, nth(alloc, *other, segments)?))
        }
    }
}

fn named_search(
    route: &SearchRouteOf<usize>,
    alloc: Global,
    segments: &[Text],
) -> Result<SearchRoute, NoMemory>
    ensures { IfOk result (λ named. named ≡ spec.named_search (λ n. nth_segment n segments.now) route.now) }
{
    match route {
        SearchRouteOf::Indexes => Ok(SearchRoute::Indexes),
        SearchRouteOf::Index(name) => Ok(SearchRoute::Index(nth(alloc, *name, segments)?)),
    }
}

/// A copy of the segment of this number, and an empty text where a path has fewer.
pub fn nth(alloc: Global, number: usize, segments: &[Text]) -> Result<Text, NoMemory>
    ensures { IfOk result (λ text. text ≡ nth_segment number segments.now) }
{
    match segments.get(number) {
        Some(segment) => segment.copy(alloc),
        None => Ok(Text::of(String::new(alloc))),
    }
}
