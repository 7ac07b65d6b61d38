//! The containers with which an organisation starts, and their access lists.
ghost use Rattle.std.specs.Prelude.{◌≡◌, [], ◌∷◌, ◌++◌, IfOk, OnOk, bytes_eq};
ghost use Rattle.std.specs.List.{find};
ghost use Rattle.access_lists.specs.Starting as spec;
ghost use Rattle.access_lists.specs.Listed.{listed};

use crate::acl::{Acl, Entry};
use doc_tree::{NoMemory, Text};
use membership::TextSet;
use std::alloc::Global;

/// A container of an organisation: its access list says who may create objects of a kind, and a new
/// object of the kind begins with it.
#[derive(Clone, Copy, Debug, PartialEq, Eq, Drop)]
pub enum Container {
    Clients,
    Containers,
    CookbookArtifacts,
    Cookbooks,
    Data,
    Environments,
    Groups,
    Nodes,
    Policies,
    PolicyGroups,
    Roles,
    Sandboxes,
}

/// Which of the starting groups an entry lists.
#[derive(Clone, Copy, Drop)]
enum Listed {
    /// `admins`.
    A,
    /// `admins` and `users`.
    AU,
    /// `admins`, `clients` and `users`.
    AKU,
}

impl Container {
    /// The containers, in the order of the bytes of their names.
    pub fn all() -> [Container; 12]
        ensures { result ≡ spec.containers }
    {
        [
            Container::Clients,
            Container::Containers,
            Container::CookbookArtifacts,
            Container::Cookbooks,
            Container::Data,
            Container::Environments,
            Container::Groups,
            Container::Nodes,
            Container::Policies,
            Container::PolicyGroups,
            Container::Roles,
            Container::Sandboxes,
        ]
    }

    /// The container of this name, if there is one.
    pub fn named(name: &str) -> Option<Container>
        ensures { result ≡ spec.container_named name.now }
    {
        named_among(&Container::all(), name)
    }

    /// The container's name.
    pub fn name(self) -> &'static str
        ensures { result.now ≡ spec.name_of self }
    {
        match self {
            Container::Clients => "clients",
            Container::Containers => "containers",
            Container::CookbookArtifacts => "cookbook_artifacts",
            Container::Cookbooks => "cookbooks",
            Container::Data => "data",
            Container::Environments => "environments",
            Container::Groups => "groups",
            Container::Nodes => "nodes",
            Container::Policies => "policies",
            Container::PolicyGroups => "policy_groups",
            Container::Roles => "roles",
            Container::Sandboxes => "sandboxes",
        }
    }
}

/// The first of these containers that has this name.
fn named_among(containers: &[Container], name: &str) -> Option<Container>
    ensures { result ≡ find (λ container. bytes_eq name.now (spec.name_of container)) containers.now }
{
    containers
        .iter()
        .find(|container| name == container.name())
        .copied()
}

/// The access list with which a container starts: no actors, and of the groups `admins`, `clients` and
/// `users` those that the table names.
pub fn starting_list(alloc: Global, container: Container) -> Result<Acl, NoMemory>
    ensures { IfOk result (λ acl. acl ≡ spec.starting_list container) }
{
    match container {
        Container::Nodes => granting(alloc, Listed::AKU, Listed::AKU, Listed::AU, Listed::AU),
        Container::Clients => granting(alloc, Listed::A, Listed::AU, Listed::A, Listed::AU),
        Container::Containers | Container::Groups => {
            granting(alloc, Listed::A, Listed::AU, Listed::A, Listed::A)
        }
        Container::Sandboxes => granting(alloc, Listed::AU, Listed::AU, Listed::AU, Listed::A),
        Container::CookbookArtifacts
        | Container::Cookbooks
        | Container::Data
        | Container::Environments
        | Container::Policies
        | Container::PolicyGroups
        | Container::Roles => granting(alloc, Listed::AU, Listed::AKU, Listed::AU, Listed::AU),
    }
}

/// The access list of these groups, of which `admins` alone may grant.
fn granting(
    alloc: Global,
    create: Listed,
    read: Listed,
    update: Listed,
    delete: Listed,
) -> Result<Acl, NoMemory>
    ensures { IfOk result (λ acl. acl ≡ spec.granting (listed create) (listed read) (listed update) (listed delete) spec.A) }
{
    let mut acl = Acl::none(alloc);
    grant_each(alloc, create, read, update, delete, &mut acl).and(Ok(acl))
}

fn grant_each(
    alloc: Global,
    create: Listed,
    read: Listed,
    update: Listed,
    delete: Listed,
    acl: &mut Acl,
) -> Result<(), NoMemory>
    ensures { OnOk result (acl.new ≡ spec.granting (listed create) (listed read) (listed update) (listed delete) spec.A) }
{
    grant(alloc, create, &mut acl.create)?;
    grant(alloc, read, &mut acl.read)?;
    grant(alloc, update, &mut acl.update)?;
    grant(alloc, delete, &mut acl.delete)?;
    grant(alloc, Listed::A, &mut acl.grant)
}

fn grant(alloc: Global, groups: Listed, entry: &mut Entry) -> Result<(), NoMemory>
    ensures { OnOk result (entry.new ≡ spec.of_groups (listed groups)) }
{
    *entry = entry_of(alloc, groups)?;
    Ok(())
}

/// An entry of groups alone.
fn entry_of(alloc: Global, groups: Listed) -> Result<Entry, NoMemory>
    ensures { IfOk result (λ entry. entry ≡ spec.of_groups (listed groups)) }
{
    Ok(Entry {
        actors: TextSet::new(alloc),
        groups: names_of(alloc, groups)?,
    })
}

fn names_of(alloc: Global, groups: Listed) -> Result<TextSet, NoMemory>
    ensures { IfOk result (λ names. names ≡ listed groups) }
{
    match groups {
        Listed::A => admins(alloc),
        Listed::AU => admins_and_users(alloc),
        Listed::AKU => all_three(alloc),
    }
}

#[tactic(auto, using(crate::proofs::StartingLemmas::starting))]
fn admins(alloc: Global) -> Result<TextSet, NoMemory>
    ensures { IfOk result (λ names. names ≡ spec.A) }
{
    let mut names = Vec::with_capacity(alloc, 1)?;
    push_name(alloc, &mut names, "admins")?;
    Ok(TextSet::of(names))
}

#[tactic(auto, using(crate::proofs::StartingLemmas::starting))]
fn admins_and_users(alloc: Global) -> Result<TextSet, NoMemory>
    ensures { IfOk result (λ names. names ≡ spec.AU) }
{
    let mut names = Vec::with_capacity(alloc, 2)?;
    push_name(alloc, &mut names, "admins")?;
    push_name(alloc, &mut names, "users")?;
    Ok(TextSet::of(names))
}

#[tactic(auto, using(crate::proofs::StartingLemmas::starting))]
fn all_three(alloc: Global) -> Result<TextSet, NoMemory>
    ensures { IfOk result (λ names. names ≡ spec.AKU) }
{
    let mut names = Vec::with_capacity(alloc, 3)?;
    push_name(alloc, &mut names, "admins")?;
    push_name(alloc, &mut names, "clients")?;
    push_name(alloc, &mut names, "users")?;
    Ok(TextSet::of(names))
}

fn push_name(alloc: Global, names: &mut Vec<Text>, name: &str) -> Result<(), NoMemory>
    ensures { OnOk result (names.new.items ≡ names.old.items ++ name.now ∷ []) }
{
    names.push(Text::from_str(alloc, name)?)?;
    Ok(())
}
