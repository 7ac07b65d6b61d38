//! Whether universes, rules and roots are equal, without memory.
ghost use Rattle.std.specs.Prelude.{◌≡◌, ◌↔◌, IsTrue};

use crate::roots::{Pin, Roots};
use crate::rules::EnvRules;
use crate::universe::{Cookbook, Release, Universe};
use doc_tree::Name;
use version_rules::{Constraint, Need};

impl Universe {
    /// Whether two universes are equal, without memory.
    pub fn same(&self, other: &Universe) -> bool
        ensures { IsTrue result ↔ (self.now ≡ other.now) }
    {
        same_cookbooks(self.cookbooks.as_slice(), other.cookbooks.as_slice())
    }
}

impl EnvRules {
    /// Whether two environments have equal rules, without memory.
    pub fn same(&self, other: &EnvRules) -> bool
        ensures { IsTrue result ↔ (self.now ≡ other.now) }
    {
        same_needs(self.rules.as_slice(), other.rules.as_slice())
    }
}

impl Roots {
    /// Whether two roots are equal, without memory.
    pub fn same(&self, other: &Roots) -> bool
        ensures { IsTrue result ↔ (self.now ≡ other.now) }
    {
        same_names(self.names.as_slice(), other.names.as_slice())
            && same_pins(self.pins.as_slice(), other.pins.as_slice())
    }
}

fn same_cookbooks(ones: &[Cookbook], others: &[Cookbook]) -> bool
    ensures { IsTrue result ↔ (ones.now ≡ others.now) }
{
    if ones.len() != others.len() {
        return false;
    }
    for index in 0..ones.len() {
        if !same_cookbook(&ones[index], &others[index]) {
            return false;
        }
    }
    true
}

fn same_cookbook(one: &Cookbook, other: &Cookbook) -> bool
    ensures { IsTrue result ↔ (one.now ≡ other.now) }
{
    one.name == other.name && same_releases(one.releases.as_slice(), other.releases.as_slice())
}

fn same_releases(ones: &[Release], others: &[Release]) -> bool
    ensures { IsTrue result ↔ (ones.now ≡ others.now) }
{
    if ones.len() != others.len() {
        return false;
    }
    for index in 0..ones.len() {
        if !same_release(&ones[index], &others[index]) {
            return false;
        }
    }
    true
}

fn same_release(one: &Release, other: &Release) -> bool
    ensures { IsTrue result ↔ (one.now ≡ other.now) }
{
    one.version == other.version && same_needs(one.needs.as_slice(), other.needs.as_slice())
}

fn same_needs(ones: &[Need], others: &[Need]) -> bool
    ensures { IsTrue result ↔ (ones.now ≡ others.now) }
{
    if ones.len() != others.len() {
        return false;
    }
    for index in 0..ones.len() {
        if !same_need(&ones[index], &others[index]) {
            return false;
        }
    }
    true
}

fn same_need(one: &Need, other: &Need) -> bool
    ensures { IsTrue result ↔ (one.now ≡ other.now) }
{
    one.name == other.name && same_constraint(&one.constraint, &other.constraint)
}

fn same_constraint(one: &Constraint, other: &Constraint) -> bool
    ensures { IsTrue result ↔ (one.now ≡ other.now) }
{
    one.sign == other.sign && one.version == other.version && one.parts == other.parts
}

fn same_names(ones: &[Name], others: &[Name]) -> bool
    ensures { IsTrue result ↔ (ones.now ≡ others.now) }
{
    ones == others
}

fn same_pins(ones: &[Pin], others: &[Pin]) -> bool
    ensures { IsTrue result ↔ (ones.now ≡ others.now) }
{
    if ones.len() != others.len() {
        return false;
    }
    for index in 0..ones.len() {
        if !same_pin(&ones[index], &others[index]) {
            return false;
        }
    }
    true
}

fn same_pin(one: &Pin, other: &Pin) -> bool
    ensures { IsTrue result ↔ (one.now ≡ other.now) }
{
    one.name == other.name && one.version == other.version
}
