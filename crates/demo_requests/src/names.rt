//! The names that stand in a demo's requests.
ghost use Rattle.std.specs.Prelude.{◌≡◌, IfOk};
ghost use Rattle.demo_requests.specs.DemoRequests as spec;

use doc_tree::{NoMemory, Text};
use std::alloc::Global;

/// The operator's name, by whom all is asked.
pub(crate) fn operator(alloc: Global) -> Result<Text, NoMemory>
    ensures { IfOk result (λ name. name ≡ spec.operator) }
{
    Text::from_str(alloc, "pivotal")
}

/// The name of the organisation of this number.
pub(crate) fn organisation(alloc: Global, number: u64) -> Result<Text, NoMemory>
    ensures { IfOk result (λ name. name ≡ spec.organisation number) }
{
    Ok(Text::of(format!(in alloc; "o{number}")?))
}

/// The name of the node of this number.
pub(crate) fn node(alloc: Global, number: u64) -> Result<Text, NoMemory>
    ensures { IfOk result (λ name. name ≡ spec.node number) }
{
    Ok(Text::of(format!(in alloc; "n{number}")?))
}

/// The tag of this number.
pub(crate) fn tag(alloc: Global, number: u64) -> Result<Text, NoMemory>
    ensures { IfOk result (λ name. name ≡ spec.tag number) }
{
    Ok(Text::of(format!(in alloc; "t{number}")?))
}

/// The query that finds the nodes with the tag of this number.
pub(crate) fn query(alloc: Global, number: u64) -> Result<Text, NoMemory>
    ensures { IfOk result (λ query. query ≡ spec.query (spec.tag number)) }
{
    Ok(Text::of(format!(in alloc; "tag:t{number}")?))
}
