//! The listing of the organisations of a site, over its shards.

ghost use Rattle.std.specs.Prelude.{◌≡◌, ℕ, List, IfOk};
ghost use Rattle.org_machine.specs.Alone.{Lists};
ghost use Rattle.shard_core.specs.Shards.{site_states, IsSite};
ghost use Rattle.shard_core.specs.Listing.{has, is_there};

use crate::names::in_order;
use crate::shards::Shard;
use doc_tree::{NoMemory, Text};
use org_machine::listing;
use org_requests::Reply;
use std::alloc::Global;
use std::collections::BTreeSet;

/// The reply that lists the organisations that are there, in the order of their names.
pub fn list(alloc: Global, shards: &[Shard]) -> Result<Reply, NoMemory>
    requires { IsSite shards.now }
    ensures { IfOk result (λ reply. Lists (site_states shards.now) reply) }
{
    let names = in_order(alloc, names_there(alloc, shards)?)?;
    listing(alloc, &names)
}

fn names_there(alloc: Global, shards: &[Shard]) -> Result<BTreeSet<Text>, NoMemory>
    requires { IsSite shards.now }
    ensures { IfOk result (λ names. (name : List ℕ) → has names name ≡ is_there (site_states shards.now) name) }
{
    let count = shards.len();
    let mut names = BTreeSet::new(alloc);
    for number in 0..count {
        shards[number].add_names(alloc, number, count, &mut names)?;
    }
    Ok(names)
}
