//! All the organisations of a site, over its shards.

ghost use Rattle.std.specs.Prelude.{◌≡◌, ◌⊎◌, ℕ, List, None, Some};
ghost use Rattle.org_requests.specs.declared.requests.Request.{Request};
ghost use Rattle.org_machine.specs.Alone.{Lists, OutsideAnswer};
ghost use Rattle.org_requests.specs.Refusals.{out_of_memory};
ghost use Rattle.org_requests.specs.Requests.{org_of};
ghost use Rattle.org_machine.specs.Marks.{mark_of, answer, IsLawful};
ghost use Rattle.org_machine.specs.Serving.{Looks, Serves, state_then};
ghost use Rattle.org_requests.specs.Requests.{IsRead};
ghost use Rattle.shard_core.specs.Indexing.{no_looks};
ghost use Rattle.shard_core.specs.Looking.{LooksIn};
ghost use Rattle.shard_core.specs.Shards.{site_states, IsSite};

use crate::listing::list;
use crate::numbers::shard_of;
use crate::shards::Shard;
use doc_tree::{NoMemory, Steps, Text};
use org_machine::{is_listing, serve_outside};
use org_requests::{Place, Reply, Request, out_of_memory};
use std::alloc::Global;
use std::sync::ledger::Ledger;

/// Serves one request over the shards of a site. A request whose parts found no memory is answered
/// so, whatever its bytes spell. Each body that is looked at is one step.
pub fn serve<L: Ledger>(
    alloc: Global,
    shards: &mut [Shard],
    request: Request,
    steps: &mut Steps<L>,
) -> Reply
    requires { IsSite shards.old }
    ensures served { (spelled : Request) → IsRead request spelled →
        Serves (site_states shards.old) spelled result (site_states shards.new) }
    ensures looks { LooksIn (site_states shards.old) (org_of request) request result steps.old steps.new }
{
    serve_at(alloc, shards, &request, steps)
}

// The request is lent, so that it is dropped at one place.
fn serve_at<L: Ledger>(
    alloc: Global,
    shards: &mut [Shard],
    request: &Request,
    steps: &mut Steps<L>,
) -> Reply
    requires { IsSite shards.old }
    ensures served { (spelled : Request) → IsRead request.now spelled →
        Serves (site_states shards.old) spelled result (site_states shards.new) }
    ensures looks { LooksIn (site_states shards.old) (org_of request.now) request.now result steps.old steps.new }
{
    match &request.place {
        Place::Of { org, route: _ } | Place::NoMethod { org: Some(org) } => {
            serve_own(alloc, shards, org, request, steps)
        }
        Place::Organisations | Place::LeftOut | Place::NoRoute | Place::NoMethod { org: None } => {
            serve_of_none(alloc, shards, request)
        }
        Place::NoMemory => out_of_memory(),
    }
}

// A request of no organisation changes nothing.
fn serve_of_none(alloc: Global, shards: &[Shard], request: &Request) -> Reply
    requires site { IsSite shards.now }
    requires none { org_of request.now ≡ None }
    ensures { OutsideAnswer (site_states shards.now) None request.now result }
{
    if is_listing(request) {
        listed(alloc, shards)
    } else {
        serve_outside(alloc, request)
    }
}

fn listed(alloc: Global, shards: &[Shard]) -> Reply
    requires { IsSite shards.now }
    ensures { (Lists (site_states shards.now) result) ⊎ (result ≡ out_of_memory) }
{
    match list(alloc, shards) {
        Ok(reply) => reply,
        Err(NoMemory) => out_of_memory(),
    }
}

fn serve_own<L: Ledger>(
    alloc: Global,
    shards: &mut [Shard],
    org: &Text,
    request: &Request,
    steps: &mut Steps<L>,
) -> Reply
    requires site { IsSite shards.old }
    requires of { org_of request.now ≡ Some org.now }
    ensures reply { result ≡ answer (mark_of result) request.now (site_states shards.old org.now) }
    ensures lawful { IsLawful (mark_of result) request.now (site_states shards.old org.now) }
    ensures states { (name : List ℕ) →
        site_states shards.new name ≡ state_then name request.now result (site_states shards.old name) }
    ensures looks { Looks no_looks result request.now (site_states shards.old org.now) steps.old steps.new }
{
    let number = shard_of(org.as_bytes(), shards.len());
    let shard = &mut shards[number];
    shard.serve(alloc, org, request, steps)
}
