//! The organisations of a run: a site of one shard, which answers requests.

ghost use Rattle.std.specs.Prelude.{◌≡◌, ℕ, List, length};
ghost use Rattle.org_core.specs.FullStates.{none};
ghost use Rattle.org_machine.specs.Serving.{Serves};
ghost use Rattle.org_requests.specs.Requests.{IsRead};
ghost use Rattle.org_requests.specs.declared.requests.Request as asked;
ghost use Rattle.shard_core.specs.Shards.{site_states};

use answer_stream::Answering;
use doc_tree::Steps;
use org_requests::{Reply, Request};
use shard_core::{Shard, serve};
use std::alloc::Global;
use std::hash::RandomState;
use std::sync::ledger::Ledger;

/// The organisations of a run, in one shard.
#[derive(Drop)]
pub(crate) struct Site {
    shards: [Shard; 1],
    ghost one: { length shards ≡ 1 },
}

impl Site {
    /// A site without organisations, whose maps hash by this hasher. It takes no memory.
    pub(crate) fn new(alloc: Global, hasher: RandomState) -> Site
        ensures { (name : List ℕ) → site_states result.shards name ≡ none }
    {
        Site {
            shards: [Shard::new(alloc, hasher)],
        }
    }
}

impl Answering for Site {
    ghost answers = { λ before request reply after. Serves (site_states before.shards) request reply (site_states after.shards) };

    fn answer<L: Ledger>(
        &mut self,
        alloc: Global,
        request: Request,
        steps: &mut Steps<L>,
    ) -> Reply {
        serve_over(alloc, &mut self.shards, request, steps)
    }
}

// Serves one request over the one shard.
fn serve_over<L: Ledger>(
    alloc: Global,
    shards: &mut [Shard; 1],
    request: Request,
    steps: &mut Steps<L>,
) -> Reply
    requires { length shards.old ≡ 1 }
    ensures served { (spelled : asked.Request) → IsRead request spelled → Serves (site_states shards.old) spelled result (site_states shards.new) }
    ensures one { length shards.new ≡ 1 }
{
    serve(alloc, shards.as_mut_slice(), request, steps)
}
