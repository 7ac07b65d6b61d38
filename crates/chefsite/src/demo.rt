//! The command `demo`: it serves the requests of a demo over a site of its own, and prints what the replies come to.

ghost use Rattle.std.specs.Prelude.{◌≡◌, ◌<◌, ◌≤◌, ◌-◌, ◌^◌, ◌++◌, ◌∷◌, ℕ, List, [], IfOk};
ghost use Rattle.demo_requests.specs.Lines.{Outcome, sums_of};
ghost use Rattle.org_core.specs.FullStates.{none};
ghost use Rattle.org_requests.specs.declared.replies.Reply as replies;
ghost use Rattle.org_machine.specs.Serving.{Serves};
ghost use Rattle.shard_core.specs.Shards.{site_states};
ghost use Rattle.chefsite.specs.Demonstrating.{SaysOfDemo, HasDemoCause, IsToldOf, AreCountsOf, outcome_of};

use crate::site::Site;
use crate::statuses::Status;
use answer_stream::Answering;
use demo_requests::{Counts, Demo};
use doc_tree::{NoMemory, Steps, Text};
use http_wire::reply_length;
use org_requests::Request;
use outside_core::{Failed, Sink};
use std::alloc::Global;
use std::hash::RandomState;
use std::sync::ledger::Ledger;

/// Prints what the replies to a demo of this size come to. All memory is taken before the first line is written.
pub(crate) fn demo<U: Sink, L: Ledger>(
    alloc: Global,
    size: u64,
    output: &mut U,
    hasher: RandomState,
    steps: &mut Steps<L>,
) -> Status
    requires { size ≤ 200 }
    ensures says { SaysOfDemo result size (U.gained output.old) (U.gained output.new) }
    ensures cause { HasDemoCause result (U.faults output.old) (U.faults output.new) }
{
    match lines_of(alloc, size, hasher, steps) {
        Ok(lines) => match output.write(lines.as_bytes()) {
            Ok(()) => Status::Done,
            Err(Failed) => Status::WriteFault,
        },
        Err(NoMemory) => Status::NoMemory,
    }
}

// The lines of a demo, served from no organisation on.
fn lines_of<L: Ledger>(
    alloc: Global,
    size: u64,
    hasher: RandomState,
    steps: &mut Steps<L>,
) -> Result<Text, NoMemory>
    requires { size ≤ 200 }
    ensures { IfOk result (IsToldOf size) }
{
    let mut site = Site::new(alloc, hasher);
    let counts = serve_all(alloc, size, &mut site, steps)?;
    counts.lines(alloc)
}

// Serves the requests of a demo one after another, and counts the replies.
fn serve_all<L: Ledger>(
    alloc: Global,
    size: u64,
    site: &mut Site,
    steps: &mut Steps<L>,
) -> Result<Counts, NoMemory>
    requires size { size ≤ 200 }
    requires nobody { (name : List ℕ) → site_states site.old.shards name ≡ none }
    ensures { IfOk result (AreCountsOf size) }
{
    let mut demo = Demo::of(size);
    let mut counts = Counts::none();
    'requests: while let Some(request) = demo.next(alloc)? {
        serve_one(alloc, request, site, &mut counts, steps);
    }
    Ok(counts)
}

fn serve_one<L: Ledger>(
    alloc: Global,
    request: Request,
    site: &mut Site,
    counts: &mut Counts,
    steps: &mut Steps<L>,
)
    requires { counts.old.requests < 2 ^ 64 - 1 }
    ensures { (reply : replies.Reply) × Serves (site_states site.old.shards) request reply (site_states site.new.shards)
        × ((outcomes : List Outcome) → counts.old ≡ sums_of outcomes → counts.new ≡ sums_of (outcomes ++ outcome_of reply ∷ [])) }
{
    let reply = site.answer(alloc, request, steps);
    counts.count(reply.status, reply_length(&reply));
}
