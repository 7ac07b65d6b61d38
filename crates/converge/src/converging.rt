//! The one call: a plan performed on a host.
ghost use Rattle.std.specs.Prelude.{◌≡◌, ◌≢◌, ◌≤◌, None, Some, false, true};
ghost use Rattle.converge.specs.Counting.{failed_of as pair_and_cause};
ghost use Rattle.converge.specs.Ending.{TellsEnd};
ghost use Rattle.converge.specs.Needs.{lacking as lacking_of};
ghost use Rattle.converge.specs.Outcomes.{ComesTo, IsComplete, IsIdle, Settles, is_host_fault, lack_in};
ghost use Rattle.converge.specs.Runs.{first_failed as first_of};
ghost use Rattle.converge.specs.Settled.{Agree};
ghost use Rattle.host_tree.specs.Told.{Tells};
ghost use Rattle.resource_core.specs.Plans.{IsSound};
ghost use Rattle.outside_core.specs.Failed.{Rose};

use crate::deeds::{Failure, first_failed};
use crate::lines::whole_report;
use crate::log::Log;
use crate::needs::lacking;
use crate::outcome::Outcome;
use crate::runs::run;
use doc_tree::NoMemory;
use host_tree::{Host, HostFault};
use resource_core::RunPlan;
use std::alloc::Global;

/// Performs a plan on a host.
///
/// First the plan is looked at: where it needs what the host doesn't offer, nothing is done. Then each own action is
/// performed in order. An act whose want holds already changes nothing. One that updates fires what its resource
/// notifies, in order, and then those that subscribe to it: at once, with what that fires, or queued, once a run at most,
/// and performed after all own actions. After a failed act no further own action is begun, and nothing more is performed
/// of what it stands in; what was queued is performed all the same. It isn't recursive.
///
/// The host's count of faults rises in no call but one that ends as a host fault, so want of memory is never told where
/// the host failed. What else is said of the host is said of one that tells what it holds.
pub fn converge<H: Host>(alloc: Global, plan: &RunPlan, host: &mut H) -> Outcome
    ensures run { Tells (ComesTo plan.now result) (H.tells host.old) (H.tells host.new) }
    ensures lacks { lack_in result ≡ lacking_of plan.now (H.offers host.old) }
    ensures untouched { lack_in result ≢ None → host.new ≡ host.old }
    ensures fault { is_host_fault result ≡ true → Rose (H.faults host.old) (H.faults host.new) }
    ensures later { H.faults host.old ≤ H.faults host.new }
    ensures unfailed { is_host_fault result ≡ false → H.faults host.new ≡ H.faults host.old }
    ensures offers { H.offers host.new ≡ H.offers host.old }
    ensures settles { Agree plan.now → Tells (Settles plan.now result) (H.tells host.old) (H.tells host.new) }
    ensures stays { lacking_of plan.now (H.offers host.old) ≡ None → Tells (IsIdle plan.now result) (H.tells host.old) (H.tells host.new) }
    ensures complete { lacking_of plan.now (H.offers host.old) ≡ None → Tells (IsComplete plan.now result) (H.tells host.old) (H.tells host.new) }
{
    match lacking(plan, host.caps()) {
        Some(cap) => Outcome::LacksCap(cap),
        None => perform_all(alloc, plan, host),
    }
}

/// Performs a plan on a host that offers what it needs.
fn perform_all<H: Host>(alloc: Global, plan: &RunPlan, host: &mut H) -> Outcome
    requires sound { IsSound plan.now }
    requires offered { lacking_of plan.now (H.offers host.old) ≡ None }
    ensures run { Tells (ComesTo plan.now result) (H.tells host.old) (H.tells host.new) }
    ensures lacks { lack_in result ≡ None }
    ensures fault { is_host_fault result ≡ true → Rose (H.faults host.old) (H.faults host.new) }
    ensures later { H.faults host.old ≤ H.faults host.new }
    ensures unfailed { is_host_fault result ≡ false → H.faults host.new ≡ H.faults host.old }
    ensures offers { H.offers host.new ≡ H.offers host.old }
{
    let mut log = Log::new(alloc);
    match run(alloc, plan, host, &mut log) {
        Ok(()) => end_of(alloc, log),
        Err(HostFault::Failed) => Outcome::HostFault(log.into_report()),
        Err(HostFault::NoMemory) => {
            drop(log);
            Outcome::NoMemory
        }
    }
}

/// What a run that came to its end with these acts comes to.
fn end_of(alloc: Global, log: Log) -> Outcome
    ensures { TellsEnd log.acts.items log.lines result }
{
    match first_failed(&log.acts) {
        None => done_of(alloc, log),
        Some(failure) => failed_of(log, failure),
    }
}

fn done_of(alloc: Global, log: Log) -> Outcome
    requires { first_of log.acts.items ≡ None }
    ensures { TellsEnd log.acts.items log.lines result }
{
    match whole_report(alloc, log) {
        Ok(report) => Outcome::Done(report),
        Err(NoMemory) => Outcome::NoMemory,
    }
}

fn failed_of(log: Log, failure: Failure) -> Outcome
    requires { first_of log.acts.items ≡ Some (pair_and_cause failure) }
    ensures { TellsEnd log.acts.items log.lines result }
{
    Outcome::Failed {
        resource: failure.pair.resource,
        action: failure.pair.action,
        cause: failure.cause,
        report: log.into_report(),
    }
}
