//! A run: the own actions in order, and then what was queued.
ghost use Rattle.std.specs.Prelude.{◌≡◌, ◌≢◌, ◌∷◌, Err, IfErr, IfOk, OnOk, []};
ghost use Rattle.converge.specs.Going.{AreReadyFires, FiresReady, IsTold, RunStopped};
ghost use Rattle.converge.specs.Pairs.{own_fires};
ghost use Rattle.converge.specs.Runs.{IsRunOf};
ghost use Rattle.converge.specs.declared.firing.Fire.TheVariants as fires;
ghost use Rattle.host_tree.specs.Faults.{HasHostCause};
ghost use Rattle.host_tree.specs.Told.{Tells};
ghost use Rattle.host_tree.specs.declared.fault.HostFault.TheVariants as fault;

use crate::chains::chain;
use crate::firing::{Fire, own_fires};
use crate::log::Log;
use doc_tree::NoMemory;
use host_tree::{Host, HostFault};
use notify_queue::{Pair, Queue};
use resource_core::RunPlan;
use std::alloc::Global;

/// Performs the own actions of a plan in order, up to and with the first that has a failed act, and then what was queued.
/// The queue is made before the first act.
pub(crate) fn run<H: Host>(
    alloc: Global,
    plan: &RunPlan,
    host: &mut H,
    log: &mut Log,
) -> Result<(), HostFault>
    requires empty { log.old.acts.items ≡ [] }
    requires told { IsTold plan.now log.old }
    requires owns { AreReadyFires plan.now (H.offers host.old) (own_fires plan.now) }
    requires fires { FiresReady plan.now (H.offers host.old) }
    ensures run { OnOk result (Tells (IsRunOf plan.now log.new.acts.items) (H.tells host.old) (H.tells host.new)) }
    ensures stopped { IfErr result (λ why. Tells (RunStopped plan.now log.new.acts.items why) (H.tells host.old) (H.tells host.new)) }
    ensures offers { H.offers host.new ≡ H.offers host.old }
    ensures cause { HasHostCause (H.faults host.old) (H.faults host.new) result }
    ensures told { result ≢ Err fault.NoMemory → IsTold plan.now log.new }
{
    let Ok(mut queue) = Queue::make(alloc, plan.resources().len()) else {
        return Err(HostFault::NoMemory);
    };
    let Ok(work) = own_fires(alloc, plan) else {
        return Err(HostFault::NoMemory);
    };
    if let Err(fault) = chain(alloc, plan, work, host, &mut queue, log) {
        return Err(fault);
    }
    while let Some(pair) = queue.next() {
        let Ok(work) = one(alloc, pair) else {
            return Err(HostFault::NoMemory);
        };
        if let Err(fault) = chain(alloc, plan, work, host, &mut queue, log) {
            return Err(fault);
        }
    }
    Ok(())
}

/// A work list of one pair.
fn one(alloc: Global, pair: Pair) -> Result<Vec<Fire>, NoMemory>
    ensures { IfOk result (λ work. work.items ≡ fires.Now pair ∷ []) }
{
    let mut work = Vec::new(alloc);
    work.push(Fire::Now(pair))?;
    Ok(work)
}
