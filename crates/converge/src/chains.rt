//! How a work list is performed: one act after another, with what each fires at once, until nothing is left or one failed.
ghost use Rattle.std.specs.Prelude.{◌≡◌, ◌≢◌, ◌<◌, ◌+◌, ◌∷◌, ◌++◌, [], Err, IfOk, IfErr, OnOk, OnErr, List, reverse};
ghost use Rattle.converge.specs.Going.{AreReadyFires, FiresReady, IsQueueOf, IsReady, IsTold, Stopped, Went, left_after, weight, weights};
ghost use Rattle.converge.specs.Pairs.{task_of};
ghost use Rattle.converge.specs.Settled.{fired_pair};
ghost use Rattle.converge.specs.declared.firing.Fire.TheVariants as fires;
ghost use Rattle.host_acts.specs.Acts.{Performs, PerformsPart};
ghost use Rattle.host_tree.specs.Faults.{HasHostCause};
ghost use Rattle.host_tree.specs.Told.{Tells};
ghost use Rattle.host_tree.specs.declared.fault.HostFault.TheVariants as fault;
ghost use Rattle.resource_core.specs.Plans.{IsSound};
ghost use Rattle.notify_queue.specs.declared.pair.Pair.{Pair as Paired};

use crate::deeds::Deed;
use crate::firing::{Fire, push_fires};
use crate::log::Log;
use doc_tree::NoMemory;
use host_acts::{Verdict, perform};
use host_tree::{Host, HostFault};
use notify_queue::{Pair, Queue};
use resource_core::RunPlan;
use std::alloc::Global;

/// Performs a work list, the last of it first, on a stack of its own: what an update fires at once comes before the rest.
/// After a failed act nothing more is performed of it.
pub(crate) fn chain<H: Host>(
    alloc: Global,
    plan: &RunPlan,
    work: Vec<Fire>,
    host: &mut H,
    queue: &mut Queue,
    log: &mut Log,
) -> Result<(), HostFault>
    requires ready { AreReadyFires plan.now (H.offers host.old) (reverse work.items) }
    requires fires { FiresReady plan.now (H.offers host.old) }
    requires queue { IsQueueOf plan.now (H.offers host.old) queue.old }
    requires told { IsTold plan.now log.old }
    ensures went { OnOk result (Tells (Went plan.now (reverse work.items) log.old.acts.items queue.old.ever [] log.new.acts.items queue.new.ever) (H.tells host.old) (H.tells host.new)) }
    ensures stopped { IfErr result (λ why. Tells (Stopped plan.now (reverse work.items) log.old.acts.items log.new.acts.items why) (H.tells host.old) (H.tells host.new)) }
    ensures offers { H.offers host.new ≡ H.offers host.old }
    ensures cause { HasHostCause (H.faults host.old) (H.faults host.new) result }
    ensures queue { IsQueueOf plan.now (H.offers host.old) queue.new }
    ensures taken { queue.new.taken ≡ queue.old.taken }
    ensures told { result ≢ Err fault.NoMemory → IsTold plan.now log.new }
{
    let mut todo = work;
    while let Some(fire) = todo.pop() {
        if let Err(fault) = turn(alloc, plan, fire, &mut todo, host, queue, log) {
            return Err(fault);
        }
    }
    Ok(())
}

/// Takes the next of a work list, of which these are left.
fn turn<H: Host>(
    alloc: Global,
    plan: &RunPlan,
    fire: Fire,
    todo: &mut Vec<Fire>,
    host: &mut H,
    queue: &mut Queue,
    log: &mut Log,
) -> Result<(), HostFault>
    requires next { IsReady plan.now (H.offers host.old) (fired_pair fire) }
    requires ready { AreReadyFires plan.now (H.offers host.old) (reverse todo.old.items) }
    requires fires { FiresReady plan.now (H.offers host.old) }
    requires queue { IsQueueOf plan.now (H.offers host.old) queue.old }
    requires told { IsTold plan.now log.old }
    ensures went { OnOk result (Tells (Went plan.now (fire ∷ reverse todo.old.items) log.old.acts.items queue.old.ever (reverse todo.new.items) log.new.acts.items queue.new.ever) (H.tells host.old) (H.tells host.new)) }
    ensures stopped { IfErr result (λ why. Tells (Stopped plan.now (fire ∷ reverse todo.old.items) log.old.acts.items log.new.acts.items why) (H.tells host.old) (H.tells host.new)) }
    ensures lighter { OnOk result (weights plan.now (reverse todo.new.items) < weight plan.now fire + weights plan.now (reverse todo.old.items)) }
    ensures ready { OnOk result (AreReadyFires plan.now (H.offers host.old) (reverse todo.new.items)) }
    ensures offers { H.offers host.new ≡ H.offers host.old }
    ensures cause { HasHostCause (H.faults host.old) (H.faults host.new) result }
    ensures queue { IsQueueOf plan.now (H.offers host.old) queue.new }
    ensures taken { queue.new.taken ≡ queue.old.taken }
    ensures told { result ≢ Err fault.NoMemory → IsTold plan.now log.new }
{
    match fire {
        Fire::Now(pair) => perform_next(alloc, plan, pair, todo, host, log),
        Fire::Later(pair) => {
            queue.queue(pair);
            Ok(())
        }
    }
}

/// Performs the next of a work list, of which these are left, and notes it.
fn perform_next<H: Host>(
    alloc: Global,
    plan: &RunPlan,
    pair: Pair,
    todo: &mut Vec<Fire>,
    host: &mut H,
    log: &mut Log,
) -> Result<(), HostFault>
    requires next { IsReady plan.now (H.offers host.old) pair }
    requires ready { AreReadyFires plan.now (H.offers host.old) (reverse todo.old.items) }
    requires fires { FiresReady plan.now (H.offers host.old) }
    requires told { IsTold plan.now log.old }
    ensures went { (ever : List Paired) → OnOk result (Tells (Went plan.now (fires.Now pair ∷ reverse todo.old.items) log.old.acts.items ever (reverse todo.new.items) log.new.acts.items ever) (H.tells host.old) (H.tells host.new)) }
    ensures stopped { IfErr result (λ why. Tells (Stopped plan.now (fires.Now pair ∷ reverse todo.old.items) log.old.acts.items log.new.acts.items why) (H.tells host.old) (H.tells host.new)) }
    ensures lighter { OnOk result (weights plan.now (reverse todo.new.items) < weight plan.now (fires.Now pair) + weights plan.now (reverse todo.old.items)) }
    ensures ready { OnOk result (AreReadyFires plan.now (H.offers host.old) (reverse todo.new.items)) }
    ensures offers { H.offers host.new ≡ H.offers host.old }
    ensures cause { HasHostCause (H.faults host.old) (H.faults host.new) result }
    ensures told { result ≢ Err fault.NoMemory → IsTold plan.now log.new }
{
    let verdict = match perform_pair(alloc, plan, pair, host) {
        Err(fault) => return Err(fault),
        Ok(None) => return Ok(()),
        Ok(Some(verdict)) => verdict,
    };
    match go_on(alloc, plan, Deed { pair, verdict }, todo, log) {
        Ok(()) => Ok(()),
        Err(NoMemory) => Err(HostFault::NoMemory),
    }
}

/// Notes an act, and leaves what is left of the work list once its pair came to its verdict.
fn go_on(
    alloc: Global,
    plan: &RunPlan,
    act: Deed,
    todo: &mut Vec<Fire>,
    log: &mut Log,
) -> Result<(), NoMemory>
    requires { IsTold plan.now log.old }
    ensures noted { OnOk result (log.new.acts.items ≡ log.old.acts.items ++ act ∷ []) }
    ensures left { OnOk result (reverse todo.new.items ≡ left_after plan.now act.pair act.verdict (reverse todo.old.items)) }
    ensures told { OnOk result (IsTold plan.now log.new) }
{
    log.note(alloc, plan, act)?;
    leave(plan, act, todo)
}

fn leave(plan: &RunPlan, act: Deed, todo: &mut Vec<Fire>) -> Result<(), NoMemory>
    ensures { OnOk result (reverse todo.new.items ≡ left_after plan.now act.pair act.verdict (reverse todo.old.items)) }
{
    match act.verdict {
        Verdict::UpToDate => Ok(()),
        Verdict::Updated => push_fires(plan, act.pair, todo),
        Verdict::Failed(_) => {
            todo.clear();
            Ok(())
        }
    }
}

/// Performs a pair.
fn perform_pair<H: Host>(
    alloc: Global,
    plan: &RunPlan,
    pair: Pair,
    host: &mut H,
) -> Result<Option<Verdict>, HostFault>
    requires { IsReady plan.now (H.offers host.old) pair }
    ensures act { IfOk result (λ done. Tells (Performs (task_of plan.now pair) done) (H.tells host.old) (H.tells host.new)) }
    ensures part { OnErr result (Tells (PerformsPart (task_of plan.now pair)) (H.tells host.old) (H.tells host.new)) }
    ensures offers { H.offers host.new ≡ H.offers host.old }
    ensures cause { HasHostCause (H.faults host.old) (H.faults host.new) result }
    ensures sound { IsSound plan.now }
{
    let Some(resource) = plan.resources().get(pair.resource) else {
        return Ok(None);
    };
    let Some(action) = resource.kind.actions().get(usize::from(pair.action)) else {
        return Ok(None);
    };
    perform(alloc, resource, *action, host)
}
