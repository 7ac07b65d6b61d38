//! How an action of a resource is performed: a look, and then nothing, a failure with its first cause, or the change.
ghost use Rattle.std.specs.Prelude.{◌≡◌, ◌<◌, IfOk, IsTrue, OnErr, is_some};
ghost use Rattle.host_acts.specs.Acts as spec;
ghost use Rattle.host_acts.specs.Scanning.{BreaksAt};
ghost use Rattle.host_acts.specs.Tasks.{Offers, needs, needs_for, task, task_at};
ghost use Rattle.host_acts.specs.Works.{work_in};
ghost use Rattle.host_tree.specs.Acts.{IsReached};
ghost use Rattle.host_tree.specs.Faults.{HasHostCause};
ghost use Rattle.host_tree.specs.Paths.{is_normal};
ghost use Rattle.host_tree.specs.Told.{Told, Tells};

use crate::changes::change;
use crate::prefixes::make_prefixes;
use crate::scanning::{Break, scan};
use crate::steps::{Step, step_over, step_seen};
use crate::verdict::Verdict;
use crate::works::{Work, work_of};
use host_tree::{Host, HostFault, Path};
use resource_core::{Action, Resource};
use std::alloc::Global;

/// Performs an action of a resource over a host: where what it wants holds already, nothing is done; else where something
/// is in the way, it fails with the first cause and nothing is done; else it is done, and what it wants holds.
///
/// The host has to offer what the action needs, as [`needs_of`](crate::needs_of) says. The verdict is `None` exactly for
/// an action that does nothing: `nothing`, and besides one that the resource's type lacks and a link that is to be made
/// without its `to`, of which a plan has neither.
///
/// After a fault the host may differ from what it was only at the resource's path, at missing prefixes of it that became
/// directories, and below a directory that is removed.
pub fn perform<H: Host>(
    alloc: Global,
    resource: &Resource,
    action: Action,
    host: &mut H,
) -> Result<Option<Verdict>, HostFault>
    requires { Offers (H.offers host.old) (needs resource.now action) }
    ensures act { IfOk result (λ done. Tells (spec.Performs (task resource.now action) done) (H.tells host.old) (H.tells host.new)) }
    ensures acts { IfOk result (λ done. is_some done ≡ is_some (task resource.now action)) }
    ensures part { OnErr result (Tells (spec.PerformsPart (task resource.now action)) (H.tells host.old) (H.tells host.new)) }
    ensures offers { H.offers host.new ≡ H.offers host.old }
    ensures cause { HasHostCause (H.faults host.old) (H.faults host.new) result }
{
    match work_of(resource, action) {
        Some(work) => {
            let verdict = perform_at(alloc, &resource.path, &work, host)?;
            Ok(Some(verdict))
        }
        None => Ok(None),
    }
}

/// Performs work at a path.
fn perform_at<H: Host>(
    alloc: Global,
    path: &Path,
    work: &Work<'_>,
    host: &mut H,
) -> Result<Verdict, HostFault>
    requires { Offers (H.offers host.old) (needs_for (work_in work.now)) }
    ensures act { IfOk result (λ verdict. Tells (spec.ActsTo (task_at path.now (work_in work.now)) verdict) (H.tells host.old) (H.tells host.new)) }
    ensures part { OnErr result (Tells (spec.IsPart (task_at path.now (work_in work.now))) (H.tells host.old) (H.tells host.new)) }
    ensures offers { H.offers host.new ≡ H.offers host.old }
    ensures cause { HasHostCause (H.faults host.old) (H.faults host.new) result }
{
    match scan(alloc, path, host)? {
        None => perform_reached(alloc, path, work, host),
        Some(found) => perform_broken(alloc, path, work, found, host),
    }
}

/// Performs work at a path of which each proper prefix is a directory.
fn perform_reached<H: Host>(
    alloc: Global,
    path: &Path,
    work: &Work<'_>,
    host: &mut H,
) -> Result<Verdict, HostFault>
    requires normal { IsTrue (is_normal path.now) }
    requires reached { Told (H.tells host.old) (λ h. IsReached h path.now) }
    requires offered { Offers (H.offers host.old) (needs_for (work_in work.now)) }
    ensures act { IfOk result (λ verdict. Tells (spec.ActsTo (task_at path.now (work_in work.now)) verdict) (H.tells host.old) (H.tells host.new)) }
    ensures part { OnErr result (Tells (spec.IsPart (task_at path.now (work_in work.now))) (H.tells host.old) (H.tells host.new)) }
    ensures offers { H.offers host.new ≡ H.offers host.old }
    ensures cause { HasHostCause (H.faults host.old) (H.faults host.new) result }
{
    let seen = host.look(alloc, path)?;
    match step_seen(work, &seen) {
        Step::Stays => Ok(Verdict::UpToDate),
        Step::Fails(cause) => Ok(Verdict::Failed(cause)),
        Step::Changes => {
            change(alloc, path, work, &seen, host)?;
            Ok(Verdict::Updated)
        }
    }
}

/// Performs work at a path of which this proper prefix is no directory.
fn perform_broken<H: Host>(
    alloc: Global,
    path: &Path,
    work: &Work<'_>,
    found: Break,
    host: &mut H,
) -> Result<Verdict, HostFault>
    requires normal { IsTrue (is_normal path.now) }
    requires broken { Told (H.tells host.old) (λ h. BreaksAt h path.now found) }
    requires first { 0 < found.end }
    requires offered { Offers (H.offers host.old) (needs_for (work_in work.now)) }
    ensures act { IfOk result (λ verdict. Tells (spec.ActsTo (task_at path.now (work_in work.now)) verdict) (H.tells host.old) (H.tells host.new)) }
    ensures part { OnErr result (Tells (spec.IsPart (task_at path.now (work_in work.now))) (H.tells host.old) (H.tells host.new)) }
    ensures offers { H.offers host.new ≡ H.offers host.old }
    ensures cause { HasHostCause (H.faults host.old) (H.faults host.new) result }
{
    match step_over(work, found.over) {
        Step::Stays => Ok(Verdict::UpToDate),
        Step::Fails(cause) => Ok(Verdict::Failed(cause)),
        Step::Changes => {
            make_prefixes(alloc, path, found, host)?;
            perform_reached(alloc, path, work, host)
        }
    }
}
