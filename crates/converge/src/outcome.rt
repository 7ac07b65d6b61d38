//! What a run comes to.
use crate::report::Report;
use host_acts::Cause;

/// What a host may offer besides files and directories.
#[derive(Clone, Copy, Debug, PartialEq, Eq, Drop)]
pub enum Cap {
    Links,
    Modes,
}

/// What a run comes to.
#[derive(Drop)]
pub enum Outcome {
    /// It came to its end, and no act failed.
    Done(Report),
    /// It came to its end, and this is its first act that failed: the resource by its place in the plan, and the action
    /// by its place among those of the resource's type, both from 0.
    Failed {
        resource: usize,
        action: u8,
        cause: Cause,
        report: Report,
    },
    /// The host failed, and counted it. The report has the acts until then.
    HostFault(Report),
    /// The plan needs what the host doesn't offer. Nothing was done.
    LacksCap(Cap),
    /// Memory ran out.
    NoMemory,
}
