//! Acts with what they came to.
ghost use Rattle.std.specs.Prelude.{◌≡◌, option_map};
ghost use Rattle.converge.specs.Reports as reports;
ghost use Rattle.converge.specs.Runs as spec;
ghost use Rattle.converge.specs.Counting.{failed_of};

use host_acts::{Cause, Verdict};
use notify_queue::Pair;

/// An act: the pair that was performed, and what it came to.
#[derive(Clone, Copy, Drop)]
pub(crate) struct Deed {
    pub(crate) pair: Pair,
    pub(crate) verdict: Verdict,
}

/// An act that failed.
#[derive(Clone, Copy, Drop)]
pub(crate) struct Failure {
    pub(crate) pair: Pair,
    pub(crate) cause: Cause,
}

/// The first act that failed.
pub(crate) fn first_failed(acts: &[Deed]) -> Option<Failure>
    ensures { option_map failed_of result ≡ spec.first_failed acts.now }
{
    for act in acts {
        if let Verdict::Failed(cause) = act.verdict {
            return Some(Failure {
                pair: act.pair,
                cause,
            });
        }
    }
    None
}

/// How many acts updated.
pub(crate) fn updates_in(acts: &[Deed]) -> usize
    ensures { result ≡ reports.updates_in acts.now }
{
    acts.iter().filter(|act| is_update(act.verdict)).count()
}

fn is_update(verdict: Verdict) -> bool
    ensures { result ≡ reports.is_update verdict }
{
    match verdict {
        Verdict::Updated => true,
        Verdict::UpToDate | Verdict::Failed(_) => false,
    }
}
