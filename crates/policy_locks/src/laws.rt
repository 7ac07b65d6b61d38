//! Laws: what a stored lock is read as.
ghost use Rattle.policy_locks.specs.Laws.{LocksReadBack, RevisionsAreNames};

use run_lists::run_lists_read_back;

/// What a body gave, as a policy's lock or any, is read as itself from its stored object.
pub fn locks_read_back()
    ensures { LocksReadBack }
{
    run_lists_read_back();
}

/// The revision of a lock that a body gave is a Name.
pub fn revisions_are_names()
    ensures { RevisionsAreNames }
{}
