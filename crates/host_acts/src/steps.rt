//! What an act comes to, by what is seen: nothing is to be done, it fails, or it changes something.
ghost use Rattle.std.specs.Prelude.{◌≡◌, option_map};
ghost use Rattle.host_acts.specs.Acts.{cause_here, is_removal, makes_prefixes};
ghost use Rattle.host_acts.specs.Steps as spec;
ghost use Rattle.host_acts.specs.Tasks.{want_of};
ghost use Rattle.host_acts.specs.Wants as wants;
ghost use Rattle.host_acts.specs.Works.{work_in};
ghost use Rattle.host_tree.specs.Acts.{entry_of};

use crate::cause::Cause;
use crate::scanning::Obstacle;
use crate::works::Work;
use doc_tree::Text;
use host_tree::{Mode, Seen};

/// What is to be done.
#[derive(Clone, Copy)]
pub(crate) enum Step {
    /// Nothing: what is wanted holds.
    Stays,
    /// It fails, with its first cause.
    Fails(Cause),
    /// The work is done.
    Changes,
}

/// What is to be done where all proper prefixes of the path are directories, and this was seen at it.
pub(crate) fn step_seen(work: &Work<'_>, seen: &Seen) -> Step
    ensures { result ≡ spec.step_seen (work_in work.now) seen.now }
{
    if is_wanted(work, seen) {
        return Step::Stays;
    }
    match cause_seen(work, seen) {
        Some(cause) => Step::Fails(cause),
        None => Step::Changes,
    }
}

fn is_wanted(work: &Work<'_>, seen: &Seen) -> bool
    ensures { result ≡ spec.is_wanted (want_of (work_in work.now)) (entry_of seen.now) }
{
    match work {
        Work::MakeFile { content, mode, .. } => is_file(*content, mode.as_ref(), seen),
        Work::MakeMissingFile { .. } => matches!(seen, Seen::FileThere { .. }),
        Work::MakeDirectory { mode, .. } => is_directory(mode.as_ref(), seen),
        Work::MakeLink { to } => is_link(to, seen),
        Work::RemoveFile | Work::RemoveDirectory { .. } | Work::RemoveLink => {
            matches!(seen, Seen::Absent)
        }
    }
}

fn is_file(content: Option<&Text>, mode: Option<&Mode>, seen: &Seen) -> bool
    ensures { result ≡ spec.is_wanted (wants.file (option_map (λ t. t.now) content.entry) (option_map (λ m. m.now) mode.entry)) (entry_of seen.now) }
{
    match seen {
        Seen::FileThere {
            content: before,
            mode: bits,
        } => fits_text(content, before.as_slice()) && fits_mode(mode, bits),
        Seen::Absent | Seen::FolderThere { .. } | Seen::LinkThere { .. } => false,
    }
}

fn is_directory(mode: Option<&Mode>, seen: &Seen) -> bool
    ensures { result ≡ spec.is_wanted (wants.directory (option_map (λ m. m.now) mode.entry)) (entry_of seen.now) }
{
    match seen {
        Seen::FolderThere { mode: bits, .. } => fits_mode(mode, bits),
        Seen::Absent | Seen::FileThere { .. } | Seen::LinkThere { .. } => false,
    }
}

fn is_link(to: &Text, seen: &Seen) -> bool
    ensures { result ≡ spec.is_wanted (wants.link to.now) (entry_of seen.now) }
{
    match seen {
        Seen::LinkThere { to: before } => to.as_str() == before.as_str(),
        Seen::Absent | Seen::FileThere { .. } | Seen::FolderThere { .. } => false,
    }
}

/// Whether a text is the one that is given, if one is.
pub(crate) fn fits_text(given: Option<&Text>, before: &[u8]) -> bool
    ensures { result ≡ spec.fits_text (option_map (λ t. t.now) given.entry) before.now }
{
    match given {
        Some(text) => text.as_bytes() == before,
        None => true,
    }
}

/// Whether a mode is the one that is given, if one is.
pub(crate) fn fits_mode(given: Option<&Mode>, before: &Mode) -> bool
    ensures { result ≡ spec.fits_mode (option_map (λ m. m.now) given.entry) before.now }
{
    match given {
        Some(mode) => mode.bits() == before.bits(),
        None => true,
    }
}

fn cause_seen(work: &Work<'_>, seen: &Seen) -> Option<Cause>
    ensures { result ≡ cause_here (work_in work.now) (spec.is_filled seen.now) (entry_of seen.now) }
{
    match work {
        Work::MakeFile { replaces_link, .. } => file_cause(*replaces_link, seen),
        Work::MakeMissingFile { .. } => file_cause(false, seen),
        Work::RemoveFile => file_cause(true, seen),
        Work::MakeDirectory { .. } => directory_cause(true, seen),
        Work::RemoveDirectory { recursive } => directory_cause(*recursive, seen),
        Work::MakeLink { .. } | Work::RemoveLink => link_cause(seen),
    }
}

/// Why work on a file fails where this is seen, if it does: it goes over links or it doesn't.
fn file_cause(over_links: bool, seen: &Seen) -> Option<Cause>
    ensures { result ≡ spec.file_cause over_links (entry_of seen.now) }
{
    match seen {
        Seen::Absent | Seen::FileThere { .. } => None,
        Seen::FolderThere { .. } => Some(Cause::NotAFile),
        Seen::LinkThere { .. } => {
            if over_links {
                None
            } else {
                Some(Cause::NotAFile)
            }
        }
    }
}

/// Why work on a directory fails where this is seen, if it does: it may have something in it or it may not.
fn directory_cause(may_be_filled: bool, seen: &Seen) -> Option<Cause>
    ensures { result ≡ spec.directory_cause may_be_filled (spec.is_filled seen.now) (entry_of seen.now) }
{
    match seen {
        Seen::Absent => None,
        Seen::FileThere { .. } | Seen::LinkThere { .. } => Some(Cause::NotADirectory),
        Seen::FolderThere { empty, .. } => {
            if may_be_filled || *empty {
                None
            } else {
                Some(Cause::NotEmpty)
            }
        }
    }
}

/// Why work on a link fails where this is seen, if it does.
fn link_cause(seen: &Seen) -> Option<Cause>
    ensures { result ≡ spec.link_cause (entry_of seen.now) }
{
    match seen {
        Seen::Absent | Seen::LinkThere { .. } => None,
        Seen::FileThere { .. } | Seen::FolderThere { .. } => Some(Cause::NotALink),
    }
}

/// What is to be done where this is at the first proper prefix of the path that is no directory.
pub(crate) fn step_over(work: &Work<'_>, over: Obstacle) -> Step
    ensures { result ≡ spec.step_over (work_in work.now) over }
{
    match cause_over(work, over) {
        Some(cause) => Step::Fails(cause),
        None => {
            if is_removal(work) {
                Step::Stays
            } else {
                Step::Changes
            }
        }
    }
}

fn cause_over(work: &Work<'_>, over: Obstacle) -> Option<Cause>
    ensures { result ≡ spec.cause_over (work_in work.now) over }
{
    match over {
        Obstacle::Nothing => {
            if is_removal(work) || makes_prefixes(work) {
                None
            } else {
                Some(Cause::ParentMissing)
            }
        }
        Obstacle::File => {
            if is_removal(work) {
                None
            } else {
                Some(Cause::NotADirectory)
            }
        }
        Obstacle::Link => Some(Cause::LinkInPath),
    }
}

fn is_removal(work: &Work<'_>) -> bool
    ensures { result ≡ is_removal (work_in work.now) }
{
    matches!(
        work,
        Work::RemoveFile | Work::RemoveDirectory { .. } | Work::RemoveLink
    )
}

fn makes_prefixes(work: &Work<'_>) -> bool
    ensures { result ≡ makes_prefixes (work_in work.now) }
{
    match work {
        Work::MakeDirectory { recursive, .. } => *recursive,
        _ => false,
    }
}
