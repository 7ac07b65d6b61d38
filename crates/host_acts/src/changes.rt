//! How the change of an act is made at a path of which each proper prefix is a directory.
ghost use Rattle.std.specs.Prelude.{◌≡◌, OnOk, OnErr, IsTrue, is_some, option_map, Some};
ghost use Rattle.host_acts.specs.Acts.{IsPart, Updates, or_directory};
ghost use Rattle.host_acts.specs.Changes as spec;
ghost use Rattle.host_acts.specs.Steps.{step_seen};
ghost use Rattle.host_acts.specs.Tasks.{Offers, needs_for, task_at};
ghost use Rattle.host_acts.specs.Works.{work_in};
ghost use Rattle.host_acts.specs.declared.steps.Step.TheVariants as to;
ghost use Rattle.host_tree.specs.Acts.{CanSetMode, CanWrite, entry_of, with_file};
ghost use Rattle.host_tree.specs.Faults.{HasHostCause};
ghost use Rattle.host_tree.specs.Told.{Told, Tells};
ghost use Rattle.host_tree.specs.declared.entry.Entry.TheVariants as entry;

use crate::steps::{fits_mode, fits_text};
use crate::works::Work;
use doc_tree::Text;
use host_tree::{Host, HostFault, Mode, Path, Seen};
use std::alloc::Global;

/// Makes the change that the work is, where this was seen and it is to change something.
pub(crate) fn change<H: Host>(
    alloc: Global,
    path: &Path,
    work: &Work<'_>,
    seen: &Seen,
    host: &mut H,
) -> Result<(), HostFault>
    requires stands { Told (H.tells host.old) (spec.Stands path.now seen.now) }
    requires changes { step_seen (work_in work.now) seen.now ≡ to.Changes }
    requires offered { Offers (H.offers host.old) (needs_for (work_in work.now)) }
    ensures ok { OnOk result (Tells (Updates (task_at path.now (work_in work.now))) (H.tells host.old) (H.tells host.new)) }
    ensures err { OnErr result (Tells (IsPart (task_at path.now (work_in work.now))) (H.tells host.old) (H.tells host.new)) }
    ensures offers { H.offers host.new ≡ H.offers host.old }
    ensures cause { HasHostCause (H.faults host.old) (H.faults host.new) result }
{
    match work {
        Work::MakeFile { content, mode, .. } => {
            put_file(alloc, path, *content, *mode, seen, host)
        }
        Work::MakeMissingFile { content, mode } => {
            put_file(alloc, path, *content, *mode, seen, host)
        }
        Work::MakeDirectory { mode, .. } => put_directory(alloc, path, *mode, seen, host),
        Work::MakeLink { to } => put_link(alloc, path, to, seen, host),
        Work::RemoveFile | Work::RemoveDirectory { .. } | Work::RemoveLink => {
            host.remove(alloc, path)
        }
    }
}

/// Makes a file of what was seen, which is no directory, with what is given.
fn put_file<H: Host>(
    alloc: Global,
    path: &Path,
    content: Option<&Text>,
    mode: Option<Mode>,
    seen: &Seen,
    host: &mut H,
) -> Result<(), HostFault>
    requires stands { Told (H.tells host.old) (spec.Stands path.now seen.now) }
    requires fits { spec.IsNoDirectory (entry_of seen.now) }
    requires offered { IsTrue (is_some mode) → IsTrue (H.offers host.old).modes }
    ensures ok { OnOk result (Tells (spec.Becomes path.now (spec.file_put (option_map (λ t. t.now) content.entry) mode (entry_of seen.now))) (H.tells host.old) (H.tells host.new)) }
    ensures err { OnErr result (Tells (spec.KeepsOthers path.now) (H.tells host.old) (H.tells host.new)) }
    ensures offers { H.offers host.new ≡ H.offers host.old }
    ensures cause { HasHostCause (H.faults host.old) (H.faults host.new) result }
{
    unlink(alloc, path, seen, host)?;
    put_content(alloc, path, content, seen, host)?;
    set_mode(alloc, path, mode_due(mode, seen), host)
}

/// Makes a directory of what was seen, which is neither a file nor a link, with the mode that is given.
fn put_directory<H: Host>(
    alloc: Global,
    path: &Path,
    mode: Option<Mode>,
    seen: &Seen,
    host: &mut H,
) -> Result<(), HostFault>
    requires stands { Told (H.tells host.old) (spec.Stands path.now seen.now) }
    requires fits { spec.IsDirectoryOrNone (entry_of seen.now) }
    requires offered { IsTrue (is_some mode) → IsTrue (H.offers host.old).modes }
    ensures ok { OnOk result (Tells (spec.Becomes path.now (spec.directory_with mode (entry_of seen.now))) (H.tells host.old) (H.tells host.new)) }
    ensures err { OnErr result (Tells (spec.KeepsOthers path.now) (H.tells host.old) (H.tells host.new)) }
    ensures offers { H.offers host.new ≡ H.offers host.old }
    ensures cause { HasHostCause (H.faults host.old) (H.faults host.new) result }
{
    make_absent(alloc, path, seen, host)?;
    set_mode(alloc, path, mode_due(mode, seen), host)
}

/// Makes a link of what was seen, which is a link or nothing.
fn put_link<H: Host>(
    alloc: Global,
    path: &Path,
    to: &Text,
    seen: &Seen,
    host: &mut H,
) -> Result<(), HostFault>
    requires stands { Told (H.tells host.old) (spec.Stands path.now seen.now) }
    requires fits { spec.IsLinkOrNone (entry_of seen.now) }
    requires offered { IsTrue (H.offers host.old).links }
    ensures ok { OnOk result (Tells (spec.Becomes path.now (Some (entry.Link to.now))) (H.tells host.old) (H.tells host.new)) }
    ensures err { OnErr result (Tells (spec.KeepsOthers path.now) (H.tells host.old) (H.tells host.new)) }
    ensures offers { H.offers host.new ≡ H.offers host.old }
    ensures cause { HasHostCause (H.faults host.old) (H.faults host.new) result }
{
    unlink(alloc, path, seen, host)?;
    host.make_link(alloc, path, to)
}

/// Removes what was seen where that is a link.
fn unlink<H: Host>(alloc: Global, path: &Path, seen: &Seen, host: &mut H) -> Result<(), HostFault>
    requires { Told (H.tells host.old) (spec.Stands path.now seen.now) }
    ensures ok { OnOk result (Tells (spec.Becomes path.now (spec.unlinked (entry_of seen.now))) (H.tells host.old) (H.tells host.new)) }
    ensures err { OnErr result (H.tells host.new ≡ H.tells host.old) }
    ensures offers { H.offers host.new ≡ H.offers host.old }
    ensures cause { HasHostCause (H.faults host.old) (H.faults host.new) result }
{
    match seen {
        Seen::LinkThere { .. } => host.remove(alloc, path),
        Seen::Absent | Seen::FileThere { .. } | Seen::FolderThere { .. } => Ok(()),
    }
}

/// Makes a directory where nothing was seen.
fn make_absent<H: Host>(
    alloc: Global,
    path: &Path,
    seen: &Seen,
    host: &mut H,
) -> Result<(), HostFault>
    requires { Told (H.tells host.old) (spec.Stands path.now seen.now) }
    ensures ok { OnOk result (Tells (spec.Becomes path.now (or_directory (entry_of seen.now))) (H.tells host.old) (H.tells host.new)) }
    ensures err { OnErr result (H.tells host.new ≡ H.tells host.old) }
    ensures offers { H.offers host.new ≡ H.offers host.old }
    ensures cause { HasHostCause (H.faults host.old) (H.faults host.new) result }
{
    match seen {
        Seen::Absent => host.make_dir(alloc, path),
        Seen::FileThere { .. } | Seen::FolderThere { .. } | Seen::LinkThere { .. } => Ok(()),
    }
}

/// Writes the content that is given, or none, unless the file that was seen keeps its own.
fn put_content<H: Host>(
    alloc: Global,
    path: &Path,
    content: Option<&Text>,
    seen: &Seen,
    host: &mut H,
) -> Result<(), HostFault>
    requires stands { Told (H.tells host.old) (spec.IsUnlinked path.now (entry_of seen.now)) }
    requires fits { spec.IsNoDirectory (entry_of seen.now) }
    ensures ok { OnOk result (Tells (spec.Becomes path.now (spec.content_put (option_map (λ t. t.now) content.entry) (entry_of seen.now))) (H.tells host.old) (H.tells host.new)) }
    ensures err { OnErr result (H.tells host.new ≡ H.tells host.old) }
    ensures offers { H.offers host.new ≡ H.offers host.old }
    ensures cause { HasHostCause (H.faults host.old) (H.faults host.new) result }
{
    if is_kept(content, seen) {
        Ok(())
    } else {
        write(alloc, path, content, host)
    }
}

/// Whether what was seen is a file that keeps its content: none is given, or the one that it has.
fn is_kept(content: Option<&Text>, seen: &Seen) -> bool
    ensures { result ≡ spec.is_kept (option_map (λ t. t.now) content.entry) (entry_of seen.now) }
{
    match seen {
        Seen::FileThere {
            content: before,
            ..
        } => fits_text(content, before.as_slice()),
        Seen::Absent | Seen::FolderThere { .. } | Seen::LinkThere { .. } => false,
    }
}

/// Writes the content that is given, or none.
fn write<H: Host>(
    alloc: Global,
    path: &Path,
    content: Option<&Text>,
    host: &mut H,
) -> Result<(), HostFault>
    requires { Told (H.tells host.old) (λ h. CanWrite h path.now) }
    ensures ok { OnOk result (H.tells host.new ≡ option_map (with_file path.now (spec.text_of (option_map (λ t. t.now) content.entry))) (H.tells host.old)) }
    ensures err { OnErr result (H.tells host.new ≡ H.tells host.old) }
    ensures offers { H.offers host.new ≡ H.offers host.old }
    ensures cause { HasHostCause (H.faults host.old) (H.faults host.new) result }
{
    match content {
        Some(text) => host.write_file(alloc, path, text),
        None => {
            let empty = Text::from_str(alloc, "")?;
            host.write_file(alloc, path, &empty)
        }
    }
}

/// The mode that is to be set: the one that is given, unless what was seen has it.
fn mode_due(mode: Option<Mode>, seen: &Seen) -> Option<Mode>
    ensures { result ≡ spec.mode_due mode (entry_of seen.now) }
{
    match seen {
        Seen::Absent | Seen::LinkThere { .. } => mode,
        Seen::FileThere { mode: before, .. } | Seen::FolderThere { mode: before, .. } => {
            if fits_mode(mode.as_ref(), before) {
                None
            } else {
                mode
            }
        }
    }
}

/// Sets the mode that is due, if one is.
fn set_mode<H: Host>(
    alloc: Global,
    path: &Path,
    due: Option<Mode>,
    host: &mut H,
) -> Result<(), HostFault>
    requires fits { Told (H.tells host.old) (λ h. CanSetMode h path.now) }
    requires offered { IsTrue (is_some due) → IsTrue (H.offers host.old).modes }
    ensures ok { OnOk result (Tells (spec.SetsDue path.now due) (H.tells host.old) (H.tells host.new)) }
    ensures err { OnErr result (H.tells host.new ≡ H.tells host.old) }
    ensures offers { H.offers host.new ≡ H.offers host.old }
    ensures cause { HasHostCause (H.faults host.old) (H.faults host.new) result }
{
    match due {
        Some(mode) => host.set_mode(alloc, path, mode),
        None => Ok(()),
    }
}
