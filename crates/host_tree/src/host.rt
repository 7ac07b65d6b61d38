//! What a host is: the calls that look at it and change it.
ghost use Rattle.std.specs.Prelude.{◌≡◌, ℕ, IsTrue, IfOk, OnOk, OnErr, option_map};
ghost use Rattle.std.specs.declared.option.Option.{Option};
ghost use Rattle.host_tree.specs.Acts.{sight, CanWrite, CanMake, CanSetMode, CanRemove, with_file, with_directory, with_link, with_mode, without, LosesPart};
ghost use Rattle.host_tree.specs.Entries.{Entries, at, has_below, IsHost};
ghost use Rattle.host_tree.specs.Faults.{HasHostCause};
ghost use Rattle.host_tree.specs.Told.{Told, Tells};
ghost use Rattle.host_tree.specs.declared.caps.Caps.{Caps as Offered};

use crate::caps::Caps;
use crate::fault::HostFault;
use crate::modes::Mode;
use crate::paths::Path;
use crate::seen::Seen;
use doc_tree::Text;
use std::alloc::Global;

/// A machine, of which the paths below its root are looked at and changed: a folder of the operating system, an image in
/// memory, or another host with changes laid over it.
///
/// A host tells what it holds throughout or never. A call changes nothing that is told but what is said of it, and
/// counts its faults. [`HostFault::Failed`] comes only where the count of faults rose in the call, and any other answer,
/// want of memory too, leaves the count as it was. After a fault a host that tells holds what it held, but for
/// [`Host::remove`].
pub trait Host {
    /// What it holds, where it tells it.
    ghost tells: { Self → Option Entries };

    /// How often it has failed. The count never falls, and stands still at 2^64-1.
    ghost faults: { Self → ℕ };

    /// What it offers besides files and directories, which never changes.
    ghost offers: { Self → Offered };

    /// What it offers besides files and directories.
    fn caps(&self) -> Caps
        ensures { result ≡ offers self.now };

    /// What stands at a path. A link is seen itself, and not what it leads to.
    fn look(&mut self, alloc: Global, path: &Path) -> Result<Seen, HostFault>
        ensures seen { IfOk result (λ seen. Told (tells self.old) (λ host. seen ≡ sight (has_below host path.now) (at host path.now))) }
        ensures host { OnOk result (Told (tells self.old) IsHost) }
        ensures kept { tells self.new ≡ tells self.old }
        ensures offers { offers self.new ≡ offers self.old }
        ensures cause { HasHostCause (faults self.old) (faults self.new) result };

    /// Writes a file, whose parent is a directory reached through no link. A file that is there keeps its mode, and a
    /// new one has mode 0644.
    fn write_file(&mut self, alloc: Global, path: &Path, content: &Text) -> Result<(), HostFault>
        requires { Told (tells self.old) (λ host. CanWrite host path.now) }
        ensures ok { OnOk result (tells self.new ≡ option_map (with_file path.now content.now) (tells self.old)) }
        ensures err { OnErr result (tells self.new ≡ tells self.old) }
        ensures offers { offers self.new ≡ offers self.old }
        ensures cause { HasHostCause (faults self.old) (faults self.new) result };

    /// Makes a directory of mode 0755 where nothing is, whose parent is a directory reached through no link.
    fn make_dir(&mut self, alloc: Global, path: &Path) -> Result<(), HostFault>
        requires { Told (tells self.old) (λ host. CanMake host path.now) }
        ensures ok { OnOk result (tells self.new ≡ option_map (with_directory path.now) (tells self.old)) }
        ensures err { OnErr result (tells self.new ≡ tells self.old) }
        ensures offers { offers self.new ≡ offers self.old }
        ensures cause { HasHostCause (faults self.old) (faults self.new) result };

    /// Makes a link where nothing is, whose parent is a directory reached through no link. The host has to offer links.
    fn make_link(&mut self, alloc: Global, path: &Path, to: &Text) -> Result<(), HostFault>
        requires fits { Told (tells self.old) (λ host. CanMake host path.now) }
        requires offered { IsTrue (offers self.old).links }
        ensures ok { OnOk result (tells self.new ≡ option_map (with_link path.now to.now) (tells self.old)) }
        ensures err { OnErr result (tells self.new ≡ tells self.old) }
        ensures offers { offers self.new ≡ offers self.old }
        ensures cause { HasHostCause (faults self.old) (faults self.new) result };

    /// Sets the mode of a file or directory, whose parent is a directory reached through no link, and changes nothing
    /// else of it. The host has to offer modes.
    fn set_mode(&mut self, alloc: Global, path: &Path, mode: Mode) -> Result<(), HostFault>
        requires fits { Told (tells self.old) (λ host. CanSetMode host path.now) }
        requires offered { IsTrue (offers self.old).modes }
        ensures ok { OnOk result (tells self.new ≡ option_map (with_mode path.now mode) (tells self.old)) }
        ensures err { OnErr result (tells self.new ≡ tells self.old) }
        ensures offers { offers self.new ≡ offers self.old }
        ensures cause { HasHostCause (faults self.old) (faults self.new) result };

    /// Removes what stands at a path, whose parent is a directory reached through no link: a file, a link itself, or a
    /// directory with all that is below it.
    ///
    /// After a fault any part of what was below a directory may be gone; all else is as it was.
    fn remove(&mut self, alloc: Global, path: &Path) -> Result<(), HostFault>
        requires { Told (tells self.old) (λ host. CanRemove host path.now) }
        ensures ok { OnOk result (tells self.new ≡ option_map (without path.now) (tells self.old)) }
        ensures err { OnErr result (Tells (LosesPart path.now) (tells self.old) (tells self.new)) }
        ensures offers { offers self.new ≡ offers self.old }
        ensures cause { HasHostCause (faults self.old) (faults self.new) result };
}
