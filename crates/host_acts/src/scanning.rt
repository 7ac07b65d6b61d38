//! How the proper prefixes of a path are looked at, from the root on.
ghost use Rattle.std.specs.Prelude.{◌≡◌, ◌≢◌, ◌<◌, IfOk, IfSome, IsTrue, None, length};
ghost use Rattle.host_acts.specs.Scanning.{Scanned, obstacle_ending, obstacle_in};
ghost use Rattle.host_tree.specs.Acts.{entry_of};
ghost use Rattle.host_tree.specs.Entries.{IsHost};
ghost use Rattle.host_tree.specs.Faults.{HasHostCause};
ghost use Rattle.host_tree.specs.Paths.{is_normal};
ghost use Rattle.host_tree.specs.Told.{Told};

use host_tree::{Host, HostFault, Path, Seen};
use std::alloc::Global;

/// What stands where a directory is looked for.
#[derive(Clone, Copy)]
pub(crate) enum Obstacle {
    Nothing,
    File,
    Link,
}

/// A proper prefix of a path, the first at which no directory stands.
#[derive(Clone, Copy)]
pub(crate) struct Break {
    /// How long the prefix is.
    pub(crate) end: usize,
    /// What stands there.
    pub(crate) over: Obstacle,
}

/// Looks for the first proper prefix of a path at which no directory stands.
pub(crate) fn scan<H: Host>(
    alloc: Global,
    path: &Path,
    host: &mut H,
) -> Result<Option<Break>, HostFault>
    ensures found { IfOk result (λ found. Told (H.tells host.old) (λ h. Scanned h path.now found)) }
    ensures first { IfOk result (λ found. IfSome found (λ b. 0 < b.end)) }
    ensures normal { IsTrue (is_normal path.now) }
    ensures kept { H.tells host.new ≡ H.tells host.old }
    ensures offers { H.offers host.new ≡ H.offers host.old }
    ensures cause { HasHostCause (H.faults host.old) (H.faults host.new) result }
{
    for end in 1..path.as_str().len() {
        if let Some(over) = obstacle_at(alloc, path, end, host)? {
            return Ok(Some(Break { end, over }));
        }
    }
    Ok(None)
}

/// What stands at the proper prefix that ends here, where one ends here and no directory stands at it.
fn obstacle_at<H: Host>(
    alloc: Global,
    path: &Path,
    end: usize,
    host: &mut H,
) -> Result<Option<Obstacle>, HostFault>
    requires first { 0 < end }
    requires within { end < length path.now }
    ensures found { IfOk result (λ found. Told (H.tells host.old) (λ h. found ≡ obstacle_ending h path.now end)) }
    ensures host { IfOk result (λ found. found ≢ None → Told (H.tells host.old) IsHost) }
    ensures kept { H.tells host.new ≡ H.tells host.old }
    ensures offers { H.offers host.new ≡ H.offers host.old }
    ensures cause { HasHostCause (H.faults host.old) (H.faults host.new) result }
{
    if path.as_str().as_bytes()[end] != b'/' {
        return Ok(None);
    }
    let above = path.prefix(alloc, end)?;
    let seen = host.look(alloc, &above)?;
    Ok(obstacle_of(&seen))
}

fn obstacle_of(seen: &Seen) -> Option<Obstacle>
    ensures { result ≡ obstacle_in (entry_of seen.now) }
{
    match seen {
        Seen::Absent => Some(Obstacle::Nothing),
        Seen::FileThere { .. } => Some(Obstacle::File),
        Seen::FolderThere { .. } => None,
        Seen::LinkThere { .. } => Some(Obstacle::Link),
    }
}
