//! How missing prefixes of a path are made.
ghost use Rattle.std.specs.Prelude.{◌≡◌, ◌<◌, OnOk, OnErr, length, take, slice_index};
ghost use Rattle.host_acts.specs.Changes.{BuiltPart, BuiltUpTo, MakesPrefix};
ghost use Rattle.host_acts.specs.Scanning.{BreaksAt};
ghost use Rattle.host_acts.specs.declared.scanning.Obstacle.TheVariants as over;
ghost use Rattle.host_tree.specs.Acts.{CanMake};
ghost use Rattle.host_tree.specs.Faults.{HasHostCause};
ghost use Rattle.host_tree.specs.Told.{Told, Tells};

use crate::scanning::Break;
use host_tree::{Host, HostFault, Path};
use std::alloc::Global;

/// Makes the proper prefixes of a path from the first that is missing on, each with mode 0755.
pub(crate) fn make_prefixes<H: Host>(
    alloc: Global,
    path: &Path,
    found: Break,
    host: &mut H,
) -> Result<(), HostFault>
    requires broken { Told (H.tells host.old) (λ h. BreaksAt h path.now found) }
    requires first { 0 < found.end }
    requires missing { found.over ≡ over.Nothing }
    ensures ok { OnOk result (Tells (BuiltUpTo path.now (length path.now)) (H.tells host.old) (H.tells host.new)) }
    ensures err { OnErr result (Tells (BuiltPart path.now) (H.tells host.old) (H.tells host.new)) }
    ensures offers { H.offers host.new ≡ H.offers host.old }
    ensures cause { HasHostCause (H.faults host.old) (H.faults host.new) result }
{
    for end in found.end..path.as_str().len() {
        make_prefix(alloc, path, end, host)?;
    }
    Ok(())
}

/// Makes the proper prefix that ends here, where one does.
fn make_prefix<H: Host>(
    alloc: Global,
    path: &Path,
    end: usize,
    host: &mut H,
) -> Result<(), HostFault>
    requires first { 0 < end }
    requires within { end < length path.now }
    requires missing { slice_index path.now end ≡ 47 → Told (H.tells host.old) (λ h. CanMake h (take end path.now)) }
    ensures ok { OnOk result (Tells (MakesPrefix path.now end) (H.tells host.old) (H.tells host.new)) }
    ensures err { OnErr result (H.tells host.new ≡ H.tells host.old) }
    ensures offers { H.offers host.new ≡ H.offers host.old }
    ensures cause { HasHostCause (H.faults host.old) (H.faults host.new) result }
{
    if path.as_str().as_bytes()[end] != b'/' {
        return Ok(());
    }
    let prefix = path.prefix(alloc, end)?;
    host.make_dir(alloc, &prefix)
}
