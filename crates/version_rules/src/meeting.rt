//! Which versions meet a constraint.
ghost use Rattle.std.specs.Prelude.{◌↔◌, IsTrue};
ghost use Rattle.version_rules.specs.Meets.{Meets};

use crate::constraints::{Constraint, Sign};
use crate::versions::Version;

/// Whether a version meets a constraint. `~> x.y` is at least x.y.0 and less than (x+1).0.0, and `~> x.y.z` at least
/// x.y.z and less than x.(y+1).0, where the sums are whole numbers without a bound.
pub fn meets(version: &Version, constraint: &Constraint) -> bool
    ensures { IsTrue result ↔ Meets version.now constraint.now }
{
    let limit = &constraint.version;
    match constraint.sign {
        Sign::Equal => version == limit,
        Sign::Less => version < limit,
        Sign::Greater => version > limit,
        Sign::AtMost => version <= limit,
        Sign::AtLeast => version >= limit,
        Sign::Close => {
            version >= limit
                && version.major == limit.major
                && (constraint.parts == 2 || version.minor == limit.minor)
        }
    }
}
