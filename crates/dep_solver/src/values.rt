//! The values of a cookbook as bits of a number: that it isn't chosen, and each of its releases.
ghost use Rattle.std.specs.Prelude.{◌≡◌, ◌↔◌, ◌<◌, IsTrue, min, ◌-◌, Some};
ghost use Rattle.std.specs.Int.{bit_at};
ghost use Rattle.dep_solver.specs.Values.{value_of};

use crate::universe::Release;
use version_rules::Version;

/// The value of the release at an index, of so many: the bits from 1 on are releases, the newest first, and the last bit
/// stands for all from there on.
pub(crate) fn release_value(count: usize, index: usize) -> u32
    requires { index < count }
    ensures value { result ≡ min (count - index) 63 }
    ensures within { result < 64 }
{
    let place = count - index;
    if place < 63 { place as u32 } else { 63 }
}

/// The value of the release of a version, and 0 where there is none.
pub(crate) fn value_of(releases: &[Release], version: &Version) -> u32
    ensures value { result ≡ value_of releases.now (Some version.now) }
    ensures within { result < 64 }
{
    for index in 0..releases.len() {
        if releases[index].version == *version {
            return release_value(releases.len(), index);
        }
    }
    0
}

/// Whether a value is among the values.
pub(crate) fn has_value(values: u64, value: u32) -> bool
    requires { value < 64 }
    ensures { IsTrue result ↔ (bit_at values value ≡ 1) }
{
    (values >> value) & 1 == 1
}

/// The value alone.
pub(crate) fn only(value: u32) -> u64
    requires { value < 64 }
    ensures { bit_at result value ≡ 1 }
{
    1 << value
}
