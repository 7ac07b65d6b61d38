//! Which shard an organisation belongs to.

ghost use Rattle.std.specs.Prelude.{◌≡◌, ◌<◌, ◌≤◌};
ghost use Rattle.shard_core.specs.Shards as spec;

/// The number of the shard that an organisation belongs to: the sum of its name's bytes, by the number
/// of shards.
pub fn shard_of(name: &[u8], count: usize) -> usize
    requires some { 0 < count }
    requires few { count ≤ 16 }
    ensures value { result ≡ spec.shard_of name.now count }
    ensures within { result < count }
{
    let mut sum = 0;
    for byte in name {
        sum = (sum + usize::from(*byte)) % count;
    }
    sum
}
