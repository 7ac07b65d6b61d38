//! The ids of sandboxes.
ghost use Rattle.std.specs.Prelude.{◌≡◌, ◌++◌, ◌∷◌, decimal};
ghost use Rattle.md5.specs.Md5.{md5};
ghost use Rattle.sandboxes.specs.Checksums.{checksum_of};

use crate::checksum::Checksum;
use doc_tree::Text;
use itoa::Buffer;
use md5::{Digest, Md5};

/// The id of the sandbox with which an organisation's count becomes `count`. It takes no memory.
pub fn sandbox_id(org: &Text, count: u64) -> Checksum
    ensures { result ≡ checksum_of (org.now ++ 10 ∷ decimal count) }
{
    Checksum::from_digest(hash_of(org, count))
}

fn hash_of(org: &Text, count: u64) -> [u8; 16]
    ensures { result ≡ md5 (org.now ++ 10 ∷ decimal count) }
{
    let mut buffer = Buffer::new();
    let mut hasher = Md5::new();
    hasher.update(org.as_bytes());
    hasher.update(b"\n");
    hasher.update(buffer.format(count).as_bytes());
    hasher.finalize()
}
