//! Keys of names: numbers by which most names are told apart without a look at their texts.
ghost use Rattle.std.specs.Prelude.{◌≡◌};
ghost use Rattle.dep_solver.specs.Keys.{key_of, key_step};

use doc_tree::Name;

/// The key of a name. Names of different keys are different; names of one key may be.
pub(crate) fn key_of(name: &Name) -> u64
    ensures { result ≡ key_of name.now }
{
    let mut key: u64 = 0;
    for byte in name.as_str().as_bytes() {
        key = with_byte(key, *byte);
    }
    key
}

fn with_byte(key: u64, byte: u8) -> u64
    ensures { result ≡ key_step key byte }
{
    key.wrapping_mul(31).wrapping_add(u64::from(byte))
}
