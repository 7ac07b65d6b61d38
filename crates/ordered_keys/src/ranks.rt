//! Which of two numbers stands higher in the tree.

// An odd multiplier whose bits are spread evenly (the golden ratio's), so that numbers that follow each other get
// ranks that lie far apart.
const SPREAD: u64 = 0x9E37_79B9_7F4A_7C15;

/// Whether one number stands above the other. Any order would do for what is found; this one is as good as drawn by
/// lot, and so the tree is some logarithm of its numbers high.
pub(crate) fn is_above(upper: usize, lower: usize) -> bool {
    rank(upper) > rank(lower)
}

/// The rank of a number. No two numbers have the same.
fn rank(number: usize) -> u64 {
    let spread = (number as u64).wrapping_mul(SPREAD);
    let mixed = (spread ^ (spread >> 32)).wrapping_mul(SPREAD);
    mixed ^ (mixed >> 29)
}
