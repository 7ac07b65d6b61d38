//! The modes that recipes state.
ghost use Rattle.std.specs.Prelude.{◌≡◌};
ghost use Rattle.doc_tree.specs.Doc.{whole};
ghost use Rattle.doc_tree.specs.Tree.{doc_of};
ghost use Rattle.resource_core.specs.Modes as spec;

use doc_tree::{Number, Tree};
use host_tree::Mode;

/// The mode that a tree states: a text of three or four octal digits, or a whole number, which is the mode itself.
pub(crate) fn mode_of(tree: &Tree) -> Option<Mode>
    ensures { result ≡ spec.mode_of (doc_of tree.now) }
{
    match tree {
        Tree::Words(digits) => digits_mode(digits.as_bytes()),
        Tree::Whole(number) => whole_mode(number),
        Tree::Null | Tree::Bool(_) | Tree::List(_) | Tree::Dict(_) => None,
    }
}

fn whole_mode(number: &Number) -> Option<Mode>
    ensures { result ≡ spec.mode_of (whole number.now) }
{
    let value = number.value();
    if 0 <= value && value <= 4095 {
        Mode::of(value as u16)
    } else {
        None
    }
}

fn digits_mode(digits: &[u8]) -> Option<Mode>
    ensures { result ≡ spec.digits_mode digits.now }
{
    match digits {
        [a, b, c] => Mode::octal(b'0', *a, *b, *c),
        [a, b, c, d] => Mode::octal(*a, *b, *c, *d),
        _ => None,
    }
}
