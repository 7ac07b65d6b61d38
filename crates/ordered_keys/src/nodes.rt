//! The nodes of a tree, each under its number.
ghost use Rattle.std.specs.Prelude.{◌≡◌, ◌<◌, length, set};
ghost use Rattle.ordered_keys.specs.Nodes.{node_in};

/// In the place of a number: none.
pub(crate) const NONE: u32 = u32::MAX;

/// What hangs below a number: the topmost of the numbers before it and of those behind it.
#[derive(Clone, Copy)]
pub(crate) struct Node {
    pub(crate) left: u32,
    pub(crate) right: u32,
}

/// The node of a number.
pub(crate) fn node_at(nodes: &Vec<Node>, number: u32) -> Node
    requires { number < length nodes.now.items }
    ensures { result ≡ node_in nodes.now.items number }
{
    nodes[number as usize]
}

/// Hangs others below a number.
pub(crate) fn hang(nodes: &mut Vec<Node>, number: u32, left: u32, right: u32)
    requires { number < length nodes.old.items }
    ensures { nodes.new.items ≡ set nodes.old.items number (record { left = left; right = right }) }
{
    nodes[number as usize] = Node { left, right };
}
