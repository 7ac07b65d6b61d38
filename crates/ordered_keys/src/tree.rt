//! Numbers in the order of their items, as a tree whose nodes stand under their numbers: no change of it takes memory.
ghost use Rattle.std.specs.Prelude.{◌≡◌, OnOk};
ghost use Rattle.ordered_keys.specs.Keys.{key_in};
ghost use Rattle.ordered_keys.specs.Nodes.{CanJoin, IsNew, IsTree, IsWhole, Joins, numbers_in};
ghost use Rattle.ordered_keys.specs.Tree.{Gathers, GivesUp, Parts, TakesIn, stand};

use crate::nodes::{NONE, Node, hang, node_at};
use crate::ranks::is_above;
use crate::sought::Sought;
use doc_tree::NoMemory;
use std::cmp::Ordering;

/// The numbers of two trees, one behind the other.
fn joined(nodes: &mut Vec<Node>, front: u32, back: u32) -> u32
    requires { CanJoin nodes.old.items front back }
    ensures { Joins nodes.old.items nodes.new.items front back result }
{
    if front == NONE {
        return back;
    }
    if back == NONE {
        return front;
    }
    if is_above(front as usize, back as usize) {
        let first = node_at(nodes, front);
        let right = joined(nodes, first.right, back);
        hang(nodes, front, first.left, right);
        front
    } else {
        let last = node_at(nodes, back);
        let left = joined(nodes, front, last.left);
        hang(nodes, back, left, last.right);
        back
    }
}

/// How the item under a number stands to what is sought.
pub(crate) fn standing_at<T, S: Sought<T>>(items: &[Option<T>], number: u32, sought: &S) -> Ordering
    ensures { result ≡ stand (S.standing sought.now) (key_in items.now number) }
{
    match items.get(number as usize) {
        Some(Some(item)) => sought.standing_of(item),
        _ => Ordering::Less,
    }
}

/// The numbers whose items are below what is sought, and the others.
fn parted<T, S: Sought<T>>(
    nodes: &mut Vec<Node>,
    root: u32,
    items: &[Option<T>],
    sought: &S,
) -> (u32, u32)
    requires { IsWhole nodes.old.items root }
    ensures { Parts (S.standing sought.now) (key_in items.now) nodes.old.items nodes.new.items root result.0 result.1 }
{
    if root == NONE {
        return (NONE, NONE);
    }
    let node = node_at(nodes, root);
    match standing_at(items, root, sought) {
        Ordering::Less => {
            let (front, back) = parted(nodes, node.right, items, sought);
            hang(nodes, root, node.left, front);
            (root, back)
        }
        _ => {
            let (front, back) = parted(nodes, node.left, items, sought);
            hang(nodes, root, back, node.right);
            (front, root)
        }
    }
}

/// The tree with one number more, which stands behind those whose items are below what is sought.
pub(crate) fn placed<T, S: Sought<T>>(
    nodes: &mut Vec<Node>,
    root: u32,
    items: &[Option<T>],
    sought: &S,
    number: u32,
) -> u32
    requires { IsNew nodes.old.items root number }
    ensures { TakesIn (S.standing sought.now) (key_in items.now) nodes.old.items nodes.new.items root number result }
{
    if root == NONE || !is_above(root as usize, number as usize) {
        let (front, back) = parted(nodes, root, items, sought);
        hang(nodes, number, front, back);
        return number;
    }
    let node = node_at(nodes, root);
    match standing_at(items, root, sought) {
        Ordering::Less => {
            let right = placed(nodes, node.right, items, sought, number);
            hang(nodes, root, node.left, right);
            root
        }
        _ => {
            let left = placed(nodes, node.left, items, sought, number);
            hang(nodes, root, left, node.right);
            root
        }
    }
}

/// The tree without the number of the equal item.
pub(crate) fn without<T, S: Sought<T>>(
    nodes: &mut Vec<Node>,
    root: u32,
    items: &[Option<T>],
    sought: &S,
) -> u32
    requires { IsWhole nodes.old.items root }
    ensures { GivesUp (S.standing sought.now) (key_in items.now) nodes.old.items nodes.new.items root result }
{
    if root == NONE {
        return NONE;
    }
    let node = node_at(nodes, root);
    match standing_at(items, root, sought) {
        Ordering::Less => {
            let right = without(nodes, node.right, items, sought);
            hang(nodes, root, node.left, right);
            root
        }
        Ordering::Greater => {
            let left = without(nodes, node.left, items, sought);
            hang(nodes, root, left, node.right);
            root
        }
        Ordering::Equal => joined(nodes, node.left, node.right),
    }
}

/// Puts the numbers of the items from one bound to below the other behind those that were found before.
pub(crate) fn gather<T, S: Sought<T>>(
    nodes: &Vec<Node>,
    root: u32,
    items: &[Option<T>],
    low: &S,
    high: &S,
    found: &mut Vec<usize>,
) -> Result<(), NoMemory>
    requires { IsTree nodes.now.items root }
    ensures { OnOk result (Gathers (S.standing low.now) (S.standing high.now) (key_in items.now) (numbers_in nodes.now.items root) found.old.items found.new.items) }
{
    if root == NONE {
        return Ok(());
    }
    let node = node_at(nodes, root);
    if standing_at(items, root, low) == Ordering::Less {
        return gather(nodes, node.right, items, low, high, found);
    }
    if standing_at(items, root, high) != Ordering::Less {
        return gather(nodes, node.left, items, low, high, found);
    }
    gather(nodes, node.left, items, low, high, found)?;
    found.push(root as usize)?;
    gather(nodes, node.right, items, low, high, found)
}
