//! The turns of a demo: what is asked behind the organisations' creation, by four draws each.
ghost use Rattle.std.specs.Prelude.{◌≡◌, ◌<◌, ◌≤◌, ◌+◌, ◌*◌, ℕ};
ghost use Rattle.demo_requests.specs.Draws.{state_after};
ghost use Rattle.demo_requests.specs.Turns as spec;

use crate::draws::Draws;

/// What a turn does with its node.
#[derive(Clone, Copy, Debug, PartialEq, Eq)]
pub enum Deed {
    /// POST creates the node.
    Create,
    /// GET shows it.
    Show,
    /// DELETE removes it.
    Remove,
    /// GET searches for the nodes with the tag.
    Search,
    /// PUT replaces it.
    Replace,
}

/// A turn, by the numbers of its names.
#[derive(Clone, Copy, Debug, PartialEq, Eq)]
pub struct Turn {
    /// Its organisation's, from 1 to the demo's size.
    pub organisation: u64,
    /// What it does.
    pub deed: Deed,
    /// Its node's, from 0 to 49.
    pub node: u64,
    /// Its tag's, from 0 to 6.
    pub tag: u64,
}

/// The next turn of a demo of this size. It takes four draws.
#[tactic(auto, using(crate::proofs::DrawLemmas::four_more))]
pub(crate) fn next_turn(draws: &mut Draws, size: u64) -> Turn
    requires { (0 < size) × (size ≤ 200) }
    ensures turn { (number : ℕ) → draws.old.state ≡ state_after size (4 * number) → result ≡ spec.turn size number }
    ensures draws { (number : ℕ) → draws.old.state ≡ state_after size (4 * number) → draws.new.state ≡ state_after size (4 * (number + 1)) }
{
    let organisation = 1 + draws.draw() % size;
    let deed = deed_numbered(draws.draw() % 5);
    let node = draws.draw() % 50;
    let tag = draws.draw() % 7;
    Turn {
        organisation,
        deed,
        node,
        tag,
    }
}

// The deed of a number from 0 to 4.
fn deed_numbered(number: u64) -> Deed
    ensures { result ≡ spec.deed_numbered number }
{
    match number {
        0 => Deed::Create,
        1 => Deed::Show,
        2 => Deed::Remove,
        3 => Deed::Search,
        _ => Deed::Replace,
    }
}
