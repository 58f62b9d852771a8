//! Whose turn is next, by what two sides have in hand.

ghost use Rattle.std.specs.Prelude.{◌≡◌};
ghost use Rattle.layers.specs.Turn.{next_turn, meeting};

use nodes::node::Node;
use nodes::refusal::Fault;
use std::cmp::Ordering;

/// A turn: the node that it gives, and from which hands; or two hands that differ at one place.
#[derive(Clone, Copy)]
pub enum Turn {
    First(Node),
    Second(Node),
    Both(Node),
    Differ,
}

/// Whose turn it is where both hands hold a node: the smaller place; equal nodes go together.
fn meet(first: Node, second: Node) -> Turn
    ensures { result ≡ meeting first second }
{
    match first.place().cmp(&second.place()) {
        Ordering::Less => Turn::First(first),
        Ordering::Greater => Turn::Second(second),
        Ordering::Equal if first == second => Turn::Both(first),
        Ordering::Equal => Turn::Differ,
    }
}

// Like a merge's `whose_turn` only where a hand is empty; what both hands bring is another rule.
/// The turn that is next, or the end; a fault in hand comes before all, the first side's first.
pub fn next_turn(
    first: Result<Option<Node>, Fault>,
    second: Result<Option<Node>, Fault>,
) -> Result<Option<Turn>, Fault>
    ensures { result ≡ next_turn first second }
{
    match (first?, second?) {
        (None, None) => Ok(None),
        (None, Some(node)) => Ok(Some(Turn::Second(node))),
        (Some(node), None) => Ok(Some(Turn::First(node))),
        (Some(node), Some(other)) => Ok(Some(meet(node, other))),
    }
}
