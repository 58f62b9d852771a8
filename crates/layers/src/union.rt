//! The layer that gives the nodes of two sources.

ghost use Rattle.std.specs.Prelude.{◌≡◌};
ghost use Rattle.layers.specs.Union.{listing, union_of, allowed, union_means, union_nodes, union_ending};
ghost use Rattle.layers.specs.Joined.{Joined};

use crate::turn::{Turn, next_turn};
use nodes::node::Node;
use nodes::refusal::{Fault, Refusal};
use nodes::side::Side;
use nodes::source::NodeSource;
use nodes::turns::Turns;

/// The nodes of two sources by rising place, equal ones once; it counts its turns.
#[derive(Drop)]
pub struct Union<S, T> {
    first: Side<S>,
    second: Side<T>,
    turns: Turns,
}

impl<S: NodeSource, T: NodeSource> Union<S, T> {
    /// The union of two sources; what it refuses itself, it refuses under the name.
    #[tactic(auto, using(crate::proofs::Joining::joined))]
    pub fn new(first: S, second: T, name: u16) -> Union<S, T>
        ensures means { union_means S.NodeSource T.NodeSource result ≡ union_of name (listing S.NodeSource first) (listing T.NodeSource second) }
        ensures joins { Joined name (listing S.NodeSource first) (listing T.NodeSource second) (union_means S.NodeSource T.NodeSource result) }
    {
        Union {
            first: Side::new(first),
            second: Side::new(second),
            turns: Turns::new(name),
        }
    }

    /// Refuses one more turn where all are used up.
    fn check_limit(&self) -> Result<(), Fault>
        ensures { result ≡ allowed self.now.turns.name self.now.turns.had }
    {
        if self.turns.are_spent() {
            Err(self.turns.fault(Refusal::TurnLimit))
        } else {
            Ok(())
        }
    }
}

impl<S: NodeSource, T: NodeSource> NodeSource for Union<S, T> {
    ghost coming = { union_nodes S.NodeSource T.NodeSource };

    ghost ending = { union_ending S.NodeSource T.NodeSource };

    #[tactic(auto, using(crate::proofs::Turns::united_on))]
    fn take(&mut self) -> Result<Option<Node>, Fault> {
        let Some(turn) = next_turn(self.first.hand(), self.second.hand())? else {
            return Ok(None);
        };
        self.check_limit()?;
        let node = match turn {
            Turn::First(node) => {
                self.first.pass();
                node
            }
            Turn::Second(node) => {
                self.second.pass();
                node
            }
            Turn::Both(node) => {
                self.first.pass();
                self.second.pass();
                node
            }
            Turn::Differ => return Err(self.turns.fault(Refusal::HandsDiffer)),
        };
        self.turns.count();
        Ok(Some(node))
    }
}
