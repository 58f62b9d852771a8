//! What a source of nodes means.

ghost use Rattle.std.specs.Prelude.{List, Option};
ghost use Rattle.nodes.specs.declared.node.Node.{Node};
ghost use Rattle.nodes.specs.declared.refusal.Fault.{Fault};
ghost use Rattle.nodes.specs.Source.{Taken};

use crate::node::Node;
use crate::refusal::Fault;

/// A finite list of nodes still to come, and then an ending: the end (`None`) or one fault.
// Two ghost members and not one pair of them: a layer often changes the list alone.
pub trait NodeSource {
    ghost coming: { Self → List Node };

    ghost ending: { Self → Option Fault };

    /// The first node of the list, and the rest stays to come; on an empty list the ending, which stays.
    fn take(&mut self) -> Result<Option<Node>, Fault>
        ensures { Taken (coming self.old) (ending self.old) result (coming self.new) (ending self.new) };
}
