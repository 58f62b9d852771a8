//! What a model means.

ghost use Rattle.std.specs.Prelude.{◌≡◌, ℕ, List, Option};
ghost use Rattle.nodes.specs.declared.node.Node.{Node};
ghost use Rattle.nodes.specs.declared.refusal.Fault.{Fault};

use crate::source::NodeSource;

/// A list of nodes for each tag, and an ending for each tag and name.
pub trait Model {
    type Source: NodeSource + Drop;

    ghost list_of: { Self → ℕ → List Node };

    ghost ending_of: { Self → ℕ → ℕ → Option Fault };

    // Tag and name go together in this one call, and are two numbers of different meaning.
    /// A source of the tag's list, whose fault, if it ends by one, has the name.
    fn source(&self, tag: u16, name: u16) -> Self::Source
        ensures coming { Self.Source.NodeSource.coming result ≡ list_of self.now tag }
        ensures ending { Self.Source.NodeSource.ending result ≡ ending_of self.now tag name };
}
