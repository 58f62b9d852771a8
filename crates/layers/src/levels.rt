//! The layer that keeps the nodes between two levels.

ghost use Rattle.std.specs.Prelude.{◌≡◌};
ghost use Rattle.layers.specs.Levels.{between, keep_levels, levels_nodes, levels_ending};

use nodes::node::Node;
use nodes::refusal::Fault;
use nodes::row::Row;
use nodes::source::NodeSource;

/// The nodes of a source whose level lies between two levels, both included.
#[derive(Drop)]
pub struct Levels<S> {
    source: S,
    lowest: u8,
    deepest: u8,
}

impl<S: NodeSource> Levels<S> {
    /// The source's nodes from the lowest to the deepest level, and then its ending; none where
    /// the lowest passes the deepest.
    pub fn new(source: S, lowest: u8, deepest: u8) -> Levels<S>
        ensures coming { levels_nodes S.NodeSource result ≡ keep_levels lowest deepest (S.NodeSource.coming source) }
        ensures ending { levels_ending S.NodeSource result ≡ S.NodeSource.ending source }
    {
        Levels {
            source,
            lowest,
            deepest,
        }
    }
}

impl<S> Levels<S> {
    /// Whether a node's level lies between the two.
    fn keeps(&self, node: Node) -> bool
        ensures { result ≡ between self.now.lowest self.now.deepest node.level }
    {
        (self.lowest..=self.deepest).contains(&Row::from(node).level)
    }
}

impl<S: NodeSource> NodeSource for Levels<S> {
    ghost coming = { levels_nodes S.NodeSource };

    ghost ending = { levels_ending S.NodeSource };

    // Left to itself, the compiler calls this for each node, and over a posting list that takes twice the time.
    #[inline(always)]
    fn take(&mut self) -> Result<Option<Node>, Fault> {
        while let Some(node) = self.source.take()? {
            if self.keeps(node) {
                return Ok(Some(node));
            }
        }
        Ok(None)
    }
}
