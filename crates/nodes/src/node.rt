//! A node: a row that passed the check.

ghost use Rattle.std.specs.Prelude.{◌≤◌, ◌≡◌};
ghost use Rattle.nodes.specs.Limits.{max_document, max_level};

use crate::limits::{MAX_DOCUMENT, MAX_LEVEL};
use crate::place::Place;
use crate::refusal::Refusal;
use crate::row::Row;

/// A node of a model's tree. Only the check of a row makes one, besides the blank node, so nothing
/// else tests these facts.
#[derive(Clone, Copy, PartialEq, Eq, Debug)]
pub struct Node {
    document: u32,
    start: u32,
    end: u32,
    level: u8,
    ghost known: { document ≤ max_document },
    ghost deep: { (1 ≤ level) × (level ≤ max_level) },
    ghost ordered: { start ≤ end },
}

impl TryFrom<Row> for Node {
    ghost use Rattle.nodes.specs.Node.{node_of};

    type Error = Refusal;

    ghost try_from_gives = { λ row made. made ≡ node_of row };

    /// The node of a row; the ranges are tested before the order of start and end.
    fn try_from(row: Row) -> Result<Node, Refusal> {
        let Row {
            document,
            start,
            end,
            level,
        } = row;
        if document > MAX_DOCUMENT || level == 0 || level as usize > MAX_LEVEL {
            return Err(Refusal::OutOfRange);
        }
        if start > end {
            return Err(Refusal::StartPassesEnd);
        }
        Ok(Node {
            document,
            start,
            end,
            level,
        })
    }
}

impl From<Node> for Row {
    ghost use Rattle.nodes.specs.Node.{row_of};

    ghost from_gives = { λ node row. row ≡ row_of node };

    /// A node's four numbers.
    fn from(node: Node) -> Row {
        Row {
            document: node.document,
            start: node.start,
            end: node.end,
            level: node.level,
        }
    }
}

impl Default for Node {
    ghost use Rattle.nodes.specs.Node.{blank};

    ghost is_default = { λ node. node ≡ blank };

    /// The blank node.
    #[tactic(auto, using(crate::proofs::Made::same_node_lem))]
    fn default() -> Node {
        Node {
            document: 0,
            start: 0,
            end: 0,
            level: 1,
        }
    }
}

impl Row {
    ghost use Rattle.nodes.specs.Node.{as_node, blank};

    /// The node of this row, and the blank node where the row is wrong.
    pub fn node_or_blank(self) -> Node
        ensures { result ≡ as_node self }
    {
        Node::try_from(self).unwrap_or_default()
    }
}

impl Node {
    ghost use Rattle.nodes.specs.Node.{place_of, contains, parent};

    /// Where the node stands.
    pub fn place(self) -> Place
        ensures { result ≡ place_of self }
    {
        let document = self.document;
        let start = self.start;
        Place { document, start }
    }

    /// Whether the other node lies strictly inside this one, in the same document.
    pub fn contains(self, other: Node) -> bool
        ensures { result ≡ contains self other }
    {
        self.document == other.document && self.start < other.start && other.end < self.end
    }

    /// Whether this node contains the other, which is one level deeper.
    pub fn is_parent_of(self, other: Node) -> bool
        ensures { result ≡ parent self other }
    {
        self.contains(other) && self.level + 1 == other.level
    }
}
