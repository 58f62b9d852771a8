//! A row: how a node lies in a list, a cell or an array.

/// Four plain numbers, which may be anything; `Node::try_from` makes a node of them.
#[derive(Clone, Copy, PartialEq, Eq, Debug)]
pub struct Row {
    pub document: u32,
    pub start: u32,
    pub end: u32,
    pub level: u8,
}

impl Row {
    /// The row of the blank node.
    pub const BLANK: Row = Row {
        document: 0,
        start: 0,
        end: 0,
        level: 1,
    };
}
