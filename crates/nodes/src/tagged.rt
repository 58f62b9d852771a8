//! A row with the tag that it has in a tape or a posting list.

use crate::row::Row;

/// What one command or record stands for.
#[derive(Clone, Copy)]
pub struct Tagged {
    pub tag: u16,
    pub row: Row,
}
