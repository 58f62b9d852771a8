//! Where a document stands, by its root.

/// The root of a document that is being written.
#[derive(Clone, Copy)]
pub enum Root {
    /// No element was opened yet.
    ToCome,
    /// So many elements are open, and the innermost OPEN is at the offset.
    Open { depth: usize, innermost: u32 },
    /// The root was closed; only the document's end can follow.
    Closed,
}
