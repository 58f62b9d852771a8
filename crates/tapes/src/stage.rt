//! Where a reading of a tape stands.

/// Outside a document; in one whose root is still to come; in one whose root was opened.
#[derive(Clone, Copy)]
pub enum Stage {
    Outside,
    Begun,
    Rooted,
}
