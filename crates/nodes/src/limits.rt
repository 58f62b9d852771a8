//! The limits of the engine, each in this one place.

/// The deepest level that a node may have; levels count from 1.
pub const MAX_LEVEL: usize = 64;

/// The greatest number of a document.
pub const MAX_DOCUMENT: u32 = 2_147_483_647;

/// The most bytes that a tape or a posting list may have.
pub const MAX_BYTES: usize = 16_777_216;

/// The most turns that a run or a union may have.
pub const MAX_TURNS: u32 = 16_777_216;

/// The greatest place that a fault can name; what lies behind it is named by it.
pub const MAX_PLACE: u32 = 4_294_967_295;
