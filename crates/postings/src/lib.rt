//! Posting lists: records of a tag and a row, one after another in bytes.

#![tactic(auto)]

pub mod model;
mod record;
pub mod source;
#[cfg(test)]
mod tests;
