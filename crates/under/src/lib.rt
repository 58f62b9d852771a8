//! A run as a source: the contained nodes that stand in a pair, or that fit the first step of a path.

#![tactic(auto)]

pub mod under;
