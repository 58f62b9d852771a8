//! Paths: queries of child and descendant steps over any model.

#![tactic(auto)]

pub mod fault;
pub mod laws;
pub mod path;
pub mod query;
mod step;
