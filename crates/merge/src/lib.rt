//! The merge of two sources into turns: which node comes next, which turn is refused, and which
//! containers are open around a node. Runs, layers over runs and the steps of a path stand on it.

#![tactic(auto)]

pub mod laws;
pub mod merge;
mod open;
pub mod opening;
pub mod pair;
#[cfg(test)]
mod tests;
mod track;
pub mod turn;
