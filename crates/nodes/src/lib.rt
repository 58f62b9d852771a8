//! The vocabulary of the engine: rows and nodes, places and containment, refusals and faults,
//! what a source of nodes means, what a model means, and the source over a list of rows.

#![tactic(auto)]

pub mod limits;
pub mod list;
pub mod model;
pub mod node;
pub mod place;
pub mod refusal;
pub mod row;
pub mod side;
pub mod source;
pub mod tagged;
#[cfg(test)]
mod tests;
pub mod turns;
