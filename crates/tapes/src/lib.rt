//! Reading tapes: the commands, the source of one tag's nodes, and the tape as a model.

#![tactic(auto)]

pub mod check;
pub mod command;
pub mod laws;
mod reader;
pub mod source;
pub mod stage;
pub mod tape;
#[cfg(test)]
mod tests;
